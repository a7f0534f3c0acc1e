// The text of a file of records, turned to records of the kind that is asked for: the same bytes at the same addresses, or why not.
#![tactic(auto)]

ghost use Rattle.std.specs.Prelude.{◌++◌, ◌≡◌, ◌≤◌, length};
ghost use Rattle.print_text.specs.Lines.{refusal_text};
ghost use Rattle.print_text.specs.Puts.{Puts};
ghost use Rattle.prog_args.specs.Text.{line_room, Stands};
ghost use Rattle.record_scan.specs.Reading.{faulty, read_text};
ghost use Rattle.print_rehex.specs.Rehex.{bytes_room, blocks_room, fault_text, turned_text};
ghost use Rattle.print_rehex.specs.Steps.{text_room, Turns};

use prelude::Refusal;

// The longest file, and a byte more: what is as long as that is refused.
const SOURCE: usize = 3_276_801;

// A mark for each byte that a file may give, by which a file in any order is read quickly.
const SCRATCH: usize = 131_072;

// The rooms that every text fits into: for the bytes from the load address on, for the blocks, and for the records.
const BYTES: usize = 1_048_576;

const BLOCKS: usize = 4_096;

const TEXT: usize = 3_145_728;

// What a file of a kind gives, as records. There is room for every file, so that 14 is not given.
fn turn(
    kind: u8,
    format: u8,
    load: u32,
    source: &[u8],
    bytes: &mut [u8],
    offsets: &mut [u64],
    sizes: &mut [u64],
    out: &mut [u8],
) -> Result<u64, Refusal>
    requires bytes_len { length bytes.old ≡ bytes_room }
    requires offsets_len { length offsets.old ≡ blocks_room }
    requires sizes_len { length sizes.old ≡ blocks_room }
    requires text_room_in_bounds { text_room ≤ length out.old }
    ensures { Turns format load bytes.old (read_text kind load source.now) out.old result out.new }
{
    let mut scratch = [0u8; SCRATCH];
    let found = record_read::read(kind, source, load, bytes, offsets, sizes, &mut scratch);
    match found {
        Err(why) => Err(why),
        Ok(count) => {
            let n = count as usize;
            record_write::write(format, bytes, &offsets[..n], &sizes[..n], load, out)
        }
    }
}

// The line that is at fault, behind a refusal's.
fn put_line(at: usize, line: u64, out: &mut [u8]) -> usize
    requires at_le_line_room { at ≤ line_room }
    requires text_room_in_bounds { text_room ≤ length out.old }
    ensures { Puts (fault_text (faulty line)) out.old at (Some result) out.new }
{
    let numbers = [line];
    print_text::write_line(out, at, b"line", &numbers)
}

// A refusal's line, and one with the line at fault where there is one.
fn put_fault(why: Refusal, kind: u8, load: u32, source: &[u8], out: &mut [u8]) -> usize
    requires { text_room ≤ length out.old }
    ensures { Stands (refusal_text why ++ fault_text (read_text kind load source.now)) out.old result out.new }
{
    let at = prog_args::put_refusal(why, out);
    let mut scratch = [0u8; SCRATCH];
    let fault = record_scan::line_at_fault(kind, source, load, &mut scratch);
    match fault {
        None => at,
        Some(line) => put_line(at, line, out),
    }
}

// The text of a file: its records, or why not.
fn put_text(
    kind: u8,
    format: u8,
    load: u32,
    source: &[u8],
    bytes: &mut [u8],
    offsets: &mut [u64],
    sizes: &mut [u64],
    out: &mut [u8],
) -> usize
    requires bytes_len { length bytes.old ≡ bytes_room }
    requires offsets_len { length offsets.old ≡ blocks_room }
    requires sizes_len { length sizes.old ≡ blocks_room }
    requires text_room_in_bounds { text_room ≤ length out.old }
    ensures { Stands (turned_text kind format load bytes.old source.now) out.old result out.new }
{
    if source.len() >= SOURCE {
        return prog_args::put_refusal(Refusal::Malformed(0), out);
    }
    let written = turn(kind, format, load, source, bytes, offsets, sizes, out);
    match written {
        Err(why) => put_fault(why, kind, load, source, out),
        Ok(length) => length as usize,
    }
}

// The same, in rooms that every text fits into; nothing in other ones.
pub fn put_file(
    kind: u8,
    format: u8,
    load: u32,
    source: &[u8],
    bytes: &mut [u8],
    offsets: &mut [u64],
    sizes: &mut [u64],
    out: &mut [u8],
) -> usize
    ensures { length bytes.old ≡ bytes_room → length offsets.old ≡ blocks_room → length sizes.old ≡ blocks_room
        → text_room ≤ length out.old
        → Stands (turned_text kind format load bytes.old source.now) out.old result out.new }
{
    if bytes.len() != BYTES {
        return 0;
    }
    if offsets.len() != BLOCKS {
        return 0;
    }
    if sizes.len() != BLOCKS {
        return 0;
    }
    if out.len() < TEXT {
        return 0;
    }
    put_text(kind, format, load, source, bytes, offsets, sizes, out)
}

// What the bench prints of a released image and an overlay under trial, each an Intel HEX file:
//
// of every run of bytes that the overlay changes a line, `run ADDRESS COUNT` and the bytes of both, in hex; a line `alone ADDRESS` with the first byte that
// only the overlay gives, if there is one; last `runs` and their number. Or of a range `overlay` or `released`, whichever it comes from, and its bytes.
//
// A file's image goes from the load address to the end of its last block, and no byte is shown that a file does not give. A refusal is one line, `refused` with
// its number and place. Where a file was refused, one more says which, and one more the line at fault, from 0, if there is one; where a range was, one more
// says which file does not give which address of it.
#![tactic(auto)]

ghost use Rattle.std.specs.Prelude.{◌≡◌, ◌+◌, ◌/◌, ◌≤◌, min, max, length};
ghost use Rattle.prog_args.specs.Counts.{IsPrefixLen};
ghost use Rattle.overlay.specs.Trial.{trial};
ghost use Rattle.print_text.specs.Puts.{Writes};
ghost use Rattle.prog_args.specs.Text.{Stands};
ghost use Rattle.prelude.specs.Pick.{pick};
ghost use Rattle.print_bench.specs.declared.Asked.TheVariants.{Runs, Range};
ghost use Rattle.print_bench.specs.Images.{bytes_room, blocks_room, file_of, fault_in, unread_text, extent_of, beyond_of, free_from, alone_in};
ghost use Rattle.print_bench.specs.Program.{runs_room, field, run_text, run_lines, alone_text, list_text, named_text, bytes_text};
ghost use Rattle.print_bench.specs.Program.{missing_text, given_text, source_text, range_text, answer_text, images_text, released_text, bench_text};
ghost use Rattle.print_bench.specs.Steps.{text_room, far, InBoth, EachInBoth, Loads, Benches};

use overlay::Source;
use prelude::Refusal;

// The longest file, and a byte more: what is as long as that is refused.
const SOURCE: usize = 1_048_577;

// How many bytes from the load address on a file may give, in how many blocks, and how many runs are listed.
const BYTES: usize = 524_288;

// A mark for each of those bytes, by which a file in any order is read quickly.
const SCRATCH: usize = 65_536;

const BLOCKS: usize = 4_096;

const RUNS: usize = 65_536;

// Room for the longest list: every byte of both images in digits, and 26 bytes more for each run, between which there is a byte.
const TEXT: usize = 3_801_600;

// What is asked: every run, or a range by its address and its count of bytes.
// stays: two questions, and not a value and its lack
#[derive(Clone, Copy)]
pub enum Asked {
    Runs,
    Range(u32, u32),
}

// A space and bytes in hex.
fn put_field(bytes: &[u8], at: usize, out: &mut [u8]) -> usize
    requires bytes_len_bound { length bytes.now ≤ bytes_room }
    requires bytes_in_bounds { at + length (field bytes.now) ≤ length out.old }
    ensures { Writes (field bytes.now) out.old at result out.new }
{
    let from = print_text::write_word(out, at, b" ");
    let bits = 8 * bytes.len() as u64;
    let Ok(n) = bitvec::write_hex(bytes, bits, &mut out[from..]) else {
        return from;
    };
    from + n as usize
}

// A run's line.
fn put_run(
    load: u32,
    released: &[u8],
    overlay: &[u8],
    first: u64,
    count: u64,
    at: usize,
    out: &mut [u8],
) -> usize
    requires in_both { InBoth released.now overlay.now first count }
    requires count_in_bounds { at + length (run_text load released.now overlay.now first count) ≤ length out.old }
    ensures { Writes (run_text load released.now overlay.now first count) out.old at result out.new }
{
    let start = first as usize;
    let end = start + count as usize;
    let numbers = [load as u64 + first, count];
    let a = print_text::write_word(out, at, b"run");
    let b = print_text::write_numbers(out, a, &numbers);
    let c = put_field(&released[start..end], b, out);
    let d = put_field(&overlay[start..end], c, out);
    print_text::write_word(out, d, b"\n")
}

// The runs' lines.
fn put_runs(
    load: u32,
    released: &[u8],
    overlay: &[u8],
    firsts: &[u64],
    counts: &[u64],
    out: &mut [u8],
) -> usize
    requires firsts_len { length firsts.now ≡ length counts.now }
    requires each_in_both { EachInBoth released.now overlay.now firsts.now counts.now }
    requires counts_in_bounds { length (run_lines load released.now overlay.now firsts.now counts.now) ≤ length out.old }
    ensures { Writes (run_lines load released.now overlay.now firsts.now counts.now)
        out.old 0 result out.new }
{
    let mut end = 0;
    for (first, count) in firsts.iter().zip(counts) {
        end = put_run(load, released, overlay, *first, *count, end, out);
    }
    end
}

// The byte behind a block.
fn end_of(offset: u64, size: u64) -> u64
    ensures value { result ≡ offset / 8 + size / 8 }
    ensures upper_bound { result ≤ far }
{
    offset / 8 + size / 8
}

// The byte itself, or the one behind a block that holds it.
fn beyond(offset: u64, size: u64, at: u64) -> u64
    ensures value { result ≡ beyond_of offset size at }
    ensures upper_bound { result ≤ max at far }
{
    let end = end_of(offset, size);
    if at < offset / 8 {
        return at;
    }
    if at < end {
        return end;
    }
    at
}

// The first byte from `at` on that no block of a file holds.
fn first_free(offsets: &[u64], sizes: &[u64], at: u64) -> u64
    ensures value { result ≡ free_from offsets.now sizes.now at }
    ensures upper_bound { result ≤ max at far }
{
    let mut free = at;
    for (offset, size) in offsets.iter().zip(sizes) {
        free = beyond(*offset, *size, free);
    }
    free
}

// The first byte that the overlay gives and the released file does not, or `end` where there is none.
fn first_alone(
    released_offsets: &[u64],
    released_sizes: &[u64],
    offsets: &[u64],
    sizes: &[u64],
    end: u64,
) -> u64
    ensures value { result ≡ alone_in released_offsets.now released_sizes.now offsets.now sizes.now end }
    ensures upper_bound { result ≤ max end far }
{
    for (offset, size) in offsets.iter().zip(sizes) {
        let free = first_free(released_offsets, released_sizes, *offset / 8);
        if free < end_of(*offset, *size) {
            return free;
        }
    }
    end
}

// The line for a byte that only the overlay gives, if it is before the end of the overlay's image.
fn put_alone(load: u32, first: u64, end: u64, at: usize, out: &mut [u8]) -> usize
    requires first_le_far { first ≤ far }
    requires at_in_bounds { at + 32 ≤ length out.old }
    ensures writes { Writes (alone_text load end first) out.old at result out.new }
    ensures upper_bound { result ≤ at + 32 }
{
    if first < end {
        let numbers = [load as u64 + first];
        return print_text::write_line(out, at, b"alone", &numbers);
    }
    at
}

// Every run of bytes that the overlay changes, and whether it gives a byte that the released file does not.
fn put_list(
    load: u32,
    released: &[u8],
    overlay: &[u8],
    offsets: &[u64],
    sizes: &[u64],
    alone: u64,
    firsts: &mut [u64],
    counts: &mut [u64],
    out: &mut [u8],
) -> usize
    requires released_len_bound { (length released.now ≤ bytes_room) × (length overlay.now ≤ bytes_room) }
    requires alone_le_far { alone ≤ far }
    requires firsts_len { (length firsts.old ≡ runs_room) × (length counts.old ≡ runs_room) }
    requires text_room_in_bounds { text_room ≤ length out.old }
    ensures { Stands (list_text load alone (trial overlay.now released.now offsets.now sizes.now))
        out.old result out.new }
{
    let listed = overlay::differences(overlay, released, offsets, sizes, firsts, counts);
    match listed {
        Err(why) => prog_args::put_refusal(why, out),
        Ok(count) => {
            let n = count as usize;
            let at = put_runs(load, released, overlay, &firsts[..n], &counts[..n], out);
            let next = put_alone(load, alone, overlay.len() as u64, at, out);
            let numbers = [count];
            print_text::write_line(out, next, b"runs", &numbers)
        }
    }
}

// A refusal, and which file does not give which address.
fn put_named(why: Refusal, word: &[u8], address: u64, out: &mut [u8]) -> usize
    requires word_len_bound { length word.now ≤ 8 }
    requires text_room_in_bounds { text_room ≤ length out.old }
    ensures { Stands (named_text why word.now address) out.old result out.new }
{
    let at = print_text::write_refusal(out, 0, why);
    let numbers = [address];
    print_text::write_line(out, at, word, &numbers)
}

// Which file a range comes from, and its bytes.
fn put_bytes(word: &[u8], bytes: &[u8], out: &mut [u8]) -> usize
    requires word_len_bound { length word.now ≤ 8 }
    requires bytes_len_bound { length bytes.now ≤ bytes_room }
    requires text_room_in_bounds { text_room ≤ length out.old }
    ensures { Stands (bytes_text word.now bytes.now) out.old result out.new }
{
    let a = print_text::write_word(out, 0, word);
    let b = put_field(bytes, a, out);
    print_text::write_word(out, b, b"\n")
}

// A range that is refused: the released file where it goes past that one's image, else the overlay.
fn put_missing(
    why: Refusal,
    load: u32,
    end: u64,
    size: u64,
    free: u64,
    lack: u64,
    out: &mut [u8],
) -> usize
    requires free_le_far { (free ≤ far) × (lack ≤ far) }
    requires text_room_in_bounds { text_room ≤ length out.old }
    ensures { Stands (missing_text why load end size free lack) out.old result out.new }
{
    if end <= size {
        return put_named(why, b"overlay", load as u64 + lack, out);
    }
    put_named(why, b"released", load as u64 + free, out)
}

// The bytes of a range that no block of the overlay touches, where the released file gives all of them.
fn put_given(load: u32, end: u64, free: u64, bytes: &[u8], out: &mut [u8]) -> usize
    requires free_le_far { free ≤ far }
    requires bytes_len_bound { length bytes.now ≤ bytes_room }
    requires text_room_in_bounds { text_room ≤ length out.old }
    ensures { Stands (given_text load end free bytes.now) out.old result out.new }
{
    if end <= free {
        return put_bytes(b"released", bytes, out);
    }
    put_named(Refusal::BadPart, b"released", load as u64 + free, out)
}

// The answer for a range from byte `first` on; `free` and `lack` are the first bytes from there on that the released file and the overlay do not give.
fn put_source<'a>(
    load: u32,
    first: u64,
    count: u64,
    free: u64,
    lack: u64,
    released: &'a [u8],
    overlay: &'a [u8],
    offsets: &[u64],
    sizes: &[u64],
    out: &mut [u8],
) -> usize
    requires count_bound { (first + count ≤ far) × (free ≤ far) × (lack ≤ far) }
    requires released_len_bound { (length released.now ≤ bytes_room) × (length overlay.now ≤ bytes_room) }
    requires text_room_in_bounds { text_room ≤ length out.old }
    ensures { Stands (source_text load first count free lack (trial overlay.now released.now offsets.now sizes.now))
        out.old result out.new }
{
    let source = overlay::which(overlay, released, offsets, sizes, first, count);
    let bytes = overlay::pick(overlay, released, offsets, sizes, first, count);
    let end = first + count;
    match source {
        Err(why) => { put_missing(why, load, end, released.len() as u64, free, lack, out) }
        Ok(source) => match source {
            Source::Overlay => put_bytes(b"overlay", bytes, out),
            Source::Released => put_given(load, end, free, bytes, out),
        },
    }
}

// The answer for a range by its address.
fn put_range<'a>(
    load: u32,
    address: u32,
    count: u32,
    released: &'a [u8],
    overlay: &'a [u8],
    released_offsets: &[u64],
    released_sizes: &[u64],
    offsets: &[u64],
    sizes: &[u64],
    out: &mut [u8],
) -> usize
    requires released_len_bound { (length released.now ≤ bytes_room) × (length overlay.now ≤ bytes_room) }
    requires text_room_in_bounds { text_room ≤ length out.old }
    ensures { Stands (range_text load address count (trial overlay.now released.now offsets.now sizes.now)
        released_offsets.now released_sizes.now) out.old result out.new }
{
    if count == 0 {
        return prog_args::put_refusal(Refusal::BadPart, out);
    }
    if address < load {
        return put_named(Refusal::BadPart, b"released", address as u64, out);
    }
    let first = (address - load) as u64;
    let free = first_free(released_offsets, released_sizes, first);
    let lack = first_free(offsets, sizes, first);
    put_source(
        load,
        first,
        count as u64,
        free,
        lack,
        released,
        overlay,
        offsets,
        sizes,
        out,
    )
}

// How many bytes a file's image has: up to the end of its last block.
fn extent(offsets: &[u64], sizes: &[u64], bytes: &[u8]) -> usize
    requires { length offsets.now ≡ length sizes.now }
    ensures value { result ≡ min (extent_of offsets.now sizes.now) (length bytes.now) }
    ensures prefix_len { IsPrefixLen result bytes.now }
{
    let (Some(offset), Some(size)) = (offsets.last(), sizes.last()) else {
        return 0;
    };
    end_of(*offset, *size).min(bytes.len() as u64) as usize
}

// What is asked of two files that were read, each within its image.
fn put_answer<'a>(
    asked: Asked,
    load: u32,
    released: &'a [u8],
    released_offsets: &[u64],
    released_sizes: &[u64],
    overlay: &'a [u8],
    offsets: &[u64],
    sizes: &[u64],
    firsts: &mut [u64],
    counts: &mut [u64],
    out: &mut [u8],
) -> usize
    requires released_len_bound { (length released.now ≤ bytes_room) × (length overlay.now ≤ bytes_room) }
    requires firsts_len { (length firsts.old ≡ runs_room) × (length counts.old ≡ runs_room) }
    requires text_room_in_bounds { text_room ≤ length out.old }
    ensures { Stands (answer_text load asked (trial overlay.now released.now offsets.now sizes.now)
        released_offsets.now released_sizes.now) out.old result out.new }
{
    match asked {
        Asked::Runs => {
            let alone = first_alone(
                released_offsets,
                released_sizes,
                offsets,
                sizes,
                overlay.len() as u64,
            );
            put_list(
                load, released, overlay, offsets, sizes, alone, firsts, counts, out,
            )
        }
        Asked::Range(address, count) => {
            put_range(
                load,
                address,
                count,
                released,
                overlay,
                released_offsets,
                released_sizes,
                offsets,
                sizes,
                out,
            )
        }
    }
}

// The same of the rooms for bytes: each image is the front of one.
fn put_images<'a>(
    asked: Asked,
    load: u32,
    released: &'a [u8],
    released_offsets: &[u64],
    released_sizes: &[u64],
    overlay: &'a [u8],
    offsets: &[u64],
    sizes: &[u64],
    firsts: &mut [u64],
    counts: &mut [u64],
    out: &mut [u8],
) -> usize
    requires released_len { (length released.now ≡ bytes_room) × (length overlay.now ≡ bytes_room) }
    requires released_offsets_len { (length released_offsets.now ≡ length released_sizes.now) × (length offsets.now ≡ length sizes.now) }
    requires firsts_len { (length firsts.old ≡ runs_room) × (length counts.old ≡ runs_room) }
    requires text_room_in_bounds { text_room ≤ length out.old }
    ensures { Stands (images_text load asked released.now released_offsets.now released_sizes.now
        overlay.now offsets.now sizes.now) out.old result out.new }
{
    let n = extent(released_offsets, released_sizes, released);
    let m = extent(offsets, sizes, overlay);
    put_answer(
        asked,
        load,
        &released[..n],
        released_offsets,
        released_sizes,
        &overlay[..m],
        offsets,
        sizes,
        firsts,
        counts,
        out,
    )
}

// What a file gives, in what is lent. One that is too long is refused as it is, and not read.
fn load_file(
    load: u32,
    source: &[u8],
    bytes: &mut [u8],
    offsets: &mut [u64],
    sizes: &mut [u64],
) -> Result<u64, Refusal>
    requires bytes_len { length bytes.old ≡ bytes_room }
    requires offsets_len { (length offsets.old ≡ blocks_room) × (length sizes.old ≡ blocks_room) }
    ensures { Loads (file_of load bytes.old source.now) result bytes.new offsets.new sizes.new }
{
    if source.len() >= SOURCE {
        return Err(Refusal::Malformed(0));
    }
    let mut scratch = [0u8; SCRATCH];
    record_read::read(0, source, load, bytes, offsets, sizes, &mut scratch)
}

// The line at fault, if there is one.
fn put_fault(load: u32, source: &[u8], at: usize, out: &mut [u8]) -> usize
    requires { at + 32 ≤ length out.old }
    ensures writes { Writes (fault_in load source.now) out.old at result out.new }
    ensures upper_bound { result ≤ at + 32 }
{
    if source.len() >= SOURCE {
        return at;
    }
    let mut scratch = [0u8; SCRATCH];
    let fault = record_scan::line_at_fault(0, source, load, &mut scratch);
    match fault {
        None => at,
        Some(line) => {
            let numbers = [line];
            print_text::write_line(out, at, b"line", &numbers)
        }
    }
}

// The refusal of a file, with its name and the line at fault.
fn put_unread(why: Refusal, name: &[u8], load: u32, source: &[u8], out: &mut [u8]) -> usize
    requires name_len_bound { length name.now ≤ 9 }
    requires text_room_in_bounds { text_room ≤ length out.old }
    ensures { Stands (unread_text name.now why (fault_in load source.now)) out.old result out.new }
{
    let a = print_text::write_refusal(out, 0, why);
    let b = print_text::write_word(out, a, name);
    put_fault(load, source, b, out)
}

// The whole text, where the overlay was read: the room for the released file's bytes begins as a copy of the overlay's, so that where the released file gives
// no byte none differs.
fn put_released(
    asked: Asked,
    load: u32,
    source: &[u8],
    released: &mut [u8],
    released_offsets: &mut [u64],
    released_sizes: &mut [u64],
    overlay: &[u8],
    offsets: &[u64],
    sizes: &[u64],
    firsts: &mut [u64],
    counts: &mut [u64],
    out: &mut [u8],
) -> usize
    requires released_len { (length released.old ≡ bytes_room) × (length overlay.now ≡ bytes_room) }
    requires released_offsets_len { (length released_offsets.old ≡ blocks_room) × (length released_sizes.old ≡ blocks_room) }
    requires offsets_len { length offsets.now ≡ length sizes.now }
    requires firsts_len { (length firsts.old ≡ runs_room) × (length counts.old ≡ runs_room) }
    requires text_room_in_bounds { text_room ≤ length out.old }
    ensures { Stands (released_text load asked overlay.now offsets.now sizes.now source.now)
        out.old result out.new }
{
    print_text::write_word(released, 0, overlay);
    let found = load_file(load, source, released, released_offsets, released_sizes);
    match found {
        Err(why) => put_unread(why, b"released\n", load, source, out),
        Ok(count) => {
            let n = count as usize;
            put_images(
                asked,
                load,
                released,
                &released_offsets[..n],
                &released_sizes[..n],
                overlay,
                offsets,
                sizes,
                firsts,
                counts,
                out,
            )
        }
    }
}

// What is asked: every run, or a range.
fn asked_of(all: bool, address: u32, count: u32) -> Asked
    ensures { result ≡ pick all Runs (Range address count) }
{
    if all {
        return Asked::Runs;
    }
    Asked::Range(address, count)
}

// The whole text of the bytes of the two files. The overlay is read first.
fn put_files(
    asked: Asked,
    load: u32,
    released_file: &[u8],
    overlay_file: &[u8],
    released: &mut [u8],
    released_offsets: &mut [u64],
    released_sizes: &mut [u64],
    overlay: &mut [u8],
    offsets: &mut [u64],
    sizes: &mut [u64],
    firsts: &mut [u64],
    counts: &mut [u64],
    out: &mut [u8],
) -> usize
    requires released_len { (length released.old ≡ bytes_room) × (length overlay.old ≡ bytes_room) }
    requires released_offsets_len { (length released_offsets.old ≡ blocks_room) × (length released_sizes.old ≡ blocks_room) }
    requires offsets_len { (length offsets.old ≡ blocks_room) × (length sizes.old ≡ blocks_room) }
    requires firsts_len { (length firsts.old ≡ runs_room) × (length counts.old ≡ runs_room) }
    requires text_room_in_bounds { text_room ≤ length out.old }
    ensures { Stands (bench_text load asked overlay.old released_file.now overlay_file.now) out.old result out.new }
{
    let found = load_file(load, overlay_file, overlay, offsets, sizes);
    match found {
        Err(why) => put_unread(why, b"overlay\n", load, overlay_file, out),
        Ok(count) => {
            let k = count as usize;
            put_released(
                asked,
                load,
                released_file,
                released,
                released_offsets,
                released_sizes,
                overlay,
                &offsets[..k],
                &sizes[..k],
                firsts,
                counts,
                out,
            )
        }
    }
}

// The whole text, at the front of `out`: how many bytes it is. All runs are asked for, or else a range by its address and its count of bytes. The arrays go by
// reference, with their lengths, so that there is always room, and are not looked at one by one.
pub fn put_bench(
    all: bool,
    address: u32,
    count: u32,
    load: u32,
    released_file: &[u8],
    overlay_file: &[u8],
    released: &mut [u8; BYTES],
    released_offsets: &mut [u64; BLOCKS],
    released_sizes: &mut [u64; BLOCKS],
    overlay: &mut [u8; BYTES],
    offsets: &mut [u64; BLOCKS],
    sizes: &mut [u64; BLOCKS],
    firsts: &mut [u64; RUNS],
    counts: &mut [u64; RUNS],
    out: &mut [u8; TEXT],
) -> usize
    ensures { Benches load all address count overlay.old released_file.now overlay_file.now out.old result
        out.new }
{
    let asked = asked_of(all, address, count);
    put_files(
        asked,
        load,
        released_file,
        overlay_file,
        released,
        released_offsets,
        released_sizes,
        overlay,
        offsets,
        sizes,
        firsts,
        counts,
        out,
    )
}

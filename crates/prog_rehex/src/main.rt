// The program behind tools/rehex: reads a file of records from standard input and writes its bytes as records of the kind that is asked for.
//
//     prog_rehex KIND FORMAT LOAD    KIND 0 reads Intel HEX, 1 S-records; FORMAT 0 writes Intel HEX, 2 and 4 S-records of that address width
//
// LOAD is the lowest address at which the file may give bytes. A refusal is one line on standard output, `refused` with its number and place, and where a
// line of the file is at fault one more with its number, from 0.
#![tactic(auto)]

ghost use Rattle.std.specs.Prelude.{◌≡◌, ◌≤◌, length, take};
ghost use Rattle.print_rehex.specs.Rehex.{bytes_room, blocks_room};
ghost use Rattle.print_rehex.specs.Steps.{text_room};
ghost use Rattle.says.specs.Lines.{Shows};
ghost use Rattle.says.specs.Texts.{RehexText};

use prog_asked::choice;

// The longest file that is read, and a byte more, so that nothing is cut to a sound file.
const SOURCE: usize = 3_276_801;

// How many bytes from the load address on a file may give, in how many blocks.
const BYTES: usize = 1_048_576;

const BLOCKS: usize = 4_096;

// Room for those bytes as records of 16 in the longest kind, and for a short record more in each block and 64 KiB line.
const TEXT: usize = 3_145_728;

// How many bytes were read, and how many handed on.
#[derive(Clone, Copy)]
pub struct Ran {
    read: usize,
    shown: usize,
}

// The text of a file, handed to standard output from the front of `out`: how many bytes it is.
fn write(
    rt: &impl Print,
    kind: u8,
    format: u8,
    load: u32,
    source: &[u8],
    bytes: &mut [u8],
    offsets: &mut [u64],
    sizes: &mut [u64],
    out: &mut [u8],
) -> usize
    requires bytes_len { length bytes.old ≡ bytes_room }
    requires offsets_len { length offsets.old ≡ blocks_room }
    requires sizes_len { length sizes.old ≡ blocks_room }
    requires text_room_in_bounds { text_room ≤ length out.old }
    ensures { Shows (RehexText kind format load source.now) result out.new }
{
    let count = print_rehex::put_file(kind, format, load, source, bytes, offsets, sizes, out);
    prog_args::print(rt, out, count as u64)
}

// Reads a file and hands its text to standard output.
fn run(
    rt: &(impl Input + Print),
    kind: u8,
    format: u8,
    load: u32,
    source: &mut [u8],
    bytes: &mut [u8],
    offsets: &mut [u64],
    sizes: &mut [u64],
    out: &mut [u8],
) -> Ran
    requires bytes_len { length bytes.old ≡ bytes_room }
    requires offsets_len { length offsets.old ≡ blocks_room }
    requires sizes_len { length sizes.old ≡ blocks_room }
    requires text_room_in_bounds { text_room ≤ length out.old }
    ensures { Shows (RehexText kind format load (take result.read source.new)) result.shown out.new }
{
    let read = prog_args::read_full(&mut rt.reader(), source);
    let shown = write(
        rt,
        kind,
        format,
        load,
        &source[..read],
        bytes,
        offsets,
        sizes,
        out,
    );
    Ran { read, shown }
}

// The arrays go by reference, with their lengths, and are not looked at one by one.
fn start(
    rt: &(impl Input + Print),
    kind: u8,
    format: u8,
    load: u32,
    source: &mut [u8; SOURCE],
    bytes: &mut [u8; BYTES],
    offsets: &mut [u64; BLOCKS],
    sizes: &mut [u64; BLOCKS],
    out: &mut [u8; TEXT],
) -> Ran
    ensures { Shows (RehexText kind format load (take result.read source.new)) result.shown out.new }
{
    run(rt, kind, format, load, source, bytes, offsets, sizes, out)
}

fn main(rt: HostRuntime) {
    let count = prog_args::arg_count(&rt, 5);
    if count > 4 {
        return;
    }
    let Some(kind) = prog_args::number_at(&rt, 1) else {
        return;
    };
    let Some(format) = prog_args::number_at(&rt, 2) else {
        return;
    };
    let Some(load) = prog_args::number_at(&rt, 3) else {
        return;
    };
    let mut source = [0u8; SOURCE];
    let mut bytes = [0u8; BYTES];
    let mut offsets = [0u64; BLOCKS];
    let mut sizes = [0u64; BLOCKS];
    let mut out = [0u8; TEXT];
    start(
        &rt,
        choice(kind),
        choice(format),
        load,
        &mut source,
        &mut bytes,
        &mut offsets,
        &mut sizes,
        &mut out,
    );
}

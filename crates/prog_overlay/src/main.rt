// The program behind tools/bench: a released image and an overlay under trial, each an Intel HEX file.
//
//     prog_overlay RELEASED OVERLAY LOAD                  a line for each run of bytes that the overlay changes, `run ADDRESS COUNT` and the bytes of
//                                                         both, in hex; a line `alone ADDRESS` with the first byte that only the overlay gives, if there
//                                                         is one; last `runs` and their number
//     prog_overlay RELEASED OVERLAY LOAD ADDRESS COUNT    `overlay` or `released`, whichever the range comes from, and its bytes
//
// A file's image goes from the load address to the end of its last block, and no byte is shown that a file does not give. A refusal is one line, `refused` with
// its number and place. Where a file was refused, one more says which, and one more the line at fault, from 0, if there is one; where a range was, one more
// says which file does not give which address of it.
#![tactic(auto)]

ghost use Rattle.std.specs.Prelude.{◌≡◌, None, take};
ghost use Rattle.std.specs.Str.{IsUtf8};
ghost use Rattle.says.specs.Bench.{BenchSays};
ghost use Rattle.says.specs.Lines.{Shows};

use std::fs::File;
use std::io::Read;
use std::rt::Files;

// The longest file that is read, and a byte more, so that nothing is cut to a sound file.
const SOURCE: usize = 1_048_577;

// How many bytes from the load address on a file may give, in how many blocks, and how many runs are listed.
const BYTES: usize = 524_288;

const BLOCKS: usize = 4_096;

const RUNS: usize = 65_536;

// Room for the longest list.
const TEXT: usize = 3_801_600;

// The longest name of a file.
const PATH: usize = 4_096;

// How many bytes were read of the released file, `old`, and of the overlay's, `new`, and how many handed on.
#[derive(Clone, Copy)]
pub struct Ran {
    old: usize,
    new: usize,
    shown: usize,
}

// The text of two files, handed to standard output from the front of `out`: how many bytes it is.
fn write(
    rt: &impl Print,
    all: bool,
    at: u32,
    count: u32,
    load: u32,
    old: &[u8],
    new: &[u8],
    released: &mut [u8; BYTES],
    released_offsets: &mut [u64; BLOCKS],
    released_sizes: &mut [u64; BLOCKS],
    overlay: &mut [u8; BYTES],
    offsets: &mut [u64; BLOCKS],
    sizes: &mut [u64; BLOCKS],
    firsts: &mut [u64; RUNS],
    counts: &mut [u64; RUNS],
    out: &mut [u8; TEXT],
) -> usize
    ensures { Shows (BenchSays load all at count old.now new.now) result out.new }
{
    let end = print_bench::put_bench(
        all,
        at,
        count,
        load,
        old,
        new,
        released,
        released_offsets,
        released_sizes,
        overlay,
        offsets,
        sizes,
        firsts,
        counts,
        out,
    );
    prog_args::print(rt, out, end as u64)
}

// Reads both files, the overlay first, and hands their text to standard output.
fn run<F: Read>(
    rt: &impl Print,
    all: bool,
    at: u32,
    count: u32,
    load: u32,
    old_from: &mut F,
    new_from: &mut F,
    old: &mut [u8],
    new: &mut [u8],
    released: &mut [u8; BYTES],
    released_offsets: &mut [u64; BLOCKS],
    released_sizes: &mut [u64; BLOCKS],
    overlay: &mut [u8; BYTES],
    offsets: &mut [u64; BLOCKS],
    sizes: &mut [u64; BLOCKS],
    firsts: &mut [u64; RUNS],
    counts: &mut [u64; RUNS],
    out: &mut [u8; TEXT],
) -> Ran
    ensures { Shows (BenchSays load all at count (take result.old old.new) (take result.new new.new)) result.shown out.new }
{
    let n = prog_args::read_full(new_from, new);
    let m = prog_args::read_full(old_from, old);
    let shown = write(
        rt,
        all,
        at,
        count,
        load,
        &old[..m],
        &new[..n],
        released,
        released_offsets,
        released_sizes,
        overlay,
        offsets,
        sizes,
        firsts,
        counts,
        out,
    );
    Ran {
        old: m,
        new: n,
        shown,
    }
}

// The arrays go by reference, with their lengths, and are not looked at one by one.
fn start<F: Read>(
    rt: &impl Print,
    all: bool,
    at: u32,
    count: u32,
    load: u32,
    old_from: &mut F,
    new_from: &mut F,
    old: &mut [u8; SOURCE],
    new: &mut [u8; SOURCE],
    released: &mut [u8; BYTES],
    released_offsets: &mut [u64; BLOCKS],
    released_sizes: &mut [u64; BLOCKS],
    overlay: &mut [u8; BYTES],
    offsets: &mut [u64; BLOCKS],
    sizes: &mut [u64; BLOCKS],
    firsts: &mut [u64; RUNS],
    counts: &mut [u64; RUNS],
    out: &mut [u8; TEXT],
) -> Ran
    ensures { Shows (BenchSays load all at count (take result.old old.new) (take result.new new.new)) result.shown out.new }
{
    run(
        rt,
        all,
        at,
        count,
        load,
        old_from,
        new_from,
        old,
        new,
        released,
        released_offsets,
        released_sizes,
        overlay,
        offsets,
        sizes,
        firsts,
        counts,
        out,
    )
}

// The file of a name, opened for reading; where it cannot be, a line on standard error says why. A name that is not UTF-8 opens nothing.
fn open<R: Files + Eprint>(rt: &R, name: &[u8]) -> Option<R::File>
    ensures { (IsUtf8 name.now → ⊥) → result ≡ None }
{
    let Ok(path) = std::str::from_utf8(name) else {
        let _ = eprintln!(rt; "the name of a file is not UTF-8");
        return None;
    };
    match File::open(rt, path) {
        Ok(file) => Some(file),
        Err(e) => {
            let _ = eprintln!(rt; "{path}: {e}");
            None
        }
    }
}

fn main(rt: HostRuntime) {
    let Some(load) = prog_args::number_at(&rt, 3) else {
        return;
    };
    let all = prog_args::arg_count(&rt, 5) == 4;
    let mut at = 0;
    let mut count = 0;
    if !all {
        let Some(first) = prog_args::number_at(&rt, 4) else {
            return;
        };
        let Some(n) = prog_args::number_at(&rt, 5) else {
            return;
        };
        at = first;
        count = n;
    }
    let mut path = [0u8; PATH];
    let n = prog_args::arg(&rt, 1, &mut path);
    let Some(mut old_from) = open(&rt, &path[..n]) else {
        return;
    };
    let m = prog_args::arg(&rt, 2, &mut path);
    let Some(mut new_from) = open(&rt, &path[..m]) else {
        return;
    };
    let mut old = [0u8; SOURCE];
    let mut new = [0u8; SOURCE];
    let mut released = [255u8; BYTES];
    let mut released_offsets = [0u64; BLOCKS];
    let mut released_sizes = [0u64; BLOCKS];
    let mut overlay = [255u8; BYTES];
    let mut offsets = [0u64; BLOCKS];
    let mut sizes = [0u64; BLOCKS];
    let mut firsts = [0u64; RUNS];
    let mut counts = [0u64; RUNS];
    let mut out = [0u8; TEXT];
    start(
        &rt,
        all,
        at,
        count,
        load,
        &mut old_from,
        &mut new_from,
        &mut old,
        &mut new,
        &mut released,
        &mut released_offsets,
        &mut released_sizes,
        &mut overlay,
        &mut offsets,
        &mut sizes,
        &mut firsts,
        &mut counts,
        &mut out,
    );
}

// The program behind the words for a bad file of records: reads the file from standard input and writes which line is at fault, and why.
//
//     prog_reason KIND LOAD    KIND 0 reads Intel HEX, 1 S-records; LOAD is the lowest address at which the file may give bytes
//
// One line on standard output: `reason`, the reason (include/denkumari.h), 0 for a good file, the line, from 0, and the reason's two numbers. A file that is
// longer than the longest is `refused 4 0`.
#![tactic(auto)]

ghost use Rattle.std.specs.Prelude.{◌≤◌, length, take};
ghost use Rattle.prog_args.specs.Text.{line_room, Stands};
ghost use Rattle.meets_texts.specs.Printed.{reason_text};
ghost use Rattle.says.specs.Lines.{Shows};
ghost use Rattle.says.specs.Texts.{ReasonText};

use prelude::Refusal;
use prog_asked::choice;

// The longest file that tools/rehex and tools/bench read, and a byte more, so that nothing is cut to a sound file.
const SOURCE: usize = 3_276_801;

// Marks for half a million addresses, by which records in any order are held against each other quickly.
const SCRATCH: usize = 65_536;

// How many bytes were read, and how many handed on.
#[derive(Clone, Copy)]
pub struct Ran {
    read: usize,
    shown: usize,
}

// The line for a file, put at the front of a buffer that holds every such line: how long it is.
fn put(kind: u8, load: u32, source: &[u8], out: &mut [u8]) -> usize
    requires { line_room ≤ length out.old }
    ensures { Stands (reason_text kind load source.now) out.old result out.new }
{
    if source.len() >= SOURCE {
        return prog_args::put_refusal(Refusal::Malformed(0), out);
    }
    let mut scratch = [0u8; SCRATCH];
    let w = record_reason::reason_of(kind, source, load, &mut scratch);
    let numbers = [w.reason, w.line, w.first, w.second];
    print_text::write_line(out, 0, b"reason", &numbers)
}

// The line for a file, handed to standard output from the front of `out`: how many bytes it is.
fn write(rt: &impl Print, kind: u8, load: u32, source: &[u8], out: &mut [u8]) -> usize
    requires { line_room ≤ length out.old }
    ensures { Shows (ReasonText kind load source.now) result out.new }
{
    let count = put(kind, load, source, out);
    prog_args::print(rt, out, count as u64)
}

// Reads a file and hands its line to standard output.
fn run(rt: &(impl Input + Print), kind: u8, load: u32, source: &mut [u8], out: &mut [u8]) -> Ran
    requires { line_room ≤ length out.old }
    ensures { Shows (ReasonText kind load (take result.read source.new)) result.shown out.new }
{
    let read = prog_args::read_full(&mut rt.reader(), source);
    let shown = write(rt, kind, load, &source[..read], out);
    Ran { read, shown }
}

// The arrays go by reference, with their lengths, and are not looked at one by one.
fn start(
    rt: &(impl Input + Print),
    kind: u8,
    load: u32,
    source: &mut [u8; SOURCE],
    out: &mut [u8; 128],
) -> Ran
    ensures { Shows (ReasonText kind load (take result.read source.new)) result.shown out.new }
{
    run(rt, kind, load, source, out)
}

fn main(rt: HostRuntime) {
    let count = prog_args::arg_count(&rt, 4);
    if count > 3 {
        return;
    }
    let Some(kind) = prog_args::number_at(&rt, 1) else {
        return;
    };
    let Some(load) = prog_args::number_at(&rt, 2) else {
        return;
    };
    let mut source = [0u8; SOURCE];
    let mut out = [0u8; 128];
    start(&rt, choice(kind), load, &mut source, &mut out);
}

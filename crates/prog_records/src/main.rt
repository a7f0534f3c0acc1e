// The program behind tools/ihex and tools/srec: lays out a file from standard input and writes its image for the flash station.
//
//     prog_records FORMAT LOAD WHOLE FILL [PAGE]
//
// FORMAT 0 writes Intel HEX, 2 and 4 write S-records of that address width; LOAD is the address of the image's first byte. WHOLE 0 writes the blocks, 1 the
// whole image with its fill. FILL is the fill's choice, and PAGE the page size in bits of a device with pages. It writes nothing where an argument is no
// number or there are more or fewer. A refusal is one line on standard output, `refused` with its number and place, and a line `records` behind it
// where the layout was accepted and its blocks were not written.
#![tactic(auto)]

ghost use Rattle.std.specs.Prelude.{◌≤◌, length, take};
ghost use Rattle.print_records.specs.Steps.{text_room};
ghost use Rattle.says.specs.Lines.{Shows};
ghost use Rattle.says.specs.RecordsText.{RecordsSay};

use print_records::Wanted;
use prog_asked::choice;

// Room for the longest file and a byte more, so that none is cut to a sound one.
const FILE: usize = 65_537;

// Room for the image as records, a short one in each block.
const TEXT: usize = 131_072;

// How many bytes were read, and how many handed on.
#[derive(Clone, Copy)]
pub struct Ran {
    read: usize,
    shown: usize,
}

// The text of a file, put at the front of `out`: how many bytes it is.
pub fn put_file(wanted: Wanted, file: &[u8], fill: u8, page: Option<u32>, out: &mut [u8]) -> usize
    requires { text_room ≤ length out.old }
    ensures { Shows (RecordsSay wanted.format wanted.load wanted.whole file.now fill page) result out.new }
{
    print_records::put_file(wanted, file, fill, page, out)
}

// The same, handed to standard output.
fn write(
    rt: &impl Print,
    wanted: Wanted,
    file: &[u8],
    fill: u8,
    page: Option<u32>,
    out: &mut [u8],
) -> usize
    requires { text_room ≤ length out.old }
    ensures { Shows (RecordsSay wanted.format wanted.load wanted.whole file.now fill page) result out.new }
{
    let count = put_file(wanted, file, fill, page, out);
    prog_args::print(rt, out, count as u64)
}

// Reads a file into the room lent for it and hands the text of these bytes to standard output.
fn run(
    rt: &(impl Input + Print),
    wanted: Wanted,
    fill: u8,
    page: Option<u32>,
    file: &mut [u8],
    out: &mut [u8],
) -> Ran
    requires { text_room ≤ length out.old }
    ensures { Shows (RecordsSay wanted.format wanted.load wanted.whole (take result.read file.new) fill page)
        result.shown out.new }
{
    let read = prog_args::read_full(&mut rt.reader(), file);
    let shown = write(rt, wanted, &file[..read], fill, page, out);
    Ran { read, shown }
}

fn main(rt: HostRuntime) {
    let count = prog_args::arg_count(&rt, 7);
    if count > 6 {
        return;
    }
    let Some(format) = prog_args::number_at(&rt, 1) else {
        return;
    };
    let Some(load) = prog_args::number_at(&rt, 2) else {
        return;
    };
    let Some(whole) = prog_args::number_at(&rt, 3) else {
        return;
    };
    let Some(fill) = prog_args::number_at(&rt, 4) else {
        return;
    };
    if whole > 1 {
        return;
    }
    let wanted = Wanted {
        format: choice(format),
        load,
        whole: whole == 1,
    };
    let mut file = [0u8; FILE];
    let mut text = [0u8; TEXT];
    if count < 6 {
        run(&rt, wanted, choice(fill), None, &mut file, &mut text);
        return;
    }
    let page = prog_args::number_at(&rt, 5);
    if let Some(_) = page {
        run(&rt, wanted, choice(fill), page, &mut file, &mut text);
    }
}

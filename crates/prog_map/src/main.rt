// The program behind tools/map: the map of a layout file of either form from standard input, one record a line.
//
//     prog_map [FILL [PAGE]]    FILL is the fill's choice, 0 where it is not given; PAGE the page size in bits of a device with pages
//
// It writes nothing where an argument is no number, or where there are more.
#![tactic(auto)]

ghost use Rattle.std.specs.Prelude.{take};
ghost use Rattle.says.specs.Lines.{Shows};
ghost use Rattle.says.specs.MapText.{MapText};

use prog_asked::Asked;

// Room for the longest file and a byte more, so that none is cut to a sound one.
const FILE: usize = 65_537;

// Room for any map's text.
const TEXT: usize = 663_552;

// How many bytes were read, and how many handed on.
#[derive(Clone, Copy)]
pub struct Ran {
    read: usize,
    shown: usize,
}

// The map's text of a file, handed to standard output from the front of `text`, which has room for any: how many bytes it is.
fn write(rt: &impl Print, file: &[u8], fill: u8, page: Option<u32>, text: &mut [u8; TEXT]) -> usize
    ensures { Shows (MapText file.now fill page) result text.new }
{
    let end = print_map::write_map(file, fill, page, text);
    prog_args::print(rt, text, end as u64)
}

// Reads a file into the room lent for it and hands the map's text of these bytes to standard output.
fn run(
    rt: &(impl Input + Print),
    fill: u8,
    page: Option<u32>,
    file: &mut [u8],
    text: &mut [u8; TEXT],
) -> Ran
    ensures { Shows (MapText (take result.read file.new) fill page) result.shown text.new }
{
    let read = prog_args::read_full(&mut rt.reader(), file);
    let shown = write(rt, &file[..read], fill, page, text);
    Ran { read, shown }
}

fn main(rt: HostRuntime) {
    if let Some(Asked { fill, page }) = prog_asked::layout_asked(&rt) {
        let mut file = [0u8; FILE];
        let mut text = [0u8; TEXT];
        run(&rt, fill, page, &mut file, &mut text);
    }
}

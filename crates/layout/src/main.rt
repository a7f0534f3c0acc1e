// The program: reads a file of either form from standard input and writes what the report has of it.
//
//     layout [FILL [PAGE]]    FILL is the fill's choice, 0 where it is not given; PAGE the page size in bits of a device with pages
//
// It writes nothing where an argument is no number, or where there are more.
#![tactic(auto)]

ghost use Rattle.std.specs.Prelude.{◌≤◌, length, take};
ghost use Rattle.print_report.specs.Room.{report_room};
ghost use Rattle.says.specs.Lines.{Shows};
ghost use Rattle.says.specs.Report.{ReportSays};

use prog_asked::Asked;

// Room for the longest file and a byte more, so that none is cut to a sound one.
const FILE: usize = 65_537;

// Room for the longest report.
const TEXT: usize = 163_840;

// How many bytes were read, and how many handed on.
#[derive(Clone, Copy)]
pub struct Ran {
    read: usize,
    shown: usize,
}

// The report of a file, put at the front of `text`: how many bytes it is. There is room, so that the text is never too short.
pub fn put_file(file: &[u8], fill: u8, page: Option<u32>, text: &mut [u8]) -> usize
    requires { report_room ≤ length text.old }
    ensures { Shows (ReportSays file.now fill page) result text.new }
{
    let Some(end) = print_report::report(file, fill, page, text) else {
        return 0;
    };
    end
}

// The same, handed to standard output.
fn write(rt: &impl Print, file: &[u8], fill: u8, page: Option<u32>, text: &mut [u8]) -> usize
    requires { report_room ≤ length text.old }
    ensures { Shows (ReportSays file.now fill page) result text.new }
{
    let count = put_file(file, fill, page, text);
    prog_args::print(rt, text, count as u64)
}

// Reads a file into the room lent for it and hands the report of these bytes to standard output.
fn run(
    rt: &(impl Input + Print),
    fill: u8,
    page: Option<u32>,
    file: &mut [u8],
    text: &mut [u8],
) -> Ran
    requires { report_room ≤ length text.old }
    ensures { Shows (ReportSays (take result.read file.new) fill page) result.shown text.new }
{
    let read = prog_args::read_full(&mut rt.reader(), file);
    let shown = write(rt, &file[..read], fill, page, text);
    Ran { read, shown }
}

fn main(rt: HostRuntime) {
    if let Some(Asked { fill, page }) = prog_asked::layout_asked(&rt) {
        let mut file = [0u8; FILE];
        let mut text = [0u8; TEXT];
        run(&rt, fill, page, &mut file, &mut text);
    }
}

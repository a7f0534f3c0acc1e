// The program behind tools/convert: a layout file from standard input, in the other form.
//
//     prog_convert FORM    FORM is the form that is written, 1 or 2
//
// A refusal is one line on standard output, `refused` with its number and place.
#![tactic(auto)]

ghost use Rattle.std.specs.Prelude.{◌≡◌, ◌≤◌, length, take};
ghost use Rattle.prog_args.specs.Text.{Shows as Holds};
ghost use Rattle.meets_texts.specs.Printed.{file_room, form1_text, form2_text};
ghost use Rattle.says.specs.Lines.{Shows};
ghost use Rattle.says.specs.Texts.{ConvertText};
ghost use Rattle.prog_convert.specs.Program.{Handed};
ghost use Rattle.prog_convert.specs.Room.{Held};

use prelude::Refusal;

// Room for the longest file and a byte more, so that none is cut to a sound one.
const FILE: usize = 65_537;

// How many bytes were read, and how many handed on.
#[derive(Clone, Copy)]
pub struct Ran {
    read: usize,
    shown: usize,
}

// Hands an answer on: the file that stands in the front of the buffer, or the refusal's line. How many bytes that is.
fn hand(rt: &impl Print, answer: Result<u64, Refusal>, out: &mut [u8]) -> usize
    requires { file_room ≤ length out.old }
    ensures { Handed answer out.old result out.new }
{
    match answer {
        Err(why) => {
            let end = print_text::write_refusal(out, 0, why);
            prog_args::print(rt, out, end as u64)
        }
        Ok(length) => prog_args::print(rt, out, length),
    }
}

// The file in form 1, handed to standard output from the front of `out`, or the line of a refusal: how many bytes. The buffer is never too short.
fn write_form1(rt: &impl Print, file: &[u8], out: &mut [u8]) -> usize
    requires { length out.old ≡ file_room }
    ensures { Holds (form1_text file.now) result out.new }
{
    let answer = form_convert::to_form1(file, out);
    hand(rt, answer, out)
}

// The same in form 2.
fn write_form2(rt: &impl Print, file: &[u8], out: &mut [u8]) -> usize
    requires { length out.old ≡ file_room }
    ensures { Holds (form2_text file.now) result out.new }
{
    let answer = form_convert::to_form2(file, out);
    hand(rt, answer, out)
}

fn write(rt: &impl Print, form: u32, file: &[u8], out: &mut [u8]) -> usize
    requires { length out.old ≡ file_room }
    ensures { Shows (ConvertText form file.now) result out.new }
{
    if form == 1 {
        return write_form1(rt, file, out);
    }
    write_form2(rt, file, out)
}

// Reads a file and hands it on in the form that is asked.
fn run(rt: &(impl Input + Print), form: u32, file: &mut [u8], out: &mut [u8]) -> Ran
    requires { length out.old ≡ file_room }
    ensures { Shows (ConvertText form (take result.read file.new)) result.shown out.new }
{
    let read = prog_args::read_full(&mut rt.reader(), file);
    let shown = write(rt, form, &file[..read], out);
    Ran { read, shown }
}

// The arrays go by reference, with their lengths, and are not looked at one by one.
fn start(rt: &(impl Input + Print), form: u32, file: &mut [u8; FILE], out: &mut [u8; FILE]) -> Ran
    ensures { Shows (ConvertText form (take result.read file.new)) result.shown out.new }
{
    run(rt, form, file, out)
}

fn main(rt: HostRuntime) {
    let Some(form) = prog_args::number_at(&rt, 1) else {
        return;
    };
    if form < 1 {
        return;
    }
    if form > 2 {
        return;
    }
    let mut file = [0u8; FILE];
    let mut out = [0u8; FILE];
    start(&rt, form, &mut file, &mut out);
}

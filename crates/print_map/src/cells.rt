// A line: a word, cells with a space before each, and LF. A cell is a number, a number below zero, or `-` for none: its mark is 0, 1 or 2.
ghost use Rattle.std.specs.Prelude.{◌≡◌, ◌+◌, ◌*◌, ◌≤◌, length};
ghost use Rattle.print_text.specs.Decimal.{decimal};
ghost use Rattle.print_text.specs.Puts.{Writes};
ghost use Rattle.print_map.specs.Cells.{cell_text};
ghost use Rattle.print_map.specs.Marks.{cell_of, cells_to, line_to};

use print_text::write_word;

// A number has 20 digits at most.
fn write_number(out: &mut [u8], at: usize, n: u64) -> usize
    requires { at + 20 ≤ length out.old }
    ensures writes { Writes (decimal n) out.old at result out.new }
    ensures upper_bound { result ≤ at + 20 }
{
    print_text::write_number(out, at, n)
}

fn write_minus(out: &mut [u8], at: usize, n: u64) -> usize
    requires { at + 21 ≤ length out.old }
    ensures writes { Writes (cell_text (cell_of 1 n)) out.old at result out.new }
    ensures upper_bound { result ≤ at + 21 }
{
    let digits = write_word(out, at, b"-");
    write_number(out, digits, n)
}

fn write_cell(out: &mut [u8], at: usize, mark: u8, n: u64) -> usize
    requires { at + 21 ≤ length out.old }
    ensures writes { Writes (cell_text (cell_of mark n)) out.old at result out.new }
    ensures upper_bound { result ≤ at + 21 }
{
    if mark == 1 {
        return write_minus(out, at, n);
    }
    if mark == 2 {
        return write_word(out, at, b"-");
    }
    write_number(out, at, n)
}

fn write_cells(out: &mut [u8], at: usize, marks: &[u8], numbers: &[u64]) -> usize
    requires marks_len { length marks.now ≡ length numbers.now }
    requires numbers_in_bounds { at + 22 * length numbers.now ≤ length out.old }
    ensures writes { Writes (cells_to marks.now numbers.now (length numbers.now)) out.old at result out.new }
    ensures upper_bound { result ≤ at + 22 * length numbers.now }
{
    let mut end = at;
    for (mark, number) in marks.iter().zip(numbers) {
        out[end] = b' ';
        end = write_cell(out, end + 1, *mark, *number);
    }
    end
}

pub(crate) fn write_line(
    out: &mut [u8],
    at: usize,
    word: &[u8],
    marks: &[u8],
    numbers: &[u64],
) -> usize
    requires marks_len { length marks.now ≡ length numbers.now }
    requires numbers_in_bounds { at + length word.now + 22 * length numbers.now + 1 ≤ length out.old }
    ensures writes { Writes (line_to word.now marks.now numbers.now) out.old at result out.new }
    ensures upper_bound { result ≤ at + length word.now + 22 * length numbers.now + 1 }
{
    let middle = write_word(out, at, word);
    let end = write_cells(out, middle, marks, numbers);
    write_word(out, end, b"\n")
}

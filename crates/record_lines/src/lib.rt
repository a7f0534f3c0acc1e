// What Intel HEX and S-records have in common: hex digits, lines, sums of bytes, and what a line of a file says.
#![tactic(auto)]

ghost use Rattle.std.specs.Prelude.{◌≡◌, ◌+◌, ◌*◌, ◌%◌, ◌<◌, ◌≤◌, min, ◌&&◌, length, drop, slice_index};
ghost use Rattle.record_lines.specs.Digits.{value_of, all_digits, pair_at, bytes_at};
ghost use Rattle.record_lines.specs.Sums.{sum_of};
ghost use Rattle.record_lines.specs.Items.{plain_line};
ghost use Rattle.record_lines.specs.Lines.{is_cr, lf_next};
ghost use Rattle.record_lines.specs.Cuts.{CutIs, end_width};
ghost use Rattle.record_lines.specs.Spelling.{Spells, checked_sum};

// What a line is: bad, with bytes, good without bytes, or the end record.
pub const BAD: u8 = 0;

pub const DATA: u8 = 1;

pub const PASS: u8 = 2;

pub const END: u8 = 3;

// A line that was read: its kind, the address of its first byte, where in the line its bytes are spelled, how many they are, and the
// state that is in force behind it.
#[derive(Clone, Copy)]
pub struct Line {
    pub kind: u8,
    pub address: u32,
    pub first: u16,
    pub count: u8,
    pub state: u16,
}

// Where a line's characters end, and where the next line begins.
#[derive(Clone, Copy)]
pub struct Cut {
    pub stop: usize,
    pub next: usize,
}

// A line with no bytes, of a kind.
pub fn plain(kind: u8, state: u16) -> Line
    ensures { result ≡ plain_line kind state }
{
    Line {
        kind,
        address: 0,
        first: 0,
        count: 0,
        state,
    }
}

// What a character stands for, in either case; 16 is no digit.
fn value(c: u8) -> u8
    ensures { (result ≡ value_of c) × (result < 17) }
{
    match c {
        b'0'..=b'9' => c - b'0',
        b'A'..=b'F' => c - b'A' + 10,
        b'a'..=b'f' => c - b'a' + 10,
        _ => 16,
    }
}

// The character at a place of a line; 0, which is no digit, past its end.
pub fn char_at(line: &[u8], i: u64) -> u8
    ensures { result ≡ slice_index line.now i }
{
    line.get(i as usize).copied().unwrap_or(0)
}

// What each character stands for, as a table: made once for a file.
pub fn digit_table() -> [u8; 256]
    ensures { Spells result }
{
    std::array::from_fn(|c| value(c as u8))
}

// A character's value by the table, if that spells the digits.
fn value_by(t: &[u8; 256], c: u8) -> u8
    ensures { Spells t.now → result ≡ value_of c }
{
    t[usize::from(c)]
}

// The byte that two characters spell, by a table that spells the digits.
pub fn pair_of(t: &[u8; 256], first: u8, second: u8) -> u8
    ensures { Spells t.now → result ≡ 16 * (value_of first % 16) + value_of second % 16 }
{
    let high = value_by(t, first);
    let low = value_by(t, second);
    16 * (high % 16) + low % 16
}

// The byte that the characters at i and behind it spell, by a table that spells the digits.
pub fn pair(line: &[u8], t: &[u8; 256], i: u32) -> u8
    ensures { Spells t.now → result ≡ pair_at line.now i }
{
    let at = u64::from(i);
    pair_of(t, char_at(line, at), char_at(line, at + 1))
}

// The same without a table, for a line that is looked at once.
pub fn byte_at(line: &[u8], i: u32) -> u8
    ensures { result ≡ pair_at line.now i }
{
    let at = u64::from(i);
    let high = value(char_at(line, at));
    let low = value(char_at(line, at + 1));
    16 * (high % 16) + low % 16
}

// Whether all characters from a place on are digits.
pub fn all_digits(line: &[u8], from: usize) -> bool
    ensures { result ≡ all_digits (drop from line.now) }
{
    line.iter().skip(from).all(|&c| value(c) < 16)
}

// The wrapping sum of the n bytes that a line spells from a place on, digits or not.
pub fn sum_pairs(line: &[u8], from: u16, n: u16) -> u8
    ensures { result ≡ sum_of (bytes_at line.now from n) % 256 }
{
    let start = u32::from(from);
    let count = u32::from(n);
    let mut sum = 0u8;
    // stays: bytes past the line's end are added too, so that no part of the line has them all
    for j in 0..count {
        sum = sum.wrapping_add(byte_at(line, start + 2 * j));
    }
    sum
}

// "Bytes of a record, checksum included, sum to zero and wrap at 256": the wrapping sum of the n bytes that the characters from a place to the end of
// the line spell, by a table that spells the digits; 256 where one of them is no digit, or the line has more characters or fewer.
pub fn sum_checked(line: &[u8], t: &[u8; 256], from: u16, n: u16) -> u32
    ensures { Spells t.now → result ≡ checked_sum line.now from n }
{
    let first = usize::from(from);
    if line.len() != first + 2 * usize::from(n) {
        return 256;
    }
    let mut sum = 0u8;
    for pair in line[first..].as_chunks::<2>().0 {
        let high = value_by(t, pair[0]);
        let low = value_by(t, pair[1]);
        if 15 < high {
            return 256;
        }
        if 15 < low {
            return 256;
        }
        sum = sum.wrapping_add(16 * high + low);
    }
    u32::from(sum)
}

// Whether CR LF stands at a place.
fn is_cr_lf(text: &[u8], i: usize) -> bool
    requires { i < length text.now }
    ensures { result ≡ (is_cr (slice_index text.now i) && lf_next (drop (i + 1) text.now)) }
{
    if text[i] != b'\r' {
        return false;
    }
    let next = i + 1;
    if text.len() <= next {
        return false;
    }
    text[next] == b'\n'
}

// The line at the front of a text.
fn front_line(text: &[u8]) -> Cut
    ensures cut { CutIs text.now 0 result }
    ensures upper_bound { (result.stop ≤ length text.now) × (result.next ≤ length text.now) }
{
    let Some(lf) = text.iter().position(|&c| c == b'\n') else {
        return Cut {
            stop: text.len(),
            next: text.len(),
        };
    };
    if 0 < lf && text[lf - 1] == b'\r' {
        return Cut {
            stop: lf - 1,
            next: lf + 1,
        };
    }
    Cut {
        stop: lf,
        next: lf + 1,
    }
}

// The line that begins at a place: "LF or CR LF" ends it, or the end of the text.
pub fn line_from(text: &[u8], at: usize) -> Cut
    ensures { CutIs text.now at result }
{
    if text.len() <= at {
        return Cut { stop: at, next: at };
    }
    let cut = front_line(&text[at..]);
    Cut {
        stop: at + cut.stop,
        next: at + cut.next,
    }
}

// How a line ends at a place: with the text, by LF, by CR LF, or not there.
pub const NO_END: u8 = 3;

// How many characters the end of a line takes that stands at a place.
pub fn end_at(text: &[u8], at: usize) -> u8
    ensures { result ≡ end_width (drop at text.now) }
{
    if text.len() <= at {
        return 0;
    }
    if text[at] == b'\n' {
        return 1;
    }
    if is_cr_lf(text, at) {
        return 2;
    }
    NO_END
}

// The lesser of two lengths.
pub fn least(a: usize, b: usize) -> usize
    ensures { result ≡ min a b }
{
    a.min(b)
}

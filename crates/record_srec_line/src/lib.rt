// One S-record, a line of text: what it says. No file is walked here.
#![tactic(auto)]

ghost use Rattle.std.specs.Prelude.{◌≡◌, true, ◌⊎◌, ◌+◌, ◌*◌, ◌^◌, ◌≤◌, ◌<◌, length};
ghost use Rattle.record_lines.specs.Digits.{pair_at};
ghost use Rattle.record_lines.specs.Items.{Says};
ghost use Rattle.record_lines.specs.Spelling.{Spells};
ghost use Rattle.record_srec_line.specs.Srec.{is_s, is_sound, agrees, count_of, address_of, data_line, end_line, header_line, typed};
ghost use Rattle.record_srec_line.specs.Srec.{srec_item, first_for, first_of};

use record_lines::{Line, plain};

fn is_s(c: u8) -> bool
    ensures { result ≡ is_s c }
{
    c == b'S' || c == b's'
}

// Whether a line is an S, pairs of digits, as many as its count says, and sums to 255.
fn is_sound(line: &[u8], t: &[u8; 256]) -> bool
    ensures { Spells t.now → result ≡ is_sound line.now }
{
    if line.len() < 4 {
        return false;
    }
    if !is_s(line[0]) {
        return false;
    }
    let count = u16::from(record_lines::pair(line, t, 2));
    record_lines::sum_checked(line, t, 2, count + 1) == 255
}

// Whether no width or this one is in force.
fn does_agree(state: u16, width: u16) -> bool
    ensures { result ≡ agrees state width }
{
    state == 0 || state == width
}

// One more than the last address of a width.
fn limit(width: u16) -> u64
    requires { (width ≡ 2) ⊎ (width ≡ 4) }
    ensures { result ≡ 256 ^ width }
{
    if width == 2 {
        return 65_536;
    }
    4_294_967_296
}

// A line that is read by a table of the digits, while a width is in force (0 for none).
#[derive(Clone, Copy)]
struct Reading<'a> {
    line: &'a [u8],
    t: &'a [u8; 256],
    state: u16,
}

impl Reading<'_> {
    fn byte(&self, i: u32) -> u32
        ensures { (Spells self.now.t.now → result ≡ pair_at self.now.line.now i) × (result < 256) }
    {
        u32::from(record_lines::pair(self.line, self.t, i))
    }

    // The address of an S1 record, 16 bits, and of an S3 record, 32 bits.
    fn address_of(&self, width: u16) -> u32
        requires { (width ≡ 2) ⊎ (width ≡ 4) }
        ensures { Spells self.now.t.now → result ≡ address_of width self.now.line.now }
    {
        let upper = self.byte(4) * 256 + self.byte(6);
        if width == 2 {
            return upper;
        }
        let lower = self.byte(8) * 256 + self.byte(10);
        upper * 65536 + lower
    }

    // S1 and S3.
    fn data_line(&self, width: u16) -> Line
        requires { (width ≡ 2) ⊎ (width ≡ 4) }
        ensures { Spells self.now.t.now → length self.now.line.now ≡ 4 + 2 * count_of self.now.line.now
            → Says self.now.line.now self.now.state (4 + 2 * width) result (data_line width self.now.state self.now.line.now) }
    {
        if !does_agree(self.state, width) {
            return plain(record_lines::BAD, self.state);
        }
        let count = u16::from(record_lines::pair(self.line, self.t, 2));
        if count <= width {
            return plain(record_lines::BAD, self.state);
        }
        let left = count - width - 1;
        let address = self.address_of(width);
        if u64::from(address) + u64::from(left) > limit(width) {
            return plain(record_lines::BAD, self.state);
        }
        Line {
            kind: record_lines::DATA,
            address,
            first: 4 + 2 * width,
            count: left as u8,
            state: width,
        }
    }

    // S9 and S7.
    fn end_line(&self, width: u16) -> Line
        requires { width ≤ 4 }
        ensures { Spells self.now.t.now → Says self.now.line.now self.now.state 0 result (end_line width self.now.state self.now.line.now) }
    {
        if !does_agree(self.state, width) {
            return plain(record_lines::BAD, self.state);
        }
        if u16::from(record_lines::pair(self.line, self.t, 2)) != width + 1 {
            return plain(record_lines::BAD, self.state);
        }
        plain(record_lines::END, self.state)
    }

    // S0: "A header record S0 is read and skipped."
    fn header_line(&self) -> Line
        ensures { Spells self.now.t.now → Says self.now.line.now self.now.state 0 result (header_line self.now.state self.now.line.now) }
    {
        if record_lines::pair(self.line, self.t, 2) < 3 {
            return plain(record_lines::BAD, self.state);
        }
        plain(record_lines::PASS, self.state)
    }

    // A sound line by its type's digit.
    fn typed_line(&self, digit: u8) -> Line
        ensures { Spells self.now.t.now → length self.now.line.now ≡ 4 + 2 * count_of self.now.line.now
            → Says self.now.line.now self.now.state (first_for digit) result (typed digit self.now.state self.now.line.now) }
    {
        match digit {
            b'0' => self.header_line(),
            b'1' => self.data_line(2),
            b'3' => self.data_line(4),
            b'7' => self.end_line(4),
            b'9' => self.end_line(2),
            _ => plain(record_lines::BAD, self.state),
        }
    }
}

// What a sound line says while a width is in force (0 for none). Of a line that is not sound nothing is told.
pub fn known_line(line: &[u8], t: &[u8; 256], state: u16) -> Line
    ensures { Spells t.now → is_sound line.now ≡ true
        → Says line.now state (first_of line.now) result (srec_item state line.now) }
{
    let digit = record_lines::char_at(line, 1);
    let reading = Reading { line, t, state };
    reading.typed_line(digit)
}

// What any line's characters say, without its end, by a table that spells the digits.
pub fn line_of(line: &[u8], t: &[u8; 256], state: u16) -> Line
    ensures { Spells t.now → Says line.now state (first_of line.now) result (srec_item state line.now) }
{
    if !is_sound(line, t) {
        return plain(record_lines::BAD, state);
    }
    known_line(line, t, state)
}

// A line at fault by itself: how it is spelled, and what its type asks for. Document 02, Tickets 1 and 12.
ghost use Rattle.std.specs.Prelude.{◌≡◌, ◌+◌, ◌-◌, ◌≤◌, ◌<◌, drop};
ghost use Rattle.record_lines.specs.Digits.{pair_at};
ghost use Rattle.record_ihex_line.specs.Format.{word_at};
ghost use Rattle.record_srec_line.specs.Srec.{agrees};
ghost use Rattle.record_reason.specs.Spelling.{leading, starts_by, wanted_of, sum_cause, spelled, spelled_by};
ghost use Rattle.record_reason.specs.Spelling.{fields_of, hex_typed, data_typed, end_typed, srec_typed, own_cause, start_by, many_by, top_by};

use crate::{Cause, NOTHING, made};

// A byte by its two digits, where they stand.
fn byte(line: &[u8], i: u32) -> u64
    ensures { (result ≡ pair_at line.now i) × (result < 256) }
{
    record_lines::byte_at(line, i) as u64
}

// Two bytes, the higher first.
fn word(line: &[u8], i: u16) -> u64
    ensures { (result ≡ word_at line.now i) × (result < 65536) }
{
    let at = i as u32;
    256 * byte(line, at) + byte(line, at + 2)
}

// The first character from a place on that is no digit.
fn first_other(line: &[u8], from: usize) -> usize
    ensures { result ≡ from + leading (drop from line.now) }
{
    from + line
        .iter()
        .skip(from)
        .take_while(|c| c.is_ascii_hexdigit())
        .count()
}

// Whether a line begins with its format's character: a colon, or S in either case.
fn starts(format: u8, line: &[u8]) -> bool
    ensures { result ≡ starts_by format line.now }
{
    let c = record_lines::char_at(line, 0);
    if format == 0 {
        return c == b':';
    }
    c == b'S' || c == b's'
}

// How the lines of a format are spelled: the character at which the digits begin, the count first; how many bytes stand between the count's and the
// checksum beside those that the count tells; the least count; and what the bytes sum to.
#[derive(Clone, Copy)]
struct Frame {
    from: u8,
    body: u8,
    fewest: u8,
    target: u8,
}

const HEX: Frame = Frame {
    from: 1,
    body: 4,
    fewest: 0,
    target: 0,
};

const SREC: Frame = Frame {
    from: 2,
    body: 0,
    fewest: 3,
    target: 255,
};

impl Frame {
    // The characters that a line should have: as its count says, and where that is not there those of the shortest record.
    fn wanted(self, line: &[u8]) -> u64
        ensures { result ≡ wanted_of self.from self.body self.fewest line.now }
    {
        let start = self.from as u64;
        let rest = self.body as u64 + 1;
        if (line.len() as u64) < start + 2 {
            return start + 2 * (rest + self.fewest as u64);
        }
        start + 2 * (rest + byte(line, self.from as u32))
    }

    // The checksum of a line whose length is right: what it is and what it should be.
    fn summed(self, line: &[u8]) -> Cause
        ensures { result ≡ sum_cause self.from self.body self.target line.now }
    {
        let from = self.from as u16;
        let n = self.body as u16 + record_lines::byte_at(line, self.from as u32) as u16;
        let sum = record_lines::sum_pairs(line, from, n + 1);
        if sum == self.target {
            return NOTHING;
        }
        let found = byte(line, self.from as u32 + 2 * (n as u32));
        let others = record_lines::sum_pairs(line, from, n) as u64;
        let right = (256 + self.target as u64 - others) % 256;
        made(crate::CHECKSUM, found, right)
    }

    // How a line is spelled: its first character, digits, length, count and checksum.
    fn spelling(self, line: &[u8], begun: bool) -> Cause
        ensures { result ≡ spelled begun self.from self.body self.fewest self.target line.now }
    {
        if !begun {
            return made(crate::NO_START, 0, 0);
        }
        let from = self.from as usize;
        if !record_lines::all_digits(line, from) {
            let place = first_other(line, from) as u64;
            return made(
                crate::NO_DIGIT,
                place,
                record_lines::char_at(line, place) as u64,
            );
        }
        let length = self.wanted(line);
        if line.len() as u64 != length {
            return made(crate::LENGTH, line.len() as u64, length);
        }
        let count = byte(line, self.from as u32);
        if count < self.fewest as u64 {
            return made(crate::COUNT, count, self.fewest as u64);
        }
        self.summed(line)
    }
}

// The same by its format.
fn spelling_in(format: u8, line: &[u8]) -> Cause
    ensures { result ≡ spelled_by format line.now }
{
    let begun = starts(format, line);
    if format == 0 {
        return HEX.spelling(line, begun);
    }
    SREC.spelling(line, begun)
}

// "Type 01 has count 0 and address field 0000, type 04 count 2 and address field 0000"
fn fields(line: &[u8], count: u64) -> Cause
    ensures { result ≡ fields_of count line.now }
{
    let found = byte(line, 1);
    if found != count {
        return made(crate::COUNT, found, count);
    }
    made(crate::FIELD, word(line, 3), 0)
}

// "types 00, 01 and 04"
fn hex_type(line: &[u8]) -> Cause
    ensures { result ≡ hex_typed line.now }
{
    match byte(line, 7) {
        0 => NOTHING,
        1 => fields(line, 0),
        4 => fields(line, 2),
        kind => made(crate::TYPE, kind, 0),
    }
}

// Whether no width or this one is in force.
fn does_agree(state: u16, width: u64) -> bool
    ensures { result ≡ agrees state width }
{
    state == 0 || state as u64 == width
}

// S1 and S3.
fn data_type(line: &[u8], width: u8, state: u16) -> Cause
    ensures { result ≡ data_typed width state line.now }
{
    let w = width as u64;
    if !does_agree(state, w) {
        return made(crate::WIDTH, w, state as u64);
    }
    let count = byte(line, 2);
    if count <= w {
        return made(crate::COUNT, count, w + 1);
    }
    NOTHING
}

// S9 and S7.
fn end_type(line: &[u8], width: u8, state: u16) -> Cause
    ensures { result ≡ end_typed width state line.now }
{
    let w = width as u64;
    if !does_agree(state, w) {
        return made(crate::WIDTH, w, state as u64);
    }
    made(crate::COUNT, byte(line, 2), w + 1)
}

// By its type's digit.
fn srec_type(line: &[u8], state: u16) -> Cause
    ensures { result ≡ srec_typed state line.now }
{
    let digit = record_lines::char_at(line, 1);
    match digit {
        b'1' => data_type(line, 2, state),
        b'3' => data_type(line, 4, state),
        b'7' => end_type(line, 4, state),
        b'9' => end_type(line, 2, state),
        _ => made(crate::TYPE, digit as u64, 0),
    }
}

// What is wrong with a line by itself, while a state is in force.
pub fn own_cause(format: u8, line: &[u8], state: u16) -> Cause
    ensures { result ≡ own_cause format state line.now }
{
    let spelt = spelling_in(format, line);
    if spelt.reason != 0 {
        return spelt;
    }
    if format == 0 {
        return hex_type(line);
    }
    srec_type(line, state)
}

// The address of a data line's first byte.
pub fn start_of(format: u8, line: &[u8], state: u16) -> u64
    ensures { (result ≡ start_by format state line.now) × (result < 4294967296) }
{
    if format == 0 {
        return 65_536 * (state as u64) + word(line, 3);
    }
    let upper = word(line, 4);
    if record_lines::char_at(line, 1) == b'1' {
        return upper;
    }
    65_536 * upper + word(line, 8)
}

// How many bytes it gives.
pub fn many_of(format: u8, line: &[u8]) -> u64
    ensures { (result ≡ many_by format line.now) × (result < 256) }
{
    if format == 0 {
        return byte(line, 1);
    }
    if record_lines::char_at(line, 1) == b'1' {
        return byte(line, 2).saturating_sub(3);
    }
    byte(line, 2).saturating_sub(5)
}

// One more than the last address that there is.
pub fn top_of(format: u8, line: &[u8]) -> u64
    ensures { (result ≡ top_by format line.now) × (0 < result) }
{
    if format == 0 {
        return 4_294_967_296;
    }
    if record_lines::char_at(line, 1) == b'1' {
        return 65_536;
    }
    4_294_967_296
}

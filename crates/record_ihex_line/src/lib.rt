// Intel HEX, one line at a time: what a line says. Document 02, Ticket 1.
#![tactic(auto)]

ghost use Rattle.std.specs.Prelude.{◌≡◌, Bool, true};
ghost use Rattle.record_lines.specs.Items.{Says};
ghost use Rattle.record_lines.specs.Spelling.{Spells};
ghost use Rattle.record_ihex_line.specs.Format.{word_at, good_line, hex_item};

use record_lines::{Line, plain};

// "types 00, 01 and 04": data, the end, and the upper half of the addresses that follow
// stays: numbers of the file's format
const TYPE_DATA: u8 = 0;

const TYPE_END: u8 = 1;

const TYPE_UPPER: u8 = 4;

// Two bytes of a line, the higher first.
fn word(line: &[u8], t: &[u8; 256], i: u16) -> u16
    ensures { Spells t.now → result ≡ word_at line.now i }
{
    let at = u32::from(i);
    u16::from_be_bytes([
        record_lines::pair(line, t, at),
        record_lines::pair(line, t, at + 2),
    ])
}

// Whether a line is a colon and as many digits as its count says. "Bytes of a record, checksum included, sum to zero and wrap at 256": checked.
fn is_good(line: &[u8], t: &[u8; 256]) -> bool
    ensures { Spells t.now → result ≡ good_line line.now }
{
    if record_lines::char_at(line, 0) != b':' {
        return false;
    }
    let count = u16::from(record_lines::pair(line, t, 1));
    record_lines::sum_checked(line, t, 1, 5 + count) == 0
}

// What a good line says while an upper half is in force: "types 00, 01 and 04". Of a line that is not good nothing is told.
pub fn known_line(line: &[u8], t: &[u8; 256], state: u16) -> Line
    ensures { Spells t.now → good_line line.now ≡ true
        → Says line.now state 9 result (hex_item state line.now) }
{
    let count = record_lines::pair(line, t, 1);
    let field = word(line, t, 3);
    let kind = record_lines::pair(line, t, 7);
    if kind == TYPE_DATA {
        return Line {
            kind: record_lines::DATA,
            address: 65_536 * u32::from(state) + u32::from(field),
            first: 9,
            count,
            state,
        };
    }
    if field != 0 {
        return plain(record_lines::BAD, state);
    }
    if kind == TYPE_END {
        if count == 0 {
            return plain(record_lines::END, state);
        }
        return plain(record_lines::BAD, state);
    }
    if kind == TYPE_UPPER {
        if count == 2 {
            return plain(record_lines::PASS, word(line, t, 9));
        }
        return plain(record_lines::BAD, state);
    }
    plain(record_lines::BAD, state)
}

// What any line says, by a table that spells the digits.
pub fn line_of(line: &[u8], t: &[u8; 256], state: u16) -> Line
    ensures { Spells t.now → Says line.now state 9 result (hex_item state line.now) }
{
    if !is_good(line, t) {
        return plain(record_lines::BAD, state);
    }
    known_line(line, t, state)
}

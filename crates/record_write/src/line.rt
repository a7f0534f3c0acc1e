// One line of a file of records, or two, written at the front of a part that has room for them.
ghost use Rattle.std.specs.Prelude.{◌≡◌, ◌+◌, ◌*◌, ◌/◌, ◌%◌, ◌<◌, ◌≤◌, [], ◌∷◌, ◌++◌, length};
ghost use Rattle.std.proofs.lemmas.List.Edits.{sets};
ghost use Rattle.record_lines.specs.Digits.{letter_of, byte_text, bytes_text};
ghost use Rattle.record_lines.specs.Pieces.{piece};
ghost use Rattle.record_lines.specs.Puts.{Puts};
ghost use Rattle.record_lines.specs.Sums.{sum_of};
ghost use Rattle.record_ihex_line.specs.Format.{record_text, upper_text, hex_text};
ghost use Rattle.record_srec_line.specs.Srec.{ended_line};
ghost use Rattle.record_write.specs.Text.{text_by, end_by};
ghost use Rattle.record_write.specs.Going.{tail_text};

// "types 00, 01 and 04"
// stays: numbers of the file's format
const TYPE_DATA: u8 = 0;

const TYPE_END: u8 = 1;

const TYPE_UPPER: u8 = 4;

// The letter of a number below 16, upper case.
fn letter(n: u8) -> u8
    requires { n < 16 }
    ensures { result ≡ letter_of n }
{
    if n < 10 { b'0' + n } else { 55 + n }
}

// Two digits.
fn put_byte(out: &mut [u8], at: usize, b: u8)
    requires { at + 2 ≤ length out.old }
    ensures out_after { out.new ≡ sets out.old at (byte_text b) }
    ensures out_len_unchanged { length out.new ≡ length out.old }
{
    out[at] = letter(b / 16);
    out[at + 1] = letter(b % 16);
}

// The digits of bytes, from a place on.
fn put_bytes(out: &mut [u8], at: usize, bytes: &[u8])
    requires { at + 2 * length bytes.now ≤ length out.old }
    ensures out_after { out.new ≡ sets out.old at (bytes_text bytes.now) }
    ensures out_len_unchanged { length out.new ≡ length out.old }
{
    for (i, &b) in bytes.iter().enumerate() {
        put_byte(out, at + 2 * i, b);
    }
}

// The low byte of a sum.
fn sum(bytes: &[u8]) -> u8
    ensures { result ≡ sum_of bytes.now % 256 }
{
    bytes.iter().fold(0u8, |sum, &b| sum.wrapping_add(b))
}

// How a line goes on behind its head: its bytes, the check byte and LF, from a place on.
fn put_tail(out: &mut [u8], at: usize, bytes: &[u8], check: u8) -> usize
    requires { at + 2 * length bytes.now + 3 ≤ length out.old }
    ensures out_after { out.new ≡ sets out.old at (tail_text bytes.now check) }
    ensures value { result ≡ at + 2 * length bytes.now + 3 }
{
    let end = at + 2 * bytes.len();
    put_bytes(out, at, bytes);
    put_byte(out, end, check);
    out[end + 2] = b'\n';
    end + 3
}

// The sum of four bytes wraps at 256.
fn sum_four(a: u8, b: u8, c: u8, d: u8) -> u8
    ensures { result ≡ (a + b + c + d) % 256 }
{
    a.wrapping_add(b).wrapping_add(c).wrapping_add(d)
}

// ---- Intel HEX

// The colon, the count, the address field and the type.
fn put_hex_head(out: &mut [u8], n: u8, high: u8, low: u8, kind: u8)
    requires { 9 ≤ length out.old }
    ensures out_after { out.new ≡ sets out.old 0 (58 ∷ bytes_text (n ∷ high ∷ low ∷ kind ∷ [])) }
    ensures out_len_unchanged { length out.new ≡ length out.old }
{
    out[0] = b':';
    put_byte(out, 1, n);
    put_byte(out, 3, high);
    put_byte(out, 5, low);
    put_byte(out, 7, kind);
}

// The line of a record. "Bytes of a record, checksum included, sum to zero and wrap at 256": written.
fn put_record(out: &mut [u8], kind: u8, field: u16, bytes: &[u8]) -> usize
    requires { (length bytes.now ≤ 16) × (12 + 2 * length bytes.now ≤ length out.old) }
    ensures { Puts (record_text kind field bytes.now) out.old result out.new }
{
    let n = bytes.len() as u8;
    let high = (field / 256) as u8;
    let low = (field % 256) as u8;
    let sum = sum_four(n, high, low, kind).wrapping_add(sum(bytes));
    let check = sum.wrapping_neg();
    put_hex_head(out, n, high, low, kind);
    put_tail(out, 9, bytes, check)
}

// "a type 04 record when the upper half differs from that in force", and nothing otherwise.
fn put_upper(out: &mut [u8], in_force: u16, upper: u16) -> usize
    requires { length (upper_text in_force upper) ≤ length out.old }
    ensures puts { Puts (upper_text in_force upper) out.old result out.new }
    ensures out_len_unchanged { length out.new ≡ length out.old }
{
    if upper == in_force {
        return 0;
    }
    let bytes = [(upper / 256) as u8, (upper % 256) as u8];
    put_record(out, TYPE_UPPER, 0, &bytes)
}

// The lines of a piece.
fn put_hex(out: &mut [u8], in_force: u16, address: u32, bytes: &[u8]) -> usize
    requires { (length bytes.now ≤ 16) × (length (hex_text in_force (piece address bytes.now)) ≤ length out.old) }
    ensures { Puts (hex_text in_force (piece address bytes.now)) out.old result out.new }
{
    let n = put_upper(out, in_force, (address / 65_536) as u16);
    let m = put_record(&mut out[n..], TYPE_DATA, (address % 65_536) as u16, bytes);
    n + m
}

// ---- S-records

// One byte of an address.
fn byte_of(n: u32, scale: u32) -> u8
    requires { 0 < scale }
    ensures { result ≡ n / scale % 256 }
{
    (n / scale % 256) as u8
}

// The letter, the type's digit, and three bytes.
fn put_s_head(out: &mut [u8], digit: u8, a: u8, b: u8, c: u8)
    requires { 8 ≤ length out.old }
    ensures out_after { out.new ≡ sets out.old 0 (83 ∷ digit ∷ bytes_text (a ∷ b ∷ c ∷ [])) }
    ensures out_len_unchanged { length out.new ≡ length out.old }
{
    out[0] = b'S';
    out[1] = digit;
    put_byte(out, 2, a);
    put_byte(out, 4, b);
    put_byte(out, 6, c);
}

// The line of a record with an address of 16 bits, S1 or S9. "The checksum is the ones' complement of the low byte of the sum of count, address and data
// bytes."
fn put_short(out: &mut [u8], digit: u8, address: u32, bytes: &[u8]) -> usize
    requires { (length bytes.now ≤ 16) × (11 + 2 * length bytes.now ≤ length out.old) }
    ensures { Puts (ended_line digit 2 address bytes.now) out.old result out.new }
{
    let count = 3 + bytes.len() as u8;
    let high = byte_of(address, 256);
    let low = byte_of(address, 1);
    let sum = sum_four(count, high, low, sum(bytes));
    put_s_head(out, digit, count, high, low);
    put_tail(out, 8, bytes, 255 - sum)
}

// The line of a record with an address of 32 bits, S3 or S7.
fn put_long(out: &mut [u8], digit: u8, address: u32, bytes: &[u8]) -> usize
    requires { (length bytes.now ≤ 16) × (15 + 2 * length bytes.now ≤ length out.old) }
    ensures { Puts (ended_line digit 4 address bytes.now) out.old result out.new }
{
    let count = 5 + bytes.len() as u8;
    let a = byte_of(address, 16_777_216);
    let b = byte_of(address, 65_536);
    let c = byte_of(address, 256);
    let d = byte_of(address, 1);
    let sum = sum_four(count, a, b, c).wrapping_add(d.wrapping_add(sum(bytes)));
    put_s_head(out, digit, count, a, b);
    put_byte(out, 8, c);
    put_byte(out, 10, d);
    put_tail(out, 12, bytes, 255 - sum)
}

// ---- in a format

// The lines of a piece.
pub(crate) fn put_piece(format: u8, out: &mut [u8], state: u16, address: u32, bytes: &[u8]) -> usize
    requires { (length bytes.now ≤ 16) × (length (text_by format state (piece address bytes.now)) ≤ length out.old) }
    ensures { Puts (text_by format state (piece address bytes.now)) out.old result out.new }
{
    if format == 0 {
        return put_hex(out, state, address, bytes);
    }
    if format == 2 {
        return put_short(out, b'1', address, bytes);
    }
    put_long(out, b'3', address, bytes)
}

// The end record's line.
pub(crate) fn put_end(format: u8, out: &mut [u8]) -> usize
    requires { length (end_by format) ≤ length out.old }
    ensures { Puts (end_by format) out.old result out.new }
{
    let none = [0u8; 1];
    if format == 0 {
        return put_record(out, TYPE_END, 0, &none[0..0]);
    }
    if format == 2 {
        return put_short(out, b'9', 0, &none[0..0]);
    }
    put_long(out, b'7', 0, &none[0..0])
}

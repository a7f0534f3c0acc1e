// Bits of lent bytes: an image is cleared and written, printed in hex, and handed out in parts. Bits run from the top of each byte.
#![tactic(auto)]

ghost use Rattle.std.specs.Prelude.{◌≡◌, ◌++◌, ◌+◌, ◌*◌, ◌/◌, ◌^◌, ◌≤◌, ◌<◌, min, length, drop};
ghost use Rattle.bitvec.specs.Within.{ends_within};
ghost use Rattle.bitvec.specs.Clear.{Clears};
ghost use Rattle.bitvec.specs.Ones.{with_ones, SetsOnes, AnyOne};
ghost use Rattle.bitvec.specs.Part.{is_part, Parts, Judges};
ghost use Rattle.bitvec.specs.Lists.{list_of};
ghost use Rattle.bitvec.specs.Numeral.{numeral};
ghost use Rattle.bitvec.specs.Bits.{bit_at, Bytes};
ghost use Rattle.bitvec.specs.Written.{written, Writes};
ghost use Rattle.bitvec.specs.HexDigits.{digit_of, digit_at, digit_count, Prints};
ghost use Rattle.bitvec.specs.Steps.{spliced, Completes};

use prelude::Refusal;

// A bit of some bytes: its byte, and which of that byte's bits it is, from the top.
#[derive(Clone, Copy)]
struct BitPlace {
    byte: usize,
    bit: u64,
    ghost in_byte: { bit < 8 },
}

impl BitPlace {
    // Bit `n` of all.
    fn of(n: u64) -> BitPlace
        ensures { 8 * result.byte + result.bit ≡ n }
    {
        BitPlace {
            byte: (n / 8) as usize,
            bit: n % 8,
        }
    }

    // The bit `n` bits on.
    fn past(self, n: u64) -> BitPlace
        requires { (n ≤ 8) × (self.byte + (self.bit + n) / 8 < 2 ^ 64) }
        ensures { 8 * result.byte + result.bit ≡ 8 * self.byte + self.bit + n }
    {
        let next = self.bit + n;
        BitPlace {
            byte: self.byte + (next / 8) as usize,
            bit: next % 8,
        }
    }

    // The same bit of the byte `n` bytes on.
    fn skip(self, n: usize) -> BitPlace
        requires { self.byte + n < 2 ^ 64 }
        ensures { (result.byte ≡ self.byte + n) × (result.bit ≡ self.bit) }
    {
        BitPlace {
            byte: self.byte + n,
            bit: self.bit,
        }
    }
}

// 2 to the n.
fn power(n: u64) -> u64
    requires { n < 64 }
    ensures { (result ≡ 2 ^ n) × (0 < result) }
{
    1 << n
}

// Whether the `size` bits from bit `at` on end within `len` bytes. Counted in bytes, since a sum of bits could wrap.
fn ends_within(len: u64, at: u64, size: u64) -> bool
    ensures { result ≡ ends_within len at size }
{
    at / 8 + size / 8 + (at % 8 + size % 8 + 7) / 8 <= len
}

// Every bit of the image becomes 0.
pub fn clear(image: &mut [u8])
    ensures { Clears image.old image.new }
{
    image.fill(0);
}

// The `n` bits from `from` on, as a number. They lie in one byte or in two neighbours.
fn bits_from(values: &[u8], from: BitPlace, n: u64) -> u64
    requires { (0 < n) × (n ≤ 8) × (8 * from.byte + from.bit + n ≤ 8 * length values.now) }
    ensures { result ≡ numeral n (λ i. bit_at values.now (8 * from.byte + from.bit + i)) }
{
    let scale = power(n);
    let first = u64::from(values[from.byte]);
    let end = from.bit + n;
    if end <= 8 {
        return (first >> (8 - end)) % scale;
    }
    let next = u64::from(values[from.byte + 1]);
    ((first * 256 + next) >> (16 - end)) % scale
}

// The byte `old` with its `n` bits from bit `at` on made those of the number `chunk`.
fn splice(old: u64, at: u64, n: u64, chunk: u64) -> u64
    requires { (old < 256) × (at + n ≤ 8) × (chunk < 2 ^ n) }
    ensures { (result ≡ spliced old at n chunk) × (result < 256) }
{
    let low = 8 - at - n;
    let below = power(low);
    let above = power(n + low);
    old - old % above + chunk * below + old % below
}

// The image's `n` bits from `to` on become the value bits from `from` on.
fn put_bits(image: &mut [u8], to: BitPlace, values: &[u8], from: BitPlace, n: u64)
    requires { (to.bit + n ≤ 8) × (8 * to.byte + to.bit + n ≤ 8 * length image.old) × (8 * from.byte + from.bit + n ≤ 8 * length values.now) }
    ensures { image.new ≡ written image.old (8 * to.byte + to.bit) values.now (8 * from.byte + from.bit) n }
{
    if n == 0 {
        return;
    }
    let chunk = bits_from(values, from, n);
    let old = u64::from(image[to.byte]);
    image[to.byte] = splice(old, to.bit, n, chunk) as u8;
}

// `count` whole bytes of the image from byte `j` on become the value bytes from byte `k` on.
fn copy_bytes(image: &mut [u8], j: usize, values: &[u8], k: usize, count: usize)
    requires bytes { Bytes image.old }
    requires count_in_bounds { (j + count ≤ length image.old) × (k + count ≤ length values.now) }
    ensures { image.new ≡ written image.old (8 * j) values.now (8 * k) (8 * count) }
{
    image[j..j + count].copy_from_slice(&values[k..k + count]);
}

// The same from a bit on that is not a byte's first: two value bytes make one.
fn shift_bytes(image: &mut [u8], j: usize, values: &[u8], from: BitPlace, count: usize)
    requires bytes { Bytes image.old }
    requires bit_nonzero { (0 < from.bit) × (j + count ≤ length image.old) × (8 * from.byte + from.bit + 8 * count ≤ 8 * length values.now) }
    ensures { image.new ≡ written image.old (8 * j) values.now (8 * from.byte + from.bit) (8 * count) }
{
    let bytes = &mut image[j..j + count];
    for (i, byte) in bytes.iter_mut().enumerate() {
        *byte = (values[from.byte + i] << from.bit) + (values[from.byte + i + 1] >> (8 - from.bit));
    }
}

// `count` whole bytes of the image from byte `j` on become the value bits from `from` on.
fn write_bytes(image: &mut [u8], j: usize, values: &[u8], from: BitPlace, count: usize)
    requires { (j + count ≤ length image.old) × (8 * from.byte + from.bit + 8 * count ≤ 8 * length values.now) }
    ensures { image.new ≡ written image.old (8 * j) values.now (8 * from.byte + from.bit) (8 * count) }
{
    if from.bit == 0 {
        copy_bytes(image, j, values, from.byte, count);
    } else {
        shift_bytes(image, j, values, from, count);
    }
}

// An item that starts at byte `j`: its whole bytes, then its last bits.
fn write_from_edge(image: &mut [u8], j: usize, values: &[u8], from: BitPlace, size: u64)
    requires { (8 * j + size ≤ 8 * length image.old) × (8 * from.byte + from.bit + size ≤ 8 * length values.now) }
    ensures { image.new ≡ written image.old (8 * j) values.now (8 * from.byte + from.bit) size }
{
    let count = (size / 8) as usize;
    write_bytes(image, j, values, from, count);
    let edge = BitPlace {
        byte: j + count,
        bit: 0,
    };
    put_bits(image, edge, values, from.skip(count), size % 8);
}

// An item that starts at `to`: its bits up to the next byte edge, then the rest.
fn write_item(image: &mut [u8], to: BitPlace, values: &[u8], from: BitPlace, size: u64)
    requires { (8 * to.byte + to.bit + size ≤ 8 * length image.old) × (8 * from.byte + from.bit + size ≤ 8 * length values.now) }
    ensures { image.new ≡ written image.old (8 * to.byte + to.bit) values.now (8 * from.byte + from.bit) size }
{
    let head = 8 - to.bit;
    if size <= head {
        put_bits(image, to, values, from, size);
    } else {
        put_bits(image, to, values, from, head);
        write_from_edge(image, to.byte + 1, values, from.past(head), size - head);
    }
}

// The item of `size` bits from value bit `start` on, written at image bit `position`: refused, and the image left as it is, where
// it would pass the end of the image or of the values.
pub fn write_bits(
    image: &mut [u8],
    position: u64,
    values: &[u8],
    start: u64,
    size: u64,
) -> Result<(), Refusal>
    ensures { Writes image.old position values.now start size result image.new }
{
    if ends_within(image.len() as u64, position, size)
        && ends_within(values.len() as u64, start, size)
    {
        write_item(
            image,
            BitPlace::of(position),
            values,
            BitPlace::of(start),
            size,
        );
        return Ok(());
    }
    Err(Refusal::Malformed(0))
}

// The image's `n` bits from `to` on become ones.
// stays: put_bits and those behind it say `written`, these say `with_ones`; one function for both would say neither
fn put_ones(image: &mut [u8], to: BitPlace, n: u64)
    requires { (to.bit + n ≤ 8) × (8 * to.byte + to.bit + n ≤ 8 * length image.old) }
    ensures { image.new ≡ with_ones image.old (8 * to.byte + to.bit) (8 * to.byte + to.bit + n) }
{
    if n == 0 {
        return;
    }
    let ones = power(n) - 1;
    let old = u64::from(image[to.byte]);
    image[to.byte] = splice(old, to.bit, n, ones) as u8;
}

// The image's whole bytes from byte `j` to before byte `k` become ones.
fn fill_bytes(image: &mut [u8], j: usize, k: usize)
    requires bytes { Bytes image.old }
    requires j_le_k { (j ≤ k) × (k ≤ length image.old) }
    ensures { image.new ≡ with_ones image.old (8 * j) (8 * k) }
{
    image[j..k].fill(255);
}

// A range that starts at byte `j`: its whole bytes, then its last bits.
fn ones_from_edge(image: &mut [u8], j: usize, end: u64)
    requires { (8 * j ≤ end) × (end ≤ 8 * length image.old) }
    ensures { image.new ≡ with_ones image.old (8 * j) end }
{
    let k = (end / 8) as usize;
    fill_bytes(image, j, k);
    put_ones(image, BitPlace { byte: k, bit: 0 }, end % 8);
}

// A range within the image, from a bit that it has: its bits up to the next byte edge, then the rest.
fn ones_within(image: &mut [u8], from: u64, end: u64)
    requires { (from ≤ end) × (end ≤ 8 * length image.old) × (from < 8 * length image.old) }
    ensures { image.new ≡ with_ones image.old from end }
{
    let first = BitPlace::of(from);
    let head = 8 - first.bit;
    let size = end - from;
    if size <= head {
        put_ones(image, first, size);
    } else {
        put_ones(image, first, head);
        ones_from_edge(image, first.byte + 1, end);
    }
}

// The lower of bit `end` and the end of `len` bytes. A product that would wrap is past every `end`.
fn last_bit(len: u64, end: u64) -> u64
    ensures { result ≡ min end (8 * len) }
{
    end.min(len.saturating_mul(8))
}

// The image's bits from bit `from` to before bit `end` become ones, those that it has.
pub fn set_ones(image: &mut [u8], from: u64, end: u64)
    ensures { SetsOnes image.old from end image.new }
{
    let stop = last_bit(image.len() as u64, end);
    if stop <= from {
        return;
    }
    ones_within(image, from, stop);
}

// Whether one of the image's bits from bit `from` to before bit `end` is a one.
pub fn any_one(image: &[u8], from: u64, end: u64) -> bool
    ensures { AnyOne image.now from end result }
{
    let stop = last_bit(image.len() as u64, end);
    (from..stop).any(|i| bits_from(image, BitPlace::of(i), 1) == 1)
}

// Whether a part is one that can be handed out: not empty, on byte edges, within the image.
fn is_part(len: u64, offset: u64, size: u64) -> bool
    ensures { result ≡ is_part len offset size }
{
    if size == 0 {
        return false;
    }
    if offset % 8 != 0 {
        return false;
    }
    if size % 8 != 0 {
        return false;
    }
    ends_within(len, offset, size)
}

// "The caller gets back that part of its own image, not a copy": the bytes of a block, or none of them where `part_verdict`
// refuses.
pub fn part<'a>(image: &'a [u8], offset: u64, size: u64) -> &'a [u8]
    ensures { Parts image.now offset size result.now }
{
    if is_part(image.len() as u64, offset, size) {
        let start = (offset / 8) as usize;
        let end = start + (size / 8) as usize;
        &image[start..end]
    } else {
        &image[0..0]
    }
}

// The number to go with `part`: 16 where the part is empty, outside the image or not on byte edges.
pub fn part_verdict(image: &[u8], offset: u64, size: u64) -> Result<(), Refusal>
    ensures { Judges image.now offset size result }
{
    if is_part(image.len() as u64, offset, size) {
        Ok(())
    } else {
        Err(Refusal::BadPart)
    }
}

// What is added to a digit above 9, for its letter.
const LETTERS: u8 = b'a' - 10;

// The hex digit of a number below 16.
fn digit(n: u8) -> u8
    requires { n < 16 }
    ensures { result ≡ digit_of n }
{
    if n < 10 { b'0' + n } else { LETTERS + n }
}

// The digits of the whole bytes, two for each.
fn write_pairs(bytes: &[u8], bits: u64, hex: &mut [u8])
    requires { (bits ≤ 8 * length bytes.now) × (2 * (bits / 8) ≤ length hex.old) }
    ensures { hex.new ≡ list_of (2 * (bits / 8)) (digit_at bytes.now bits) ++ drop (2 * (bits / 8)) hex.old }
{
    let whole = &bytes[..(bits / 8) as usize];
    for (i, byte) in whole.iter().enumerate() {
        hex[2 * i] = digit(byte / 16);
        hex[2 * i + 1] = digit(byte % 16);
    }
}

// The digits of the last bits, which do not fill a byte: bits past them count as zero. Said of a `hex` whose digits before these
// are written.
fn write_tail(bytes: &[u8], bits: u64, hex: &mut [u8])
    requires { (bits ≤ 8 * length bytes.now) × (digit_count bits ≤ length hex.old) }
    ensures { Completes bytes.now bits hex.old hex.new }
{
    let left = bits % 8;
    if left == 0 {
        return;
    }
    let k = (bits / 8) as usize;
    let byte = u64::from(bytes[k]);
    let padded = (byte - byte % power(8 - left)) as u8;
    hex[2 * k] = digit(padded / 16);
    if left <= 4 {
        return;
    }
    hex[2 * k + 1] = digit(padded % 16);
}

// The first `bits` bits of the bytes, printed at the front of `hex`.
pub fn write_hex(bytes: &[u8], bits: u64, hex: &mut [u8]) -> Result<u64, Refusal>
    ensures { Prints bytes.now bits hex.old result hex.new }
{
    if !ends_within(bytes.len() as u64, 0, bits) {
        return Err(Refusal::Malformed(0));
    }
    // a sum with 3 could wrap
    let digits = bits / 4 + (bits % 4 + 3) / 4;
    if (hex.len() as u64) < digits {
        return Err(Refusal::TooShort(3));
    }
    write_pairs(bytes, bits, hex);
    write_tail(bytes, bits, hex);
    Ok(digits)
}

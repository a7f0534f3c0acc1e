// The printed text, written into a lent buffer: a call answers where its text ends, and text that does not fit leaves the buffer
// as it was. Room is measured first, then written.
#![tactic(auto)]

ghost use Rattle.std.specs.Prelude.{◌≡◌, [], ◌∷◌, ◌+◌, ◌<◌, ◌≤◌, leb, length};
ghost use Rattle.print_text.specs.Decimal.{digit, decimal};
ghost use Rattle.print_text.specs.Puts.{end_of, Writes, Puts};
ghost use Rattle.print_text.specs.Lines.{block_word, spaced, line, passes_text, refusal_text, blocks_text, image_text, layout_text};

use prelude::{Place, Refusal};

// Where text of `len` bytes at `at` ends in a buffer of `size` bytes.
fn end_of(size: usize, at: usize, len: usize) -> Option<usize>
    ensures { result ≡ end_of size at len }
{
    if len > size {
        return None;
    }
    if at > size - len {
        return None;
    }
    Some(at + len)
}

// How many digits a number has.
fn decimal_length(n: u64) -> usize
    ensures value { result ≡ length (decimal n) }
    ensures upper_bound { result ≤ 20 }
{
    n.max(1).ilog10() as usize + 1
}

// The digit of a number below 10, in ASCII.
fn ascii(d: u64) -> u8
    requires { d < 10 }
    ensures { result ≡ digit d }
{
    b'0' + d as u8
}

// Writes bytes that are known to fit, and answers the place behind them.
pub fn write_word(out: &mut [u8], at: usize, word: &[u8]) -> usize
    requires { at + length word.now ≤ length out.old }
    ensures { Writes word.now out.old at result out.new }
{
    let end = at + word.len();
    out[at..end].copy_from_slice(word);
    end
}

// Writes a number that is known to fit, from its last digit to its first.
pub fn write_number(out: &mut [u8], at: usize, n: u64) -> usize
    requires { at + length (decimal n) ≤ length out.old }
    ensures { Writes (decimal n) out.old at result out.new }
{
    let end = at + decimal_length(n);
    let mut left = n;
    let mut i = end - 1;
    // stays: the digits come from the last to the first, and of what is written through `iter_mut().rev()` only the length is known
    while left >= 10 {
        out[i] = ascii(left % 10);
        left /= 10;
        i -= 1;
    }
    out[i] = ascii(left);
    end
}

// Where a line of a word of `word` bytes and of numbers ends.
fn line_end(size: usize, at: usize, word: usize, numbers: &[u64]) -> Option<usize>
    ensures { result ≡ end_of size at (word + length (spaced numbers.now) + 1) }
{
    let start = end_of(size, at, word)?;
    let mut end = start;
    for &n in numbers {
        let next = end_of(size, end, decimal_length(n) + 1)?;
        end = next;
    }
    end_of(size, end, 1)
}

// Writes numbers that are known to fit, a space before each.
pub fn write_numbers(out: &mut [u8], at: usize, numbers: &[u64]) -> usize
    requires { at + length (spaced numbers.now) ≤ length out.old }
    ensures { Writes (spaced numbers.now) out.old at result out.new }
{
    let mut end = at;
    for &n in numbers {
        out[end] = b' ';
        end = write_number(out, end + 1, n);
    }
    end
}

// Writes a line that is known to fit.
pub fn write_line(out: &mut [u8], at: usize, word: &[u8], numbers: &[u64]) -> usize
    requires { at + length (line word.now numbers.now) ≤ length out.old }
    ensures { Writes (line word.now numbers.now) out.old at result out.new }
{
    let middle = write_word(out, at, word);
    let end = write_numbers(out, middle, numbers);
    out[end] = b'\n';
    end + 1
}

// A block's line.
fn block_end(size: usize, at: usize, offset: u64, len: u64) -> Option<usize>
    ensures { result ≡ end_of size at (length (line block_word (offset ∷ len ∷ []))) }
{
    line_end(size, at, 5, &[offset, len])
}

fn write_block(out: &mut [u8], at: usize, offset: u64, len: u64) -> usize
    requires { at + length (line block_word (offset ∷ len ∷ [])) ≤ length out.old }
    ensures { Writes (line block_word (offset ∷ len ∷ [])) out.old at result out.new }
{
    write_line(out, at, b"block", &[offset, len])
}

// Where the lines of the first `count` blocks end.
fn blocks_end(size: usize, at: usize, offsets: &[u64], sizes: &[u64], count: usize) -> Option<usize>
    ensures { result ≡ end_of size at (length (blocks_text count offsets.now sizes.now)) }
{
    let mut end = at;
    for (&offset, &len) in offsets.iter().zip(sizes.iter()).take(count) {
        let next = block_end(size, end, offset, len)?;
        end = next;
    }
    end_of(size, end, 0)
}

fn write_blocks(out: &mut [u8], at: usize, offsets: &[u64], sizes: &[u64], count: usize) -> usize
    requires sizes_in_bounds { at + length (blocks_text count offsets.now sizes.now) ≤ length out.old }
    ensures { Writes (blocks_text count offsets.now sizes.now) out.old at result out.new }
{
    let mut end = at;
    for (&offset, &len) in offsets.iter().zip(sizes.iter()).take(count) {
        end = write_block(out, end, offset, len);
    }
    end
}

// The image's line: its length, and the line.
fn image_length(hex: &[u8]) -> usize
    ensures { result ≡ length (image_text hex.now) }
{
    if hex.is_empty() { 6 } else { hex.len() + 7 }
}

fn write_image(out: &mut [u8], at: usize, hex: &[u8]) -> usize
    requires { at + length (image_text hex.now) ≤ length out.old }
    ensures { Writes (image_text hex.now) out.old at result out.new }
{
    if hex.is_empty() {
        return write_word(out, at, b"image\n");
    }
    let start = write_word(out, at, b"image ");
    let end = write_word(out, start, hex);
    write_word(out, end, b"\n")
}

// All that is printed of a layout: where it ends, and the lines.
fn layout_end(
    size: usize,
    at: usize,
    k: u64,
    offsets: &[u64],
    sizes: &[u64],
    count: usize,
    hex: &[u8],
) -> Option<usize>
    ensures { result ≡ end_of size at (length (layout_text k count offsets.now sizes.now hex.now)) }
{
    let first = line_end(size, at, 6, &[k])?;
    let second = blocks_end(size, first, offsets, sizes, count)?;
    end_of(size, second, image_length(hex))
}

fn write_layout(
    out: &mut [u8],
    at: usize,
    k: u64,
    offsets: &[u64],
    sizes: &[u64],
    count: usize,
    hex: &[u8],
) -> usize
    requires hex_in_bounds { at + length (layout_text k count offsets.now sizes.now hex.now) ≤ length out.old }
    ensures { Writes (layout_text k count offsets.now sizes.now hex.now) out.old at result out.new }
{
    let first = write_line(out, at, b"passes", &[k]);
    let second = write_blocks(out, first, offsets, sizes, count);
    write_image(out, second, hex)
}

// Bytes, as they are.
pub fn put_word(out: &mut [u8], at: usize, word: &[u8]) -> Option<usize>
    ensures { Puts word.now out.old at result out.new }
{
    end_of(out.len(), at, word.len())?;
    Some(write_word(out, at, word))
}

// A number in decimal digits, without leading zeros.
pub fn put_number(out: &mut [u8], at: usize, n: u64) -> Option<usize>
    ensures { Puts (decimal n) out.old at result out.new }
{
    end_of(out.len(), at, decimal_length(n))?;
    Some(write_number(out, at, n))
}

// A line: a word, numbers after it with a space before each, and LF.
pub fn put_line(out: &mut [u8], at: usize, word: &[u8], numbers: &[u64]) -> Option<usize>
    ensures { Puts (line word.now numbers.now) out.old at result out.new }
{
    line_end(out.len(), at, word.len(), numbers)?;
    Some(write_line(out, at, word, numbers))
}

// `refused`, the number and the place.
pub fn put_refusal(out: &mut [u8], at: usize, refusal: Refusal) -> Option<usize>
    ensures { Puts (refusal_text refusal) out.old at result out.new }
{
    let number = prelude::number(refusal);
    match prelude::place_of(refusal) {
        Place::One(p) => put_line(out, at, b"refused", &[number, p]),
        Place::Two(p, q) => put_line(out, at, b"refused", &[number, p, q]),
    }
}

// The same where it is known to fit: a refusal's line has at most 71 bytes, since its number has two digits at most and each of a place twenty.
pub fn write_refusal(out: &mut [u8], at: usize, why: Refusal) -> usize
    requires { at + 71 ≤ length out.old }
    ensures writes { Writes (refusal_text why) out.old at result out.new }
    ensures upper_bound { result ≤ at + 71 }
{
    match put_refusal(out, at, why) {
        Some(end) => end,
        None => at,
    }
}

// `passes` and K.
pub fn put_passes(out: &mut [u8], at: usize, k: u64) -> Option<usize>
    ensures { Puts (passes_text k) out.old at result out.new }
{
    put_line(out, at, b"passes", &[k])
}

// A line for each of the first `count` blocks.
pub fn put_blocks(
    out: &mut [u8],
    at: usize,
    offsets: &[u64],
    sizes: &[u64],
    count: usize,
) -> Option<usize>
    ensures { Puts (blocks_text count offsets.now sizes.now) out.old at result out.new }
{
    blocks_end(out.len(), at, offsets, sizes, count)?;
    Some(write_blocks(out, at, offsets, sizes, count))
}

// `image` and the hex digits, or `image` alone.
pub fn put_image(out: &mut [u8], at: usize, hex: &[u8]) -> Option<usize>
    ensures { Puts (image_text hex.now) out.old at result out.new }
{
    end_of(out.len(), at, image_length(hex))?;
    Some(write_image(out, at, hex))
}

// All that is printed of a layout that is not refused: `passes`, a line for each block, `image`.
pub fn put_layout(
    out: &mut [u8],
    at: usize,
    k: u64,
    offsets: &[u64],
    sizes: &[u64],
    count: usize,
    hex: &[u8],
) -> Option<usize>
    ensures { Puts (layout_text k count offsets.now sizes.now hex.now) out.old at result out.new }
{
    layout_end(out.len(), at, k, offsets, sizes, count, hex)?;
    Some(write_layout(out, at, k, offsets, sizes, count, hex))
}

// The text of a build's answer: the blocks of its spans, the image's hex digits, and the lines of them, or a refusal's.
#![tactic(auto)]

ghost use Rattle.std.specs.Prelude.{◌≡◌, true, ◌+◌, ◌*◌, ◌/◌, ◌<◌, ◌≤◌, length};
ghost use Rattle.prelude.specs.Limits.{max_nodes};
ghost use Rattle.bitvec.specs.HexDigits.{hex_of, digit_count};
ghost use Rattle.blocks.specs.Spans.{acceptable};
ghost use Rattle.print_text.specs.Lines.{layout_text};
ghost use Rattle.print_text.specs.Puts.{Puts};
ghost use Rattle.print_answer.specs.Answer.{image_room, done_text, Fitting, answered};

use output::Built;
use prelude::Refusal;

// The lines of a layout whose blocks are found. The room lent for the hex digits suffices.
fn put_lines(
    k: u64,
    bits: u64,
    image: &[u8],
    block_offsets: &[u64],
    block_sizes: &[u64],
    count: u64,
    hex: &mut [u8],
    out: &mut [u8],
) -> Option<usize>
    requires bits_bound { bits ≤ 8 * length image.now }
    requires bits_bound_2 { bits ≤ 8 * image_room }
    requires bits_in_bounds { digit_count bits ≤ length hex.old }
    ensures { Puts
        (layout_text k count block_offsets.now block_sizes.now (hex_of image.now bits))
        out.old 0 result out.new }
{
    let _ = bitvec::write_hex(image, bits, hex);
    let digits = ((bits + 3) / 4) as usize;
    print_text::put_layout(
        out,
        0,
        k,
        block_offsets,
        block_sizes,
        count as usize,
        &hex[..digits],
    )
}

// The text of an accepted build, with room for every block and every hex digit.
fn put_done(
    k: u64,
    bits: u64,
    offsets: &[u64],
    sizes: &[u64],
    image: &[u8],
    block_offsets: &mut [u64],
    block_sizes: &mut [u64],
    hex: &mut [u8],
    out: &mut [u8],
) -> Option<usize>
    requires bits_bound { bits ≤ 8 * length image.now }
    requires bits_bound_2 { bits ≤ 8 * image_room }
    requires bits_in_bounds { digit_count bits ≤ length hex.old }
    requires max_nodes_in_bounds { max_nodes ≤ length block_offsets.old }
    requires max_nodes_in_bounds_2 { max_nodes ≤ length block_sizes.old }
    requires sizes_value { acceptable offsets.now sizes.now ≡ true }
    ensures { Puts (done_text k bits offsets.now sizes.now image.now) out.old 0 result out.new }
{
    let found = blocks::get_blocks(offsets, sizes, block_offsets, block_sizes);
    match found {
        Err(why) => print_text::put_refusal(out, 0, why),
        Ok(count) => put_lines(k, bits, image, block_offsets, block_sizes, count, hex, out),
    }
}

// Lends room for the blocks and the hex digits.
fn put_accepted(
    k: u64,
    bits: u64,
    offsets: &[u64],
    sizes: &[u64],
    image: &[u8],
    out: &mut [u8],
) -> Option<usize>
    requires bits_bound { bits ≤ 8 * length image.now }
    requires bits_bound_2 { bits ≤ 8 * image_room }
    requires sizes_value { acceptable offsets.now sizes.now ≡ true }
    ensures { Puts (done_text k bits offsets.now sizes.now image.now) out.old 0 result out.new }
{
    let mut block_offsets = [0u64; 4096];
    let mut block_sizes = [0u64; 4096];
    let mut hex = [0u8; 32768];
    put_done(
        k,
        bits,
        offsets,
        sizes,
        image,
        &mut block_offsets,
        &mut block_sizes,
        &mut hex,
        out,
    )
}

// The text of a build's answer, whose image and spans stand in what is lent.
pub fn put_answer(
    build: Result<Built, Refusal>,
    image: &[u8],
    offsets: &[u64],
    sizes: &[u64],
    out: &mut [u8],
) -> Option<usize>
    requires { Fitting build image.now offsets.now sizes.now }
    ensures { Puts (answered build image.now offsets.now sizes.now) out.old 0 result out.new }
{
    match build {
        Err(why) => print_text::put_refusal(out, 0, why),
        Ok(Built { k, length, spans }) => {
            let n = spans as usize;
            put_accepted(k, length, &offsets[..n], &sizes[..n], image, out)
        }
    }
}

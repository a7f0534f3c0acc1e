// A layout file's image as a file of records for the flash station: what the program behind tools/ihex and tools/srec prints.
#![tactic(auto)]

ghost use Rattle.std.specs.Prelude.{◌≡◌, true, ◌*◌, ◌≤◌, length};
ghost use Rattle.prelude.specs.Limits.{max_nodes};
ghost use Rattle.blocks.specs.Spans.{spans_of, acceptable};
ghost use Rattle.blocks.specs.Walk.{blocks_of};
ghost use Rattle.record_write.specs.Cut.{blocks_in};
ghost use Rattle.print_report.specs.Report.{span_room};
ghost use Rattle.print_answer.specs.Answer.{image_room};
ghost use Rattle.print_answer.specs.Answer.{Fitting};
ghost use Rattle.prog_args.specs.Text.{Stands};
ghost use Rattle.print_records.specs.Text.{refused_text, records_of, whole_blocks, done_text, records_text};
ghost use Rattle.print_records.specs.Steps.{text_room, answered};

use output::Built;
use prelude::Refusal;

// Room for the image as records, a short one in each block.
const TEXT: usize = 131_072;

// What is asked for: the format, 0 for Intel HEX and 2 or 4 for S-records of that address width; the address of the image's first byte; the whole image with
// its fill, or the blocks.
#[derive(Clone, Copy)]
pub struct Wanted {
    pub format: u8,
    pub load: u32,
    pub whole: bool,
}

// The refusal of blocks whose layout was accepted.
fn put_refused(why: Refusal, out: &mut [u8]) -> usize
    requires { text_room ≤ length out.old }
    ensures { Stands (refused_text why) out.old result out.new }
{
    let at = prog_args::put_refusal(why, out);
    print_text::write_word(out, at, b"records\n")
}

// The text of blocks: their records, or why not. There is room for every file, so that 14 is not given.
fn put_records(
    wanted: Wanted,
    image: &[u8],
    offsets: &[u64],
    sizes: &[u64],
    out: &mut [u8],
) -> usize
    requires image_len_bound { length image.now ≤ image_room }
    requires offsets_len_bound { length offsets.now ≤ span_room }
    requires offsets_len { length offsets.now ≡ length sizes.now }
    requires text_room_in_bounds { text_room ≤ length out.old }
    ensures { Stands (records_of wanted.format wanted.load image.now (blocks_in offsets.now sizes.now)) out.old result out.new }
{
    let written = record_write::write(wanted.format, image, offsets, sizes, wanted.load, out);
    match written {
        Err(why) => put_refused(why, out),
        Ok(length) => length as usize,
    }
}

// The text of the whole image as one block, or none where it has no bit. The last byte's unused bits are zero in the image.
fn put_whole(wanted: Wanted, bits: u64, image: &[u8], out: &mut [u8]) -> usize
    requires image_len_bound { length image.now ≤ image_room }
    requires bits_bound { bits ≤ 8 * image_room }
    requires text_room_in_bounds { text_room ≤ length out.old }
    ensures { Stands (records_of wanted.format wanted.load image.now (whole_blocks bits)) out.old result out.new }
{
    let offsets = [0u64];
    let sizes = [8 * ((bits + 7) / 8)];
    let n = bits.min(1) as usize;
    put_records(wanted, image, &offsets[..n], &sizes[..n], out)
}

// The text of the blocks of spans, with room for every block.
fn put_blocks(
    wanted: Wanted,
    image: &[u8],
    offsets: &[u64],
    sizes: &[u64],
    block_offsets: &mut [u64],
    block_sizes: &mut [u64],
    out: &mut [u8],
) -> usize
    requires image_len_bound { length image.now ≤ image_room }
    requires sizes_value { acceptable offsets.now sizes.now ≡ true }
    requires block_offsets_len { length block_offsets.old ≡ max_nodes }
    requires block_sizes_len { length block_sizes.old ≡ max_nodes }
    requires text_room_in_bounds { text_room ≤ length out.old }
    ensures { Stands (records_of wanted.format wanted.load image.now (blocks_of (spans_of offsets.now sizes.now)))
        out.old result out.new }
{
    let found = blocks::get_blocks(offsets, sizes, block_offsets, block_sizes);
    match found {
        Err(why) => prog_args::put_refusal(why, out),
        Ok(count) => {
            let n = count as usize;
            put_records(wanted, image, &block_offsets[..n], &block_sizes[..n], out)
        }
    }
}

// The text of an accepted build. Lends room for the blocks.
fn put_done(
    wanted: Wanted,
    bits: u64,
    image: &[u8],
    offsets: &[u64],
    sizes: &[u64],
    out: &mut [u8],
) -> usize
    requires image_len_bound { length image.now ≤ image_room }
    requires bits_bound { bits ≤ 8 * image_room }
    requires sizes_value { acceptable offsets.now sizes.now ≡ true }
    requires text_room_in_bounds { text_room ≤ length out.old }
    ensures { Stands (done_text wanted bits offsets.now sizes.now image.now) out.old result out.new }
{
    if wanted.whole {
        return put_whole(wanted, bits, image, out);
    }
    let mut block_offsets = [0u64; 4096];
    let mut block_sizes = [0u64; 4096];
    put_blocks(
        wanted,
        image,
        offsets,
        sizes,
        &mut block_offsets,
        &mut block_sizes,
        out,
    )
}

// The text of a build's answer, whose image and spans stand in what is lent.
fn put_answer(
    wanted: Wanted,
    build: Result<Built, Refusal>,
    image: &[u8],
    offsets: &[u64],
    sizes: &[u64],
    out: &mut [u8],
) -> usize
    requires fitting { Fitting build image.now offsets.now sizes.now }
    requires image_len_bound { length image.now ≤ image_room }
    requires text_room_in_bounds { text_room ≤ length out.old }
    ensures { Stands (answered wanted build image.now offsets.now sizes.now) out.old result out.new }
{
    match build {
        Err(why) => prog_args::put_refusal(why, out),
        Ok(built) => {
            let n = built.spans as usize;
            put_done(wanted, built.length, image, &offsets[..n], &sizes[..n], out)
        }
    }
}

// Builds the file's layout in what is lent, and puts its text.
fn put_build(
    wanted: Wanted,
    file: &[u8],
    fill: u8,
    page: Option<u32>,
    image: &mut [u8],
    addresses: &mut [i64],
    offsets: &mut [u64],
    sizes: &mut [u64],
    out: &mut [u8],
) -> usize
    requires image_len { length image.old ≡ image_room }
    requires addresses_len { length addresses.old ≡ span_room }
    requires offsets_len { length offsets.old ≡ span_room }
    requires sizes_len { length sizes.old ≡ span_room }
    requires text_room_in_bounds { text_room ≤ length out.old }
    ensures { Stands (records_text wanted file.now fill page) out.old result out.new }
{
    let answer = form_build::build_file(file, fill, page, image, addresses, offsets, sizes);
    let build = answer.build;
    put_answer(wanted, build, image, offsets, sizes, out)
}

// Puts the text of a file. Lends room for the image and the spans.
fn put_text(wanted: Wanted, file: &[u8], fill: u8, page: Option<u32>, out: &mut [u8]) -> usize
    requires { text_room ≤ length out.old }
    ensures { Stands (records_text wanted file.now fill page) out.old result out.new }
{
    let mut image = [0u8; 16384];
    let mut addresses = [0i64; 4096];
    let mut offsets = [0u64; 4096];
    let mut sizes = [0u64; 4096];
    put_build(
        wanted,
        file,
        fill,
        page,
        &mut image,
        &mut addresses,
        &mut offsets,
        &mut sizes,
        out,
    )
}

// Puts the text of a file into room for every text, 131,072 bytes; nothing into less.
pub fn put_file(wanted: Wanted, file: &[u8], fill: u8, page: Option<u32>, out: &mut [u8]) -> usize
    ensures { text_room ≤ length out.old → Stands (records_text wanted file.now fill page) out.old result out.new }
{
    if out.len() < TEXT {
        return 0;
    }
    put_text(wanted, file, fill, page, out)
}

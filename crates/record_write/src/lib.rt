// The blocks of an image, written as a file of records into a lent text. Document 02, Tickets 1 and 12: what the formats share.
#![tactic(auto)]

mod line;

ghost use Rattle.std.specs.Prelude.{◌≡◌, ◌+◌, ◌-◌, ◌*◌, ◌/◌, ◌<◌, ◌≤◌, true, length, take, drop, nat_le};
ghost use Rattle.record_write.specs.Cut.{piece_length, cut, blocks_in};
ghost use Rattle.record_write.specs.Text.{known, lines_from, end_by, text_of};
ghost use Rattle.record_write.specs.Checks.{all_parts};
ghost use Rattle.record_write.specs.Outcome.{input, sound, text, PutsText, Writes};
ghost use Rattle.bitvec.specs.Part.{is_part};
ghost use Rattle.record_write.specs.Going.{BlockWritten, PieceRoom, BlockRoom, Ready, limit_of, placed_in};
ghost use Rattle.record_write.specs.Hex.{WritesHex};
ghost use Rattle.record_write.specs.Srec.{format_for, WritesSrec};

use prelude::Refusal;

// Where the next line goes, and the state that is in force there.
#[derive(Clone, Copy)]
pub struct Place {
    pub at: usize,
    pub state: u16,
}

// "each as long as 16 bytes, its block and its 64 KiB line allow"
fn piece_length(address: u64, left: usize) -> usize
    ensures value { result ≡ piece_length address left }
    ensures upper_bound { (result ≤ 16) × (result ≤ left) × (0 < left → 0 < result) }
{
    let line = (65_536 - address % 65_536) as usize;
    left.min(line).min(16)
}

// How many characters the lines of n bytes at an address have, while a state is in force: in Intel HEX 16 for a type 04 record.
fn piece_room(format: u8, state: u16, address: u32, n: usize) -> usize
    requires { n ≤ 16 }
    ensures piece_room { PieceRoom format state address n result }
    ensures upper_bound { result ≤ 1044 }
{
    if format == 2 {
        return 11 + 2 * n;
    }
    if format != 0 {
        return 15 + 2 * n;
    }
    if address / 65_536 == u32::from(state) {
        return 12 + 2 * n;
    }
    28 + 2 * n
}

// How many characters the end record's line has.
fn end_room(format: u8) -> usize
    ensures { (result ≡ length (end_by format)) × (result ≤ 15) }
{
    if format == 2 {
        return 11;
    }
    if format != 0 {
        return 15;
    }
    12
}

// How many characters so many bytes from an address on take, added up. (1,044 characters a byte is more than any format takes.)
fn block_room(format: u8, count: usize, address: u64, place: Place) -> Place
    requires { (address + count ≤ 4294967296) × (place.at ≤ 1044 * address) }
    ensures block_room { BlockRoom format address count place result }
    ensures at_bound { result.at ≤ 1044 * (address + count) }
{
    let mut at = place.at;
    let mut state = place.state;
    let mut here = address;
    let mut k = 0;
    // stays: a piece's length comes from where it begins, so that no `chunks` gives the pieces
    while k < count {
        let n = piece_length(here, count - k);
        at += piece_room(format, state, here as u32, n);
        state = (here / 65_536) as u16;
        here += n as u64;
        k += n;
    }
    Place { at, state }
}

// The bytes of the image from `start` to `end` as pieces from an address on.
fn write_block(
    format: u8,
    image: &[u8],
    start: usize,
    end: usize,
    address: u64,
    text: &mut [u8],
    place: Place,
) -> Place
    requires start_le_end { (start ≤ end) × (end ≤ length image.now) × (address + (end - start) ≤ 4294967296) × (place.at ≤ 1044 * address) }
    requires image_in_bounds { place.at + length (lines_from format place.state (cut address (take (end - start) (drop start image.now)))) ≤ length text.old }
    ensures block_written { BlockWritten format address (take (end - start) (drop start image.now)) place text.old result text.new }
    ensures at_bound { result.at ≤ 1044 * (address + (end - start)) }
{
    let mut at = place.at;
    let mut state = place.state;
    let mut here = address;
    let mut k = start;
    // stays: a piece's length comes from where it begins, so that no `chunks` gives the pieces
    while k < end {
        let n = piece_length(here, end - k);
        let next = k + n;
        let m = line::put_piece(format, &mut text[at..], state, here as u32, &image[k..next]);
        at += m;
        state = (here / 65_536) as u16;
        here += n as u64;
        k = next;
    }
    Place { at, state }
}

// Document 01's rule for a part of an image.
fn is_part(image: &[u8], offset: u64, size: u64) -> bool
    ensures { result ≡ is_part (length image.now) offset size }
{
    match bitvec::part_verdict(image, offset, size) {
        Ok(()) => true,
        Err(_) => false,
    }
}

// Whether a block that ends `size` bits behind `offset` ends before the next one starts. (A sum could wrap.)
fn ends_before(offset: u64, size: u64, next: u64) -> bool
    ensures { result ≡ nat_le (offset + size) next }
{
    offset <= next && size <= next - offset
}

// Where the addresses of a format end: in format 2 they have 16 bits, in the others 32.
fn limit_of(format: u8) -> u64
    ensures { result ≡ limit_of format }
{
    if format == 2 {
        return 65_536;
    }
    4_294_967_296
}

// Whether a block's last byte has an address below a limit.
fn has_address(load: u32, offset: u64, size: u64, limit: u64) -> bool
    ensures { result ≡ nat_le (load + offset / 8 + size / 8) limit }
{
    u64::from(load) + offset / 8 + size / 8 <= limit
}

// Whether a format is known: 0 is Intel HEX, 2 and 4 are S-records of that width.
fn is_known(format: u8) -> bool
    ensures { result ≡ known format }
{
    matches!(format, 0 | 2 | 4)
}

// What is to be written: the blocks of an image, in a format, from a load address on.
#[derive(Clone, Copy)]
struct Job<'a> {
    format: u8,
    image: &'a [u8],
    offsets: &'a [u64],
    sizes: &'a [u64],
    load: u32,
}

impl Job<'_> {
    // The length of the text of all blocks and the end record.
    fn text_room(&self) -> usize
        requires { Ready self.now.image.now self.now.offsets.now self.now.sizes.now self.now.load }
        ensures { result ≡ length (text (input self.now.format self.now.image.now self.now.offsets.now self.now.sizes.now self.now.load)) }
    {
        let base = u64::from(self.load);
        let mut place = Place { at: 0, state: 0 };
        for (&offset, &size) in self.offsets.iter().zip(self.sizes.iter()) {
            let count = (size / 8) as usize;
            place = block_room(self.format, count, base + offset / 8, place);
        }
        let at = place.at;
        at + end_room(self.format)
    }

    // Whether every block is a part of the image.
    fn all_parts(&self) -> bool
        ensures { result ≡ all_parts (length self.now.image.now) (blocks_in self.now.offsets.now self.now.sizes.now) }
    {
        self.offsets
            .iter()
            .zip(self.sizes.iter())
            .all(|(&offset, &size)| is_part(self.image, offset, size))
    }

    // Whether the blocks ascend, share no bit and have addresses of a format.
    fn all_placed(&self) -> bool
        requires { length self.now.offsets.now ≡ length self.now.sizes.now }
        ensures { result ≡ placed_in self.now.format self.now.load (blocks_in self.now.offsets.now self.now.sizes.now) }
    {
        let limit = limit_of(self.format);
        let behind = self.offsets.iter().skip(1);
        let free = self.offsets.iter().zip(self.sizes.iter()).zip(behind).all(|(
            (&offset, &size),
            &next,
        )| ends_before(offset, size, next));
        free && self.offsets.iter().zip(self.sizes.iter()).all(|(&offset, &size)| has_address(
            self.load, offset, size, limit,
        ))
    }

    // Whether nothing is malformed.
    fn is_sound(&self) -> bool
        ensures { result ≡ sound (input self.now.format self.now.image.now self.now.offsets.now self.now.sizes.now self.now.load) }
    {
        if !is_known(self.format) {
            return false;
        }
        if self.offsets.len() != self.sizes.len() {
            return false;
        }
        self.all_placed()
    }

    // The text of all blocks and the end record, where there is room for it.
    fn write_blocks(&self, text: &mut [u8]) -> usize
        requires ready { Ready self.now.image.now self.now.offsets.now self.now.sizes.now self.now.load }
        requires sizes_in_bounds { length (text_of self.now.format self.now.load self.now.image.now
            (blocks_in self.now.offsets.now self.now.sizes.now)) ≤ length text.old }
        ensures { PutsText (input self.now.format self.now.image.now self.now.offsets.now self.now.sizes.now self.now.load) text.old result text.new }
    {
        let base = u64::from(self.load);
        let mut place = Place { at: 0, state: 0 };
        for (&offset, &size) in self.offsets.iter().zip(self.sizes.iter()) {
            let start = (offset / 8) as usize;
            let end = start + (size / 8) as usize;
            place = write_block(
                self.format,
                self.image,
                start,
                end,
                base + start as u64,
                text,
                place,
            );
        }
        let at = place.at;
        let m = line::put_end(self.format, &mut text[at..]);
        at + m
    }
}

// The blocks of an image as a file of records: the length of the text, which stands at the front of the lent text, or why there is none.
pub fn write(
    format: u8,
    image: &[u8],
    offsets: &[u64],
    sizes: &[u64],
    load: u32,
    text: &mut [u8],
) -> Result<u64, Refusal>
    ensures { Writes (input format image.now offsets.now sizes.now load) text.old result text.new }
{
    let job = Job {
        format,
        image,
        offsets,
        sizes,
        load,
    };
    if !job.all_parts() {
        return Err(Refusal::BadPart);
    }
    if !job.is_sound() {
        return Err(Refusal::Malformed(0));
    }
    // the length comes first: a refused call writes nothing
    let length = job.text_room();
    if text.len() < length {
        return Err(Refusal::TooShort(3));
    }
    job.write_blocks(text);
    Ok(length as u64)
}

// Intel HEX (Ticket 1): the blocks of an image, lent as offsets and sizes in bits, as the text that the flash station takes, from a load address on: its
// length, and it stands at the front of the lent text; or 16, then 4, then 14 with place 3, and the lent text as it was.
pub fn write_ihex(
    image: &[u8],
    offsets: &[u64],
    sizes: &[u64],
    load: u32,
    text: &mut [u8],
) -> Result<u64, Refusal>
    ensures { WritesHex image.now offsets.now sizes.now load text.old result text.new }
{
    write(0, image, offsets, sizes, load, text)
}

// The format of a width: its number. (0 is the number of Intel HEX and no width; 1 is no format.)
fn format_for(width: u8) -> u8
    ensures { result ≡ format_for width }
{
    if width == 0 {
        return 1;
    }
    width
}

// Motorola S-records (Ticket 12), in the same way, for programmers that take them: S1 and S9 for width 2, S3 and S7 for width 4.
pub fn write_srec(
    image: &[u8],
    offsets: &[u64],
    sizes: &[u64],
    load: u32,
    width: u8,
    text: &mut [u8],
) -> Result<u64, Refusal>
    ensures { WritesSrec image.now offsets.now sizes.now load width text.old result text.new }
{
    let format = format_for(width);
    write(format, image, offsets, sizes, load, text)
}

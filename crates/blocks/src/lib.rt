// The blocks of an output: its spans, taken by offset, joined where one starts at the end of those before it. The port of
// `BitVec::get_blocks`.
#![tactic(auto)]

ghost use Rattle.std.specs.Prelude.{◌≡◌, true, ◌+◌, ◌≤◌, ◌<◌, ◌^◌, length, set};
ghost use Rattle.prelude.specs.Limits.{max_nodes};
ghost use Rattle.blocks.specs.Numbered.{Walkable, numbered_blocks};
ghost use Rattle.blocks.specs.Offsets.{OffsetIs, WordIs};
ghost use Rattle.blocks.specs.Spans.{span, within, spans_of, all_within, acceptable};
ghost use Rattle.blocks.specs.Walk.{block, end_of, kept, closed, joined, blocks_of};
ghost use Rattle.blocks.specs.Put.{Put};
ghost use Rattle.blocks.specs.Outcome.{Written, Contract};

use prelude::{MAX_OFFER, MAX_POSITION, Refusal};

// A run of bits in the output, running or written: the Rust's `BitVecBlock`, with its `current_origin` and `current_size`.
#[derive(Clone, Copy)]
pub struct Block {
    pub origin: u64,
    pub size: u64,
}

// As many spans as document 01 has nodes.
const MAX_SPANS: usize = 4_096;

// The blocks' number among the lent outputs: "image 0, spans 1, blocks 2, hex 3".
const BUFFER: u64 = 2;

// The word that stands for no offset.
pub const NO_OFFSET: u64 = 18_446_744_073_709_551_615;

// A span's offset, from the word that it is lent as.
pub fn offset_of(word: u64) -> Option<u64>
    ensures { OffsetIs word result }
{
    if word == NO_OFFSET {
        return None;
    }
    Some(word)
}

// The word for a span's offset.
pub fn word_of(offset: Option<u64>) -> u64
    ensures { WordIs offset result }
{
    match offset {
        None => NO_OFFSET,
        Some(o) => o,
    }
}

// Whether a span is within an offer's limits.
fn is_within(word: u64, size: u64) -> bool
    ensures { result ≡ within (span word size) }
{
    match offset_of(word) {
        None => size <= MAX_POSITION,
        Some(o) => o <= MAX_OFFER && size <= MAX_POSITION,
    }
}

// Whether every span is within an offer's limits.
fn all_within(offsets: &[u64], sizes: &[u64]) -> bool
    requires { length offsets.now ≡ length sizes.now }
    ensures { result ≡ all_within (spans_of offsets.now sizes.now) }
{
    offsets
        .iter()
        .zip(sizes)
        .all(|(&word, &size)| is_within(word, size))
}

// Whether spans are lent as document 01 has them: a size for each offset, at most 4,096, each within the limits.
fn are_acceptable(offsets: &[u64], sizes: &[u64]) -> bool
    ensures { result ≡ acceptable offsets.now sizes.now }
{
    offsets.len() == sizes.len() && offsets.len() <= MAX_SPANS && all_within(offsets, sizes)
}

// Stores a number at a place, if there is one.
fn put(column: &mut [u64], at: usize, value: u64)
    ensures { column.new ≡ set column.old at value }
{
    if at < column.len() {
        column[at] = value;
    }
}

// Writes a block behind the first `count`, as far as the lent slices go, unless it is empty. How many were written: none or one.
pub fn push(
    origin: u64,
    size: u64,
    count: usize,
    block_offsets: &mut [u64],
    block_sizes: &mut [u64],
) -> usize
    ensures put { Put (kept (block origin size)) count block_offsets.old block_sizes.old (count + result)
        block_offsets.new block_sizes.new }
    ensures upper_bound { result ≤ 1 }
{
    if size == 0 {
        return 0;
    }
    put(block_offsets, count, origin);
    put(block_sizes, count, size);
    1
}

impl Block {
    // The bit behind its last.
    fn end(self) -> u64
        requires { end_of self < 2 ^ 63 }
        ensures { result ≡ end_of self }
    {
        self.origin + self.size
    }

    // Writes the block if a span at an offset closes it.
    fn close(
        self,
        offset: u64,
        count: usize,
        block_offsets: &mut [u64],
        block_sizes: &mut [u64],
    ) -> usize
        requires { (count ≤ max_nodes) × (end_of self < 2 ^ 63) }
        ensures { Put (closed self (Some offset)) count
            block_offsets.old block_sizes.old result block_offsets.new block_sizes.new }
    {
        if offset == self.end() {
            return count;
        }
        count + push(self.origin, self.size, count, block_offsets, block_sizes)
    }

    // The block that runs on after a span at an offset.
    fn join(self, offset: u64, size: u64) -> Block
        requires { (end_of self < 2 ^ 63) × (self.size + size < 2 ^ 63) }
        ensures { result ≡ joined self (Some offset) size }
    {
        if offset == self.end() {
            Block {
                origin: self.origin,
                size: self.size + size,
            }
        } else {
            Block {
                origin: offset,
                size,
            }
        }
    }
}

// Walks the spans in the order of their numbers, and writes the blocks that they make one behind the other, as far as the lent
// slices go. Counts all of them.
fn walk(
    numbers: &[u16],
    offsets: &[u64],
    sizes: &[u64],
    block_offsets: &mut [u64],
    block_sizes: &mut [u64],
) -> usize
    requires { Walkable numbers.now offsets.now sizes.now }
    ensures { Put (numbered_blocks offsets.now sizes.now numbers.now) 0
        block_offsets.old block_sizes.old result block_offsets.new block_sizes.new }
{
    let mut current = Block { origin: 0, size: 0 };
    let mut count = 0;
    for &number in numbers {
        let place = usize::from(number);
        // "a span whose offset is none is passed over"
        let Some(offset) = offset_of(offsets[place]) else {
            continue;
        };
        count = current.close(offset, count, block_offsets, block_sizes);
        current = current.join(offset, sizes[place]);
    }
    count
        + push(
            current.origin,
            current.size,
            count,
            block_offsets,
            block_sizes,
        )
}

// Writes the blocks, if there is room for all of them: a walk that is lent no room counts them first.
fn write_blocks(
    numbers: &[u16],
    offsets: &[u64],
    sizes: &[u64],
    block_offsets: &mut [u64],
    block_sizes: &mut [u64],
) -> Result<u64, Refusal>
    requires { Walkable numbers.now offsets.now sizes.now }
    ensures { Written (numbered_blocks offsets.now sizes.now numbers.now)
        block_offsets.old block_sizes.old result block_offsets.new block_sizes.new }
{
    let count = walk(
        numbers,
        offsets,
        sizes,
        &mut block_offsets[..0],
        &mut block_sizes[..0],
    );
    if block_offsets.len() < count || block_sizes.len() < count {
        return Err(Refusal::TooShort(BUFFER));
    }
    walk(numbers, offsets, sizes, block_offsets, block_sizes);
    Ok(count as u64)
}

// Writes the blocks of spans that are as they should be, with room for their numbers.
fn sort_and_write(
    offsets: &[u64],
    sizes: &[u64],
    room: &mut [u16],
    block_offsets: &mut [u64],
    block_sizes: &mut [u64],
) -> Result<u64, Refusal>
    requires { (acceptable offsets.now sizes.now ≡ true) × (length offsets.now ≤ length room.old) }
    ensures { Written (blocks_of (spans_of offsets.now sizes.now))
        block_offsets.old block_sizes.old result block_offsets.new block_sizes.new }
{
    let n = offsets.len();
    let _ = sort::sort(offsets, &mut room[..n]);
    write_blocks(&room[..n], offsets, sizes, block_offsets, block_sizes)
}

// The blocks of the spans that are lent as their offsets' words and their sizes, written into the lent slices: the offset and the
// size of each. A refused call writes nothing.
pub fn get_blocks(
    offsets: &[u64],
    sizes: &[u64],
    block_offsets: &mut [u64],
    block_sizes: &mut [u64],
) -> Result<u64, Refusal>
    ensures { Contract offsets.now sizes.now block_offsets.old block_sizes.old result
        block_offsets.new block_sizes.new }
{
    if !are_acceptable(offsets, sizes) {
        return Err(Refusal::Malformed(0));
    }
    let mut room = [0u16; MAX_SPANS];
    sort_and_write(offsets, sizes, &mut room, block_offsets, block_sizes)
}

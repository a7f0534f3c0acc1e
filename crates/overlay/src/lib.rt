// On the bench: the released image and a small overlay of curves under trial, both at the same offsets. A byte range is answered from
// one of the two, and the bytes at which the overlay changes something are listed.
#![tactic(auto)]

ghost use Rattle.std.specs.Prelude.{◌≡◌, true, false, ◌+◌, ◌-◌, ◌/◌, ◌≤◌, ◌<◌, min, leb, eqb, length};
ghost use Rattle.blocks.specs.Put.{Put};
ghost use Rattle.overlay.specs.Cover.{covered_bit};
ghost use Rattle.overlay.specs.Order.{in_order};
ghost use Rattle.overlay.specs.Trial.{trial};
ghost use Rattle.overlay.specs.Range.{inside, judged, Answers, Picks};
ghost use Rattle.overlay.specs.Runs.{agree, AgreeOn, differ, length_from, runs_from, runs_of};
ghost use Rattle.overlay.specs.List.{Written, Lists};
ghost use Rattle.overlay.specs.Steps.{Finds, Chain};

use prelude::Refusal;

// Which of the two images a range comes from.
#[derive(Clone, Copy)]
pub enum Source {
    Overlay,
    Released,
}

// The list's number among the lent outputs: "image 0, spans 1, blocks 2, hex 3".
const BUFFER: u64 = 2;

// The whole bytes before a block's end. Counted in bytes, since the end may pass 64 bits.
fn whole_bytes(offset: u64, size: u64) -> u64
    ensures { result ≡ (offset + size) / 8 }
{
    offset / 8 + size / 8 + (offset % 8 + size % 8) / 8
}

// The bytes that begin before a block's end.
fn begun_bytes(offset: u64, size: u64) -> u64
    ensures { result ≡ (offset + size + 7) / 8 }
{
    offset / 8 + size / 8 + (offset % 8 + size % 8 + 7) / 8
}

// Whether a block ends at or before bit `next`. An end that passes 64 bits is past every bit.
fn ends_by(offset: u64, size: u64, next: u64) -> bool
    ensures { result ≡ leb (offset + size) next }
{
    match offset.checked_add(size) {
        Some(end) => end <= next,
        None => false,
    }
}

// Whether a block ends exactly at bit `next`, where another starts.
fn touches(offset: u64, size: u64, next: u64) -> bool
    ensures { result ≡ eqb (offset + size) next }
{
    offset.checked_add(size) == Some(next)
}

// Whether the blocks are as they should be: a size for each offset, none empty, ascending, no bit shared.
pub fn in_order(offsets: &[u64], sizes: &[u64]) -> bool
    ensures { result ≡ in_order 0 offsets.now sizes.now }
{
    if offsets.len() != sizes.len() {
        return false;
    }
    let mut offset = 0;
    let mut size = 0;
    for (next, bits) in offsets.iter().zip(sizes) {
        if *bits == 0 {
            return false;
        }
        if !ends_by(offset, size, *next) {
            return false;
        }
        offset = *next;
        size = *bits;
    }
    true
}

// How many blocks end at or before byte `first`: those that start before it, but for the last of them where that one ends past it.
fn find(offsets: &[u64], sizes: &[u64], first: u64) -> usize
    requires { in_order 0 offsets.now sizes.now ≡ true }
    ensures { Finds offsets.now sizes.now first result }
{
    let begun = offsets.partition_point(|offset| *offset / 8 < first);
    if begun == 0 {
        return 0;
    }
    let last = begun - 1;
    if begun_bytes(offsets[last], sizes[last]) <= first {
        return begun;
    }
    last
}

// The last of the blocks that touch one another from the block `at` on.
fn chain_end(offsets: &[u64], sizes: &[u64], at: usize) -> usize
    requires { (length offsets.now ≡ length sizes.now) × (at < length offsets.now) }
    ensures { Chain offsets.now sizes.now at result }
{
    for next in at + 1..offsets.len() {
        if !touches(offsets[next - 1], sizes[next - 1], offsets[next]) {
            return next - 1;
        }
    }
    offsets.len() - 1
}

// Which image the bytes from `first` to `end` come from, by the block that ends past the first of them and those that touch it.
fn cover(offsets: &[u64], sizes: &[u64], first: u64, end: u64) -> Result<Source, Refusal>
    requires { (in_order 0 offsets.now sizes.now ≡ true) × (first < end) }
    ensures { result ≡ judged (covered_bit offsets.now sizes.now) first (end - first) }
{
    let at = find(offsets, sizes, first);
    if offsets.len() <= at {
        return Ok(Source::Released);
    }
    let start = offsets[at];
    if end <= start / 8 {
        return Ok(Source::Released);
    }
    if first < begun_bytes(start, 0) {
        return Err(Refusal::PartlyCovered);
    }
    let last = chain_end(offsets, sizes, at);
    if whole_bytes(offsets[last], sizes[last]) < end {
        return Err(Refusal::PartlyCovered);
    }
    Ok(Source::Overlay)
}

// Whether a range is not empty and inside both images. An end that would wrap is past both.
#[tactic(auto, using(std::proofs::lemmas::Bool::Decides::nat_tests), unfolding(crate::specs::Range::inside))]
fn is_inside(overlay: u64, released: u64, first: u64, count: u64) -> bool
    ensures { result ≡ inside overlay released first count }
{
    match first.checked_add(count) {
        Some(end) => 0 < count && (end <= overlay && end <= released),
        None => false,
    }
}

// Which of the two images the `count` bytes from byte `first` on come from, or why from none: what goes with `pick`.
pub fn which(
    overlay: &[u8],
    released: &[u8],
    offsets: &[u64],
    sizes: &[u64],
    first: u64,
    count: u64,
) -> Result<Source, Refusal>
    ensures { Answers (trial overlay.now released.now offsets.now sizes.now) first count result }
{
    if !in_order(offsets, sizes) {
        return Err(Refusal::Malformed(0));
    }
    if !is_inside(overlay.len() as u64, released.len() as u64, first, count) {
        return Err(Refusal::BadPart);
    }
    cover(offsets, sizes, first, first + count)
}

// "If every byte of the range is covered by overlay blocks .. it hands back that part of the overlay; if no bit of it is, that part of
// the released image": the caller's own bytes, and none of them where `which` refuses.
pub fn pick<'a>(
    overlay: &'a [u8],
    released: &'a [u8],
    offsets: &[u64],
    sizes: &[u64],
    first: u64,
    count: u64,
) -> &'a [u8]
    ensures { Picks (trial overlay.now released.now offsets.now sizes.now) first count result.now }
{
    let Ok(source) = which(overlay, released, offsets, sizes, first, count) else {
        return &overlay[0..0];
    };
    let start = first as usize;
    let end = start + count as usize;
    match source {
        Source::Overlay => &overlay[start..end],
        Source::Released => &released[start..end],
    }
}

// The bytes of the two images before byte `to`.
#[derive(Clone, Copy)]
struct Images<'a> {
    overlay: &'a [u8],
    released: &'a [u8],
    to: usize,
    ghost overlaid: { to ≤ length overlay.now },
    ghost issued: { to ≤ length released.now },
}

impl<'a> Images<'a> {
    // Whether the 64 bytes from `at` on agree, asked without a branch, so that a compiler compares many at a time.
    fn same_stretch(&self, at: usize) -> bool
        requires { at + 64 ≤ self.now.to }
        ensures { result ≡ true → AgreeOn self.now.overlay.now self.now.released.now at 64 }
    {
        let (overlay, released) = (self.overlay, self.released);
        let mut ok = true;
        // stays: `==` of two slices takes 1.6 times the instructions, since it stops at the first byte that differs
        for j in 0..64usize {
            ok = prelude::both(ok, overlay[at + j] == released[at + j]);
        }
        ok
    }

    // As far from `at` on as whole stretches of 64 bytes agree.
    fn skip_same(&self, at: usize) -> usize
        requires { at ≤ self.now.to }
        ensures within { result ≤ self.now.to }
        ensures passed { at + length_from (agree self.now.overlay.now self.now.released.now) at (self.now.to - at)
            ≡ result + length_from (agree self.now.overlay.now self.now.released.now) result (self.now.to - result) }
    {
        let mut i = at;
        // stays: two chunks_exact zipped, taken while they are equal and counted are no plainer
        while 64 <= self.to - i && self.same_stretch(i) {
            i += 64;
        }
        i
    }

    // The first byte from `at` on at which they differ, or `to` where none does.
    fn next_difference(&self, at: usize) -> usize
        requires { at ≤ self.now.to }
        ensures { result ≡ at + length_from (agree self.now.overlay.now self.now.released.now) at (self.now.to - at) }
    {
        let from = self.skip_same(at);
        let to = self.to;
        let mut rest = self.overlay[from..to].iter().zip(&self.released[from..to]);
        from + rest.position(|(o, r)| *o != *r).unwrap_or(to - from)
    }

    // The first byte from `at` on at which they agree, or `to` where none does.
    fn next_agreement(&self, at: usize) -> usize
        requires { at ≤ self.now.to }
        ensures { result ≡ at + length_from (differ self.now.overlay.now self.now.released.now) at (self.now.to - at) }
    {
        let to = self.to;
        let mut rest = self.overlay[at..to].iter().zip(&self.released[at..to]);
        at + rest.position(|(o, r)| *o == *r).unwrap_or(to - at)
    }

    // Writes the runs of bytes that differ from byte `from` on, as far as the lent slices go, and counts all of them.
    fn list_stretch(
        &self,
        from: usize,
        count: usize,
        firsts: &mut [u64],
        counts: &mut [u64],
    ) -> usize
        requires { count ≤ from }
        ensures { Put (runs_from (differ self.now.overlay.now self.now.released.now) from (self.now.to - from) false)
            count firsts.old counts.old result firsts.new counts.new }
    {
        let mut at = from;
        let mut n = count;
        // stays: each turn goes on by as many bytes as it finds alike and not alike, so no chain is plainer
        while at < self.to {
            let first = self.next_difference(at);
            if self.to <= first {
                return n;
            }
            let end = self.next_agreement(first);
            n += blocks::push(first as u64, (end - first) as u64, n, firsts, counts);
            at = end;
        }
        n
    }
}

// The smaller of a count of bytes and a length.
fn at_most(bytes: u64, len: usize) -> usize
    ensures { result ≡ min bytes len }
{
    bytes.min(len as u64) as usize
}

// Goes once over the blocks, and over the bytes that those which touch one another cover whole, and writes the runs that differ, as
// far as the lent slices go. Counts all of them.
fn walk(
    overlay: &[u8],
    released: &[u8],
    offsets: &[u64],
    sizes: &[u64],
    firsts: &mut [u64],
    counts: &mut [u64],
) -> usize
    requires { in_order 0 offsets.now sizes.now ≡ true }
    ensures { Put (runs_of (trial overlay.now released.now offsets.now sizes.now))
        0 firsts.old counts.old result firsts.new counts.new }
{
    let len = at_most(overlay.len() as u64, released.len());
    let mut i = 0;
    let mut count = 0;
    // stays: each turn goes on by as many blocks as it finds touching, so no chain is plainer
    while i < offsets.len() {
        let last = chain_end(offsets, sizes, i);
        let from = at_most(begun_bytes(offsets[i], 0), len);
        let to = at_most(whole_bytes(offsets[last], sizes[last]), len);
        let images = Images {
            overlay,
            released,
            to,
        };
        count = images.list_stretch(from, count, firsts, counts);
        i = last + 1;
    }
    count
}

// Writes the runs, if there is room for all of them: a walk that is lent no room counts them first.
fn write_runs(
    overlay: &[u8],
    released: &[u8],
    offsets: &[u64],
    sizes: &[u64],
    firsts: &mut [u64],
    counts: &mut [u64],
) -> Result<u64, Refusal>
    requires { in_order 0 offsets.now sizes.now ≡ true }
    ensures { Written (runs_of (trial overlay.now released.now offsets.now sizes.now))
        firsts.old counts.old result firsts.new counts.new }
{
    let count = walk(
        overlay,
        released,
        offsets,
        sizes,
        &mut firsts[..0],
        &mut counts[..0],
    );
    if firsts.len() < count {
        return Err(Refusal::TooShort(BUFFER));
    }
    if counts.len() < count {
        return Err(Refusal::TooShort(BUFFER));
    }
    walk(overlay, released, offsets, sizes, firsts, counts);
    Ok(count as u64)
}

// Lists each maximal run of bytes, covered whole and inside both images, that differ between the two: its first byte and its count of
// bytes, ascending. A refused call writes nothing.
pub fn differences(
    overlay: &[u8],
    released: &[u8],
    offsets: &[u64],
    sizes: &[u64],
    firsts: &mut [u64],
    counts: &mut [u64],
) -> Result<u64, Refusal>
    ensures { Lists (trial overlay.now released.now offsets.now sizes.now)
        firsts.old counts.old result firsts.new counts.new }
{
    if !in_order(offsets, sizes) {
        return Err(Refusal::Malformed(0));
    }
    write_runs(overlay, released, offsets, sizes, firsts, counts)
}

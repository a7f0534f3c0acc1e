// Read-back: what was flashed, read back and held against the image. The bytes that the image's blocks ask for are listed, in runs, where the bytes that were
// read back do not give them, and where they give them with another value.
#![tactic(auto)]

ghost use Rattle.std.specs.Prelude.{◌≡◌, ◌+◌, ◌-◌, ◌*◌, ◌/◌, ◌≤◌, length, get_or, set};
ghost use Rattle.overlay.specs.Cover.{covered_bit};
ghost use Rattle.verify.specs.Whole.{whole, all_whole, Sound};
ghost use Rattle.verify.specs.Runs.{readback, kind_by, closed, started_at, closed_at, runs_of};
ghost use Rattle.verify.specs.Put.{Cursor, Put};
ghost use Rattle.verify.specs.List.{Written, Lists};

use prelude::Refusal;

// The list's number among the lent outputs: "image 0, spans 1, blocks 2, hex 3".
const BUFFER: u64 = 2;

// The kinds of a listed byte: it is asked for and not given; it is given with another value.
const MISSING: u8 = 1;

const DIFFERENT: u8 = 2;

// Whether a block is on byte edges and inside so many bytes. Its end is reckoned in bytes, since it may pass 64 bits.
fn is_whole(offset: u64, size: u64, bytes: u64) -> bool
    ensures { result ≡ whole bytes offset size }
{
    if offset % 8 != 0 {
        return false;
    }
    if size % 8 != 0 {
        return false;
    }
    offset / 8 + size / 8 <= bytes
}

// Whether all blocks are.
fn all_whole(offsets: &[u64], sizes: &[u64], bytes: u64) -> bool
    ensures { result ≡ all_whole bytes offsets.now sizes.now }
{
    let mut blocks = offsets.iter().zip(sizes);
    blocks.all(|(offset, size)| is_whole(*offset, *size, bytes))
}

// One of the two that are held against each other: its bytes, and its blocks, offsets and sizes in bits.
#[derive(Clone, Copy)]
struct Side<'a> {
    bytes: &'a [u8],
    offsets: &'a [u64],
    sizes: &'a [u64],
    ghost sound: { Sound offsets.now sizes.now },
}

impl<'a> Side<'a> {
    // Whether some block has byte `b`: the block `at`, before which all end, or none.
    fn has_at(&self, at: usize, b: usize) -> bool
        requires { Cursor self.now.offsets.now self.now.sizes.now b at }
        ensures { result ≡ covered_bit self.now.offsets.now self.now.sizes.now (8 * b) }
    {
        match self.offsets.get(at) {
            Some(offset) => *offset / 8 <= b as u64,
            None => false,
        }
    }

    // The block that a walk has come to behind byte `b`: the same, or the next where its last byte is `b`.
    fn move_on(&self, at: usize, b: usize) -> usize
        requires { Cursor self.now.offsets.now self.now.sizes.now b at }
        ensures { Cursor self.now.offsets.now self.now.sizes.now (b + 1) result }
    {
        if self.offsets.len() <= at {
            return at;
        }
        if last_byte(self.offsets[at], self.sizes[at]) <= b as u64 {
            return at + 1;
        }
        at
    }

    // A byte, or 0 past the end.
    fn byte_at(&self, b: usize) -> u8
        ensures { result ≡ get_or self.now.bytes.now b 0 }
    {
        self.bytes.get(b).copied().unwrap_or(0)
    }
}

// The last byte of a block of whole bytes.
fn last_byte(offset: u64, size: u64) -> u64
    requires { 8 ≤ size }
    ensures { result ≡ offset / 8 + size / 8 - 1 }
{
    offset / 8 + size / 8 - 1
}

// What is to be said of a byte: nothing (0), that it is missing, or that it is different.
fn kind_by(asked: bool, given: bool, same: bool) -> u8
    ensures { result ≡ kind_by asked given same }
{
    if !asked {
        return 0;
    }
    if !given {
        return MISSING;
    }
    if same {
        return 0;
    }
    DIFFERENT
}

// Stores a number at a place, if there is one.
fn put<T: Copy>(column: &mut [T], at: usize, value: T)
    ensures { column.new ≡ set column.old at value }
{
    if at < column.len() {
        column[at] = value;
    }
}

// The columns that runs are written into, as far as they go.
#[derive(Drop)]
struct Columns<'a> {
    firsts: &'a mut [u64],
    counts: &'a mut [u64],
    kinds: &'a mut [u8],
}

impl<'a> Columns<'a> {
    // Writes a run behind the first `n`, unless nothing is to be said of its bytes. How many were written: none or one.
    fn push(&mut self, kind: u8, first: usize, end: usize, n: usize) -> usize
        requires { first ≤ end }
        ensures put { Put (closed kind first end) n self.old.firsts.now self.old.counts.now self.old.kinds.now (n + result)
            self.new.firsts.now self.new.counts.now self.new.kinds.now × (result ≤ 1) }
        // the columns stay those that were lent
        ensures same { (self.new.firsts.ghost_name ≡ self.old.firsts.ghost_name) × (self.new.counts.ghost_name ≡ self.old.counts.ghost_name)
            × (self.new.kinds.ghost_name ≡ self.old.kinds.ghost_name) }
    {
        if kind == 0 {
            return 0;
        }
        put(self.firsts, n, first as u64);
        put(self.counts, n, (end - first) as u64);
        put(self.kinds, n, kind);
        1
    }

    // Writes the run that runs before byte `b` if that byte is of another kind.
    fn close(&mut self, kind: u8, next: u8, first: usize, b: usize, n: usize) -> usize
        requires { first ≤ b }
        ensures put { Put (closed_at kind next first b) n self.old.firsts.now self.old.counts.now self.old.kinds.now (n + result)
            self.new.firsts.now self.new.counts.now self.new.kinds.now × (result ≤ 1) }
        // the columns stay those that were lent
        ensures same { (self.new.firsts.ghost_name ≡ self.old.firsts.ghost_name) × (self.new.counts.ghost_name ≡ self.old.counts.ghost_name)
            × (self.new.kinds.ghost_name ≡ self.old.kinds.ghost_name) }
    {
        if next == kind {
            return 0;
        }
        self.push(kind, first, b, n)
    }
}

// Where the run begins that byte `b` is in.
fn started_at(kind: u8, next: u8, first: usize, b: usize) -> usize
    ensures { result ≡ started_at kind next first b }
{
    if next == kind {
        return first;
    }
    b
}

// Goes once over the image's bytes, with the block of each list that it has come to, and writes the runs, as far as the lent slices go. Counts all of them.
fn walk(image: &Side, given: &Side, columns: &mut Columns) -> usize
    ensures put { Put (runs_of (readback image.now.bytes.now image.now.offsets.now image.now.sizes.now given.now.bytes.now
        given.now.offsets.now given.now.sizes.now)) 0 columns.old.firsts.now columns.old.counts.now columns.old.kinds.now result
        columns.new.firsts.now columns.new.counts.now columns.new.kinds.now }
    // the columns stay those that were lent
    ensures same { (columns.new.firsts.ghost_name ≡ columns.old.firsts.ghost_name)
        × (columns.new.counts.ghost_name ≡ columns.old.counts.ghost_name)
        × (columns.new.kinds.ghost_name ≡ columns.old.kinds.ghost_name) }
{
    let mut at = 0;
    let mut given_at = 0;
    let mut kind = 0;
    let mut first = 0;
    let mut n = 0;
    let wanted = image.bytes;
    for (b, byte) in wanted.iter().enumerate() {
        let asked = image.has_at(at, b);
        let is_given = given.has_at(given_at, b);
        let next = kind_by(asked, is_given, *byte == given.byte_at(b));
        n += columns.close(kind, next, first, b, n);
        first = started_at(kind, next, first, b);
        kind = next;
        at = image.move_on(at, b);
        given_at = given.move_on(given_at, b);
    }
    n + columns.push(kind, first, wanted.len(), n)
}

// Writes the runs, if there is room for all of them: a walk that is lent no room counts them first.
fn write_runs(
    image: &Side,
    given: &Side,
    firsts: &mut [u64],
    counts: &mut [u64],
    kinds: &mut [u8],
) -> Result<u64, Refusal>
    ensures { Written (runs_of (readback image.now.bytes.now image.now.offsets.now image.now.sizes.now given.now.bytes.now
        given.now.offsets.now given.now.sizes.now)) firsts.old counts.old kinds.old result
        firsts.new counts.new kinds.new }
{
    let mut none = Columns {
        firsts: &mut [],
        counts: &mut [],
        kinds: &mut [],
    };
    let count = walk(image, given, &mut none);
    if firsts.len() < count {
        return Err(Refusal::TooShort(BUFFER));
    }
    if counts.len() < count {
        return Err(Refusal::TooShort(BUFFER));
    }
    if kinds.len() < count {
        return Err(Refusal::TooShort(BUFFER));
    }
    let mut columns = Columns {
        firsts,
        counts,
        kinds,
    };
    walk(image, given, &mut columns);
    Ok(count as u64)
}

// Lists each maximal run of bytes of one kind: its first byte, its count of bytes and the kind, ascending. A refused call writes nothing.
pub fn compare(
    image: &[u8],
    offsets: &[u64],
    sizes: &[u64],
    bytes: &[u8],
    given_offsets: &[u64],
    given_sizes: &[u64],
    firsts: &mut [u64],
    counts: &mut [u64],
    kinds: &mut [u8],
) -> Result<u64, Refusal>
    ensures { Lists (readback image.now offsets.now sizes.now bytes.now
        given_offsets.now given_sizes.now) firsts.old counts.old kinds.old result
        firsts.new counts.new kinds.new }
{
    if !overlay::in_order(offsets, sizes) {
        return Err(Refusal::Malformed(0));
    }
    if !overlay::in_order(given_offsets, given_sizes) {
        return Err(Refusal::Malformed(0));
    }
    if !all_whole(offsets, sizes, image.len() as u64) {
        return Err(Refusal::BadPart);
    }
    if !all_whole(given_offsets, given_sizes, bytes.len() as u64) {
        return Err(Refusal::BadPart);
    }
    let asked = Side {
        bytes: image,
        offsets,
        sizes,
    };
    let given = Side {
        bytes,
        offsets: given_offsets,
        sizes: given_sizes,
    };
    write_runs(&asked, &given, firsts, counts, kinds)
}

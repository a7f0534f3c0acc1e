// A file of records, read into lent bytes and blocks. Document 02, Tickets 1 and 12: "It fills lent bytes and blocks, counted from that address."
#![tactic(auto)]

ghost use Rattle.std.specs.Prelude.{◌≡◌, true, [], ◌∷◌, map, ◌+◌, ◌-◌, ◌*◌, ◌/◌, ◌≤◌, ◌<◌, ltb, eqb, length};
ghost use Rattle.prelude.specs.Pick.{pick};
ghost use Rattle.bitvec.specs.Numeral.{bit_of};
ghost use Rattle.blocks.specs.Put.{Put};
ghost use Rattle.record_lines.specs.Digits.{bytes_at};
ghost use Rattle.record_lines.specs.Pieces.{piece};
ghost use Rattle.record_lines.specs.Spelling.{Spells};
ghost use Rattle.record_scan.specs.Reading.{read_text, sound};
ghost use Rattle.record_scan.specs.Trail.{trail};
ghost use Rattle.record_scan.specs.Steps.{AllGood, rises};
ghost use Rattle.record_read.specs.Given.{filled};
ghost use Rattle.record_read.specs.Runs.{is_given, reach, in_bits, blocks_given};
ghost use Rattle.record_read.specs.Outcome.{lent, Reads};
ghost use Rattle.record_read.specs.Steps.{extent_of, kept_run, closed_by, joined_by, Small, Lowest, Betters};
ghost use Rattle.record_read.specs.Steps.{Ready, Usable, FirstBit, Underway, Passes};

use prelude::Refusal;
use record_lines::Line;

// Bytes from `first` on and before `end`, counted from the load address; none where `end` is not above `first`.
#[derive(Clone, Copy)]
pub struct Run {
    pub first: u64,
    pub end: u64,
}

// How far the blocks are written: the run that goes on, and how many of them stand before it.
#[derive(Clone, Copy)]
pub struct Walk {
    pub run: Run,
    pub count: usize,
}

// A sound file: its format, its text, a table that spells the digits, how many lines stand before its end record, the address that it is read from, where
// its bytes end, counted from there, and whether its records ascend and in how many parts.
#[derive(Clone, Copy)]
struct File<'a> {
    format: u8,
    text: &'a [u8],
    t: &'a [u8; 256],
    n: usize,
    load: u32,
    end: u64,
    ascend: bool,
    parts: u64,
    ghost spells: { Spells t.now },
    ghost good: { AllGood format text.now n },
    ghost ready: { Ready format text.now n load end },
    ghost order: { ascend ≡ rises format text.now n },
    ghost counted: { ascend ≡ true → parts ≡ length (blocks_given load (trail format text.now n).given) },
}

// No bytes, and a walk that has met none.
const EMPTY: Run = Run { first: 0, end: 0 };

const START: Walk = Walk {
    run: EMPTY,
    count: 0,
};

// The bytes' and the blocks' numbers among the lent outputs.
const BYTES: u64 = 0;

const BLOCKS: u64 = 2;

// So many parts at most are found without scratch: the file is read once for each.
const FEW: u64 = 16;

// Scratch with a bit for every address takes so many bytes.
const SCRATCH: usize = 536_870_912;

impl Run {
    // Writes the run behind the blocks that are written, unless it is empty, and counts it.
    fn push(self, count: usize, offsets: &mut [u64], sizes: &mut [u64]) -> usize
        requires { (self.first ≤ self.end) × (count ≤ self.first) × Small self }
        ensures { Put (map in_bits (kept_run self)) count offsets.old sizes.old result offsets.new sizes.new }
    {
        count
            + blocks::push(
                8 * self.first,
                8 * (self.end - self.first),
                count,
                offsets,
                sizes,
            )
    }

    // Writes the run if the next one does not touch it.
    fn close(self, next: Run, count: usize, offsets: &mut [u64], sizes: &mut [u64]) -> usize
        requires { (self.first ≤ self.end) × (count ≤ self.first) × Small self }
        ensures { Put (map in_bits (closed_by self next)) count offsets.old sizes.old result offsets.new sizes.new }
    {
        if next.end <= next.first || self.end == next.first {
            return count;
        }
        self.push(count, offsets, sizes)
    }

    // The run that goes on behind the next one.
    fn join(self, next: Run) -> Run
        ensures { result ≡ joined_by self next }
    {
        if next.end <= next.first {
            return self;
        }
        if next.first == self.end {
            return Run {
                end: next.end,
                ..self
            };
        }
        next
    }

    // The lower of two stretches from a byte on, or both where the second touches the first.
    fn better(self, next: Run, from: u64) -> Run
        ensures { Betters from self next result }
    {
        let first = next.first.max(from);
        let end = next.end;
        if end <= first {
            return self;
        }
        if self.end <= self.first {
            return Run { first, end };
        }
        if end == self.first {
            return Run { first, ..self };
        }
        if first < self.first {
            return Run { first, end };
        }
        if first == self.end {
            return Run { end, ..self };
        }
        self
    }

    // Where to look on behind a stretch: at its end, or at the end of all where there was none.
    fn behind(self, end: u64) -> u64
        ensures { result ≡ pick (ltb self.first self.end) self.end end }
    {
        if self.first < self.end {
            return self.end;
        }
        end
    }
}

impl Walk {
    // Goes on by the next run: the one before it is written if the next one does not touch it.
    fn go(self, next: Run, offsets: &mut [u64], sizes: &mut [u64]) -> Walk
        requires { (self.run.first ≤ self.run.end) × (self.count ≤ self.run.first) × Small self.run }
        ensures run { result.run ≡ joined_by self.run next }
        ensures put { Put (map in_bits (closed_by self.run next)) self.count offsets.old sizes.old result.count offsets.new sizes.new }
    {
        let run = self.run;
        Walk {
            count: run.close(next, self.count, offsets, sizes),
            run: run.join(next),
        }
    }

    // Writes the run that goes on, and counts the blocks.
    fn finish(self, offsets: &mut [u64], sizes: &mut [u64]) -> usize
        requires { (self.run.first ≤ self.run.end) × (self.count ≤ self.run.first) × Small self.run }
        ensures { Put (map in_bits (kept_run self.run)) self.count offsets.old sizes.old result offsets.new sizes.new }
    {
        let run = self.run;
        run.push(self.count, offsets, sizes)
    }
}

// Bit b of a byte, from the top.
fn bit_in(byte: u8, b: u64) -> u8
    requires { b < 8 }
    ensures { result ≡ bit_of 8 byte b }
{
    (byte >> (7 - b)) % 2
}

// Where to look on behind bit j: behind its byte if that is to be passed over.
fn past(byte: u8, skip: u8, j: u64) -> u64
    requires { j ≤ 4294967296 }
    ensures { result ≡ pick (eqb byte skip) (8 * (j / 8) + 8) (j + 1) }
{
    if byte == skip {
        return 8 * (j / 8) + 8;
    }
    j + 1
}

// The first bit from one on that is `want`, or how many bits there are.
fn next_bit(scratch: &[u8], from: u64, want: u8) -> u64
    requires { (from ≤ 8 * length scratch.now) × (length scratch.now ≤ 536870912) × (want < 2) }
    ensures { FirstBit scratch.now want from result }
{
    let size = 8 * scratch.len() as u64;
    // a byte that has none
    let skip = 255 * (1 - want);
    let mut j = from;
    // stays: a step is a bit or what is left of a byte, which no iterator gives
    while j < size {
        let byte = scratch[(j / 8) as usize];
        if bit_in(byte, j % 8) == want {
            return j;
        }
        j = past(byte, skip, j);
    }
    j
}

// Goes on over the bytes of a window, the first of which is byte `from`, counted from the load address; a mark stands for each that is given.
fn walk_window(
    scratch: &[u8],
    from: u64,
    begun: Walk,
    offsets: &mut [u64],
    sizes: &mut [u64],
) -> Walk
    requires from_bound { (from ≤ 4294967296) × (length scratch.now ≤ 536870912) }
    requires underway { Underway scratch.now from begun offsets.old sizes.old }
    ensures { Passes scratch.now from begun offsets.old sizes.old
        result (from + 8 * length scratch.now) offsets.new sizes.new }
{
    let size = 8 * scratch.len() as u64;
    let mut walk = begun;
    let mut j = 0u64;
    // stays: a step is a run, as long as the bits say
    while j < size {
        let first = next_bit(scratch, j, 1);
        let end = next_bit(scratch, first, 0);
        let next = Run {
            first: from + first,
            end: from + end,
        };
        walk = walk.go(next, offsets, sizes);
        j = end;
    }
    walk
}

// Stores the byte of an address, if there is room for it.
fn put_byte(bytes: &mut [u8], address: u64, load: u32, value: u8)
    ensures { bytes.new ≡ filled load (piece address (value ∷ []) ∷ []) bytes.old }
{
    let base = load as u64;
    if base <= address && address - base < bytes.len() as u64 {
        bytes[(address - base) as usize] = value;
    }
}

impl File<'_> {
    // The bytes of a line, counted from the load address. (Only lines with bytes have a count.)
    fn extent(&self, line: Line) -> Run
        ensures { (result ≡ extent_of line.address line.count self.now.load) × Small result }
    {
        let base = self.load as u64;
        let first = line.address as u64;
        let end = first + line.count as u64;
        Run {
            first: first.saturating_sub(base),
            end: end.saturating_sub(base),
        }
    }

    // The lowest stretch of bytes from a byte on, whatever the order of the records; none where nothing is given there.
    fn lowest(&self, from: u64) -> Run
        ensures { let given = (trail self.now.format self.now.text.now self.now.n).given in
            Lowest (is_given self.now.load given) from result × Small result }
    {
        let mut at = 0usize;
        let mut state = 0u16;
        let mut best = EMPTY;
        for _ in 0..self.n {
            let s = record_scan::known_line(self.format, self.text, self.t, at, state);
            let line = s.line;
            best = best.better(self.extent(line), from);
            at = s.next;
            state = line.state;
        }
        best
    }

    // The blocks of a file whose records stand in any order: the lowest stretch is looked for again and again.
    fn walk_any(&self, offsets: &mut [u64], sizes: &mut [u64]) -> usize
        ensures { let given = (trail self.now.format self.now.text.now self.now.n).given in
            Put (blocks_given self.now.load given) 0 offsets.old sizes.old result offsets.new sizes.new }
    {
        let mut from = 0u64;
        let mut walk = START;
        // stays: a step is a stretch, as long as the file says
        while from < self.end {
            let next = self.lowest(from);
            walk = walk.go(next, offsets, sizes);
            from = next.behind(self.end);
        }
        walk.finish(offsets, sizes)
    }

    // The blocks of a file whose records stand in any order, by a bit for each byte given, in as many windows as it takes. The lent scratch is zeros, and is
    // again in the end.
    fn walk_scratch(&self, offsets: &mut [u64], sizes: &mut [u64], scratch: &mut [u8]) -> usize
        requires { Usable scratch.old }
        ensures { let given = (trail self.now.format self.now.text.now self.now.n).given in
            Put (blocks_given self.now.load given) 0 offsets.old sizes.old result offsets.new sizes.new
            × (scratch.new ≡ scratch.old) }
    {
        let base = self.load as u64;
        let mut from = 0u64;
        let mut walk = START;
        // stays: a window begins where the one before it tells, which no range gives
        while from < self.end {
            let window = record_scan::mark_window(
                self.format,
                self.text,
                self.t,
                self.n,
                base + from,
                scratch,
            );
            walk = walk_window(scratch, from, walk, offsets, sizes);
            bitvec::clear(scratch);
            from = window.next.saturating_sub(base);
        }
        walk.finish(offsets, sizes)
    }

    // Whether the blocks are found by scratch: where there are more than a few, and scratch is lent and is zeros.
    fn by_scratch(&self, scratch: &[u8]) -> bool
        ensures { result ≡ true → Usable scratch.now }
    {
        !self.ascend
            && self.parts > FEW
            && !scratch.is_empty()
            && scratch.len() <= SCRATCH
            && record_scan::all_zero(scratch)
    }

    // The blocks of a file whose records stand in any order.
    fn find_blocks(
        &self,
        marked: bool,
        offsets: &mut [u64],
        sizes: &mut [u64],
        scratch: &mut [u8],
    ) -> usize
        requires { marked ≡ true → Usable scratch.old }
        ensures { let given = (trail self.now.format self.now.text.now self.now.n).given in
            Put (blocks_given self.now.load given) 0 offsets.old sizes.old result offsets.new sizes.new
            × (scratch.new ≡ scratch.old) }
    {
        if marked {
            return self.walk_scratch(offsets, sizes, scratch);
        }
        self.walk_any(offsets, sizes)
    }

    // Stores the bytes of a line.
    fn fill_line(&self, characters: &[u8], line: Line, bytes: &mut [u8])
        requires { line.first + 2 * line.count ≤ length characters.now }
        ensures { bytes.new ≡ filled self.now.load (piece line.address (bytes_at characters.now line.first line.count) ∷ []) bytes.old }
    {
        let start = line.first as usize;
        let base = line.address as u64;
        let end = start + 2 * line.count as usize;
        let (pairs, _) = characters[start..end].as_chunks::<2>();
        for (j, pair) in pairs.iter().enumerate() {
            put_byte(
                bytes,
                base + j as u64,
                self.load,
                record_lines::pair_of(self.t, pair[0], pair[1]),
            );
        }
    }

    // Stores the bytes of all lines.
    fn fill(&self, bytes: &mut [u8])
        ensures { let given = (trail self.now.format self.now.text.now self.now.n).given in
            bytes.new ≡ filled self.now.load given bytes.old }
    {
        let mut at = 0usize;
        let mut state = 0u16;
        for _ in 0..self.n {
            let s = record_scan::known_line(self.format, self.text, self.t, at, state);
            let line = s.line;
            let stop = s.stop;
            self.fill_line(&self.text[at..stop], line, bytes);
            at = s.next;
            state = line.state;
        }
    }

    // The bytes and the blocks of a file whose records ascend, in one pass; the blocks as far as the lent slices go. Counts all of them.
    fn store_up(&self, bytes: &mut [u8], offsets: &mut [u64], sizes: &mut [u64]) -> usize
        requires { self.now.ascend ≡ true }
        ensures { let given = (trail self.now.format self.now.text.now self.now.n).given in
            (bytes.new ≡ filled self.now.load given bytes.old)
            × Put (blocks_given self.now.load given) 0 offsets.old sizes.old result offsets.new sizes.new }
    {
        let mut at = 0usize;
        let mut state = 0u16;
        let mut walk = START;
        for _ in 0..self.n {
            let s = record_scan::known_line(self.format, self.text, self.t, at, state);
            let line = s.line;
            let stop = s.stop;
            self.fill_line(&self.text[at..stop], line, bytes);
            walk = walk.go(self.extent(line), offsets, sizes);
            at = s.next;
            state = line.state;
        }
        walk.finish(offsets, sizes)
    }

    // The bytes and the blocks. Counts the blocks.
    fn store(
        &self,
        marked: bool,
        bytes: &mut [u8],
        offsets: &mut [u64],
        sizes: &mut [u64],
        scratch: &mut [u8],
    ) -> usize
        requires { marked ≡ true → Usable scratch.old }
        ensures { let given = (trail self.now.format self.now.text.now self.now.n).given in
            (bytes.new ≡ filled self.now.load given bytes.old)
            × Put (blocks_given self.now.load given) 0 offsets.old sizes.old result offsets.new sizes.new
            × (scratch.new ≡ scratch.old) }
    {
        if self.ascend {
            return self.store_up(bytes, offsets, sizes);
        }
        self.fill(bytes);
        self.find_blocks(marked, offsets, sizes, scratch)
    }

    // How many blocks there are: where records ascend, as many as the scan found parts; otherwise a walk writes its blocks nowhere.
    fn count_blocks(&self, marked: bool, scratch: &mut [u8]) -> usize
        requires { marked ≡ true → Usable scratch.old }
        ensures { let given = (trail self.now.format self.now.text.now self.now.n).given in
            (result ≡ length (blocks_given self.now.load given)) × (scratch.new ≡ scratch.old) }
    {
        if self.ascend {
            return self.parts as usize;
        }
        let mut offsets = [0u64; 1];
        let mut sizes = [0u64; 1];
        self.find_blocks(marked, &mut offsets, &mut sizes, scratch)
    }

    // The file's bytes and blocks, if there is room for both.
    fn take(
        &self,
        bytes: &mut [u8],
        offsets: &mut [u64],
        sizes: &mut [u64],
        scratch: &mut [u8],
    ) -> Result<u64, Refusal>
        ensures { let given = (trail self.now.format self.now.text.now self.now.n).given in
            Reads self.now.load (sound given)
            (lent bytes.old offsets.old sizes.old scratch.old) result
            (lent bytes.new offsets.new sizes.new scratch.new) }
    {
        if (bytes.len() as u64) < self.end {
            return Err(Refusal::TooShort(BYTES));
        }
        let marked = self.by_scratch(scratch);
        let count = self.count_blocks(marked, scratch);
        if offsets.len() < count || sizes.len() < count {
            return Err(Refusal::TooShort(BLOCKS));
        }
        self.store(marked, bytes, offsets, sizes, scratch);
        Ok(count as u64)
    }
}

// Reads a file of records, format 0 Intel HEX, every other number S-records, from a load address on: its bytes and its blocks, in bits, counted from that
// address; how many blocks there are, or 4, then 14 with place 0 for the bytes and 2 for the blocks, and everything lent as it was. The scratch makes it quick
// where it is zeros, and is left as it was.
pub fn read(
    format: u8,
    text: &[u8],
    load: u32,
    bytes: &mut [u8],
    offsets: &mut [u64],
    sizes: &mut [u64],
    scratch: &mut [u8],
) -> Result<u64, Refusal>
    ensures { Reads load (read_text format load text.now)
        (lent bytes.old offsets.old sizes.old scratch.old) result
        (lent bytes.new offsets.new sizes.new scratch.new) }
{
    let t = record_lines::digit_table();
    let Ok(whole) = record_scan::scan_lines(format, text, &t, load, scratch) else {
        return Err(Refusal::Malformed(0));
    };
    let file = File {
        format,
        text,
        t: &t,
        n: whole.lines,
        load,
        end: whole.high.saturating_sub(load as u64),
        ascend: whole.ascend,
        parts: whole.parts,
    };
    file.take(bytes, offsets, sizes, scratch)
}

// A file of records, read: which line is at fault. The loops stand here once for every format.
#![tactic(auto)]

ghost use Rattle.std.specs.Prelude.{◌≡◌, ◌&&◌, ◌+◌, ◌-◌, ◌*◌, ◌≤◌, ◌<◌, leb, ltb, length};
ghost use Rattle.bitvec.specs.Clear.{cleared};
ghost use Rattle.record_lines.specs.Items.{Says};
ghost use Rattle.record_lines.specs.Spelling.{Spells};
ghost use Rattle.record_scan.specs.Reading.{format_by, read_text};
ghost use Rattle.record_scan.specs.Trail.{trail, line_at};
ghost use Rattle.record_scan.specs.Steps.{first_by, IsGood, AllGood, long_by, stop_by, Stepped, leaves_by, highest, ScanIs};
ghost use Rattle.record_scan.specs.Steps.{lower_by, RoomAbove, RoomIs, FreeIs, free_by, AdmitIs, begins_by, looks_by, walk_of, WalkIs, scan_of};
ghost use Rattle.record_scan.specs.Outcome.{fault_of};
ghost use Rattle.record_scan.specs.Windows.{all_zero, window_end, Nearer, Windowed, FirstTwice};

use record_lines::Line;

// A line that was read, where its characters end, and where the next one begins.
#[derive(Clone, Copy)]
pub struct Step {
    pub line: Line,
    pub stop: usize,
    pub next: usize,
}

// A file: its format, its text, and a table that spells the digits.
#[derive(Clone, Copy)]
struct File<'a> {
    format: u8,
    text: &'a [u8],
    t: &'a [u8; 256],
    ghost spells: { Spells t.now },
}

// What is known to be free between the lines that were read: nothing is given below `low`, and nothing from `edge` on and below `top`.
#[derive(Clone, Copy)]
pub struct Free {
    pub low: u64,
    pub edge: u64,
    pub top: u64,
}

impl Free {
    // Whether bytes lie in the gap.
    fn holds(self, first: u64, end: u64) -> bool
        ensures { result ≡ (leb self.edge first && leb end self.top) }
    {
        self.edge <= first && end <= self.top
    }

    // What is free behind a line that may stand.
    fn after(self, top: u64, line: Line) -> Free
        ensures { result ≡ free_by self top line.kind line.address line.count }
    {
        if line.kind != record_lines::DATA || line.count == 0 {
            return Free { top, ..self };
        }
        let first = line.address as u64;
        Free {
            low: self.low.min(first),
            edge: first + line.count as u64,
            top,
        }
    }
}

// A window of addresses that was marked: the first line that gives a byte in it twice, or how many lines there are; and the lowest address behind it that
// is given, `NOWHERE` for none.
#[derive(Clone, Copy)]
pub struct Window {
    pub line: usize,
    pub next: u64,
}

// How far a walk over the lines came: how many it passed, and whether it is sure that they give no byte twice. If they do not, the file is `whole`, with what
// `Whole` tells of it, or at fault in line `line`.
#[derive(Clone, Copy)]
pub struct Walk {
    pub lines: usize,
    pub sure: bool,
    pub whole: bool,
    pub line: usize,
    pub high: u64,
    pub ascend: bool,
    pub parts: u64,
}

// No address is as high.
const NOWHERE: u64 = 8_589_934_592;

// The room above bytes where it is not looked for.
const UNKNOWN: u64 = 8_589_934_593;

// What is free before the first line: everything. And a walk that has passed none.
const NOTHING_GIVEN: Free = Free {
    low: NOWHERE,
    edge: NOWHERE,
    top: NOWHERE,
};

const START: Walk = Walk {
    lines: 0,
    sure: true,
    whole: false,
    line: 0,
    high: 0,
    ascend: true,
    parts: 0,
};

// So many parts are held against the lines before them by reading those again, before scratch is used.
const FEW: u64 = 16;

// A sound file: how many lines stand before its end record, the highest end of its bytes, whether its records ascend, and how many of those with bytes do not
// begin where the one before them ends.
#[derive(Clone, Copy)]
pub struct Whole {
    pub lines: usize,
    pub high: u64,
    pub ascend: bool,
    pub parts: u64,
}

// What a line says in a format: 0 is Intel HEX, every other number S-records.
fn line_in(format: u8, line: &[u8], t: &[u8; 256], state: u16) -> Line
    ensures { Spells t.now
        → Says line.now state (first_by format line.now) result (format_by format state line.now) }
{
    if format == 0 {
        return record_ihex_line::line_of(line, t, state);
    }
    record_srec_line::line_of(line, t, state)
}

// The same of a line that is not bad.
fn known_in(format: u8, line: &[u8], t: &[u8; 256], state: u16) -> Line
    requires spells { Spells t.now }
    requires good { IsGood format state line.now }
    ensures { Says line.now state (first_by format line.now) result (format_by format state line.now) }
{
    if format == 0 {
        return record_ihex_line::known_line(line, t, state);
    }
    record_srec_line::known_line(line, t, state)
}

// How long a line is by its count; 4 characters of it are there.
fn long_by(format: u8, text: &[u8], t: &[u8; 256], at: usize) -> usize
    requires spells { Spells t.now }
    requires at_in_bounds { at + 3 < length text.now }
    ensures { (result ≡ long_by format text.now at) × (result ≤ 521) }
{
    if format == 0 {
        let i = at + 1;
        let bytes = record_lines::pair_of(t, text[i], text[i + 1]) as usize;
        return 11 + 2 * bytes;
    }
    let j = at + 2;
    let bytes = record_lines::pair_of(t, text[j], text[j + 1]) as usize;
    4 + 2 * bytes
}

// Where the line that begins at a place ends by its count, or the end of the text.
fn stop_by(format: u8, text: &[u8], t: &[u8; 256], at: usize) -> usize
    requires spells { Spells t.now }
    requires at_in_bounds { at ≤ length text.now }
    ensures { (result ≡ stop_by format text.now at) × (at ≤ result) × (result ≤ length text.now) }
{
    let left = text.len() - at;
    if left < 4 {
        return text.len();
    }
    at + record_lines::least(long_by(format, text, t, at), left)
}

// The line that begins at a place, whose end is searched for, by a table that spells the digits; behind the text it is empty.
pub fn search_line(format: u8, text: &[u8], t: &[u8; 256], at: usize, state: u16) -> Step
    ensures { Spells t.now → Stepped format text.now at state result }
{
    let cut = record_lines::line_from(text, at);
    let stop = cut.stop;
    let end = stop.min(text.len());
    let start = at.min(end);
    let line = line_in(format, &text[start..end], t, state);
    Step {
        line,
        stop,
        next: cut.next,
    }
}

// The line that begins at a place. A good one ends where its count says, so that its end is searched for only where that is none, or the line bad.
fn take_line(format: u8, text: &[u8], t: &[u8; 256], at: usize, state: u16) -> Step
    requires spells { Spells t.now }
    requires at_in_bounds { at ≤ length text.now }
    ensures { Stepped format text.now at state result }
{
    let stop = stop_by(format, text, t, at);
    let width = record_lines::end_at(text, stop);
    if width == record_lines::NO_END {
        return search_line(format, text, t, at, state);
    }
    let line = line_in(format, &text[at..stop], t, state);
    if line.kind == record_lines::BAD {
        return search_line(format, text, t, at, state);
    }
    Step {
        line,
        stop,
        next: stop + width as usize,
    }
}

// The line that begins at a place, where it is known not to be bad: its digits are not looked at again.
pub fn known_line(format: u8, text: &[u8], t: &[u8; 256], at: usize, state: u16) -> Step
    requires spells { Spells t.now }
    requires at_in_bounds { (at ≤ length text.now) × IsGood format state (line_at text.now at) }
    ensures { Stepped format text.now at state result }
{
    let stop = stop_by(format, text, t, at);
    let width = record_lines::end_at(text, stop);
    let line = known_in(format, &text[at..stop], t, state);
    Step {
        line,
        stop,
        next: stop + width as usize,
    }
}

// Whether a line gives no byte from `first` on and below `end`.
pub fn leaves(kind: u8, address: u32, count: u8, first: u64, end: u64) -> bool
    ensures { result ≡ leaves_by kind address count first end }
{
    let start = address as u64;
    kind != record_lines::DATA || count == 0 || start + count as u64 <= first || end <= start
}

// How far up from `end` nothing is given, with one line more; 0 where it gives a byte from `first` on and below `end`.
fn lower(top: u64, line: Line, first: u64, end: u64) -> u64
    ensures { result ≡ lower_by top line.kind line.address line.count first end }
{
    if !leaves(line.kind, line.address, line.count, first, end) {
        return 0;
    }
    if leaves(line.kind, line.address, line.count, end, top) {
        return top;
    }
    line.address as u64
}

// 1 for a line with bytes that does not begin at `edge`.
fn begins(line: Line, edge: u64) -> u64
    ensures { (result ≡ begins_by line.kind line.address line.count edge) × (result ≤ 1) }
{
    if line.kind != record_lines::DATA || line.count == 0 || line.address as u64 == edge {
        return 0;
    }
    1
}

// Whether the lines before one are read again.
fn looks(strict: bool, parts: u64) -> bool
    ensures { result ≡ looks_by strict parts }
{
    strict || parts < FEW
}

// What a walk found.
fn scan_of(w: Walk) -> Result<Whole, usize>
    ensures { result ≡ scan_of w }
{
    if w.whole {
        return Ok(Whole {
            lines: w.lines,
            high: w.high,
            ascend: w.ascend,
            parts: w.parts,
        });
    }
    Err(w.line)
}

// Whether all scratch is 0.
pub fn all_zero(scratch: &[u8]) -> bool
    ensures { result ≡ all_zero scratch.now }
{
    scratch.iter().all(|b| *b == 0)
}

// Where a window of some bytes of scratch ends.
fn window_end(low: u64, bytes: u64) -> u64
    ensures { result ≡ window_end low bytes }
{
    low.saturating_add(bytes.saturating_mul(8)).min(NOWHERE)
}

// The lowest address from `top` on that is given, with a line's bytes.
fn nearer(next: u64, first: u64, end: u64, top: u64) -> u64
    ensures { Nearer next first end top result }
{
    let start = first.max(top);
    if end <= start {
        return next;
    }
    next.min(start)
}

// Marks the addresses from `low` on that the first n lines give, up to the first line that gives one of them twice.
pub fn mark_window(
    format: u8,
    text: &[u8],
    t: &[u8; 256],
    n: usize,
    low: u64,
    scratch: &mut [u8],
) -> Window
    requires spells { Spells t.now × AllGood format text.now n }
    requires low_bound { (low ≤ 8589934592) × (scratch.old ≡ cleared scratch.old) }
    ensures { Windowed format text.now n low scratch.old scratch.new result }
{
    let top = window_end(low, scratch.len() as u64);
    let mut at = 0usize;
    let mut state = 0u16;
    let mut next = NOWHERE;
    for k in 0..n {
        let s = known_line(format, text, t, at, state);
        let line = s.line;
        let first = line.address as u64;
        let end = first + line.count as u64;
        let from = first.saturating_sub(low);
        let stop = end.saturating_sub(low);
        if bitvec::any_one(scratch, from, stop) {
            return Window { line: k, next };
        }
        bitvec::set_ones(scratch, from, stop);
        next = nearer(next, first, end, top);
        at = s.next;
        state = line.state;
    }
    Window { line: n, next }
}

impl File<'_> {
    // How far up from `end` nothing is among the bytes that the first n lines give; 0 where one from `first` on and below `end` is.
    fn room_above(&self, n: usize, first: u64, end: u64) -> u64
        requires { AllGood self.now.format self.now.text.now n × (first < end) }
        ensures { RoomAbove (trail self.now.format self.now.text.now n).given first end result }
    {
        let mut at = 0usize;
        let mut state = 0u16;
        let mut top = NOWHERE;
        for _ in 0..n {
            let s = known_line(self.format, self.text, self.t, at, state);
            let line = s.line;
            top = lower(top, line, first, end);
            at = s.next;
            state = line.state;
        }
        top
    }

    // The same, where it is known what is free: the lines before are read again only where the bytes lie neither there nor above all others, and only
    // if `look`.
    fn room_known(&self, n: usize, first: u64, end: u64, high: u64, free: Free, look: bool) -> u64
        requires good { AllGood self.now.format self.now.text.now n × (first < end) }
        requires high_value { let given = (trail self.now.format self.now.text.now n).given in (high ≡ highest given) × FreeIs given free }
        ensures { RoomIs look (trail self.now.format self.now.text.now n).given first end result }
    {
        if high <= first {
            return NOWHERE;
        }
        if end <= free.low {
            return free.low;
        }
        if free.holds(first, end) {
            return free.top;
        }
        if look {
            return self.room_above(n, first, end);
        }
        UNKNOWN
    }

    // The highest end of the bytes given behind line n if it may stand where it does, and how far up from its own end nothing is given; 0 where it was not
    // looked for whether its bytes are new.
    fn may_stand(
        &self,
        n: usize,
        load: u32,
        line: Line,
        high: u64,
        free: Free,
        look: bool,
    ) -> Option<(u64, u64)>
        requires good { AllGood self.now.format self.now.text.now n }
        requires high_value { let given = (trail self.now.format self.now.text.now n).given in (high ≡ highest given) × FreeIs given free }
        ensures { AdmitIs look load (trail self.now.format self.now.text.now n).given line.kind line.address line.count high free.edge result }
    {
        if line.kind == record_lines::PASS {
            return Some((high, free.top));
        }
        if line.kind != record_lines::DATA {
            return None;
        }
        if line.count == 0 {
            return Some((high, free.top));
        }
        let first = line.address as u64;
        let end = first + line.count as u64;
        if first < load as u64 {
            return None;
        }
        if end > 4_294_967_296 {
            return None;
        }
        let top = self.room_known(n, first, end, high, free, look);
        if top == 0 {
            return None;
        }
        if top == UNKNOWN {
            return Some((high.max(end), 0));
        }
        Some((high.max(end), top))
    }

    // Walks over the lines up to the end record, or to the first at fault. If not `strict`, lines that jump are read again only while there are few parts.
    fn walk(&self, load: u32, strict: bool) -> Walk
        ensures { WalkIs self.now.format load self.now.text.now strict result }
    {
        let mut at = 0usize;
        let mut state = 0u16;
        let mut free = NOTHING_GIVEN;
        let mut walk = START;
        // stays: a line tells where the next one begins, which no range or slice gives
        while at < self.text.len() {
            let s = take_line(self.format, self.text, self.t, at, state);
            let line = s.line;
            if line.kind == record_lines::END {
                return Walk {
                    whole: self.text.len() <= s.next,
                    line: walk.lines + 1,
                    ..walk
                };
            }
            let look = looks(strict, walk.parts);
            let Some((high, top)) = self.may_stand(walk.lines, load, line, walk.high, free, look)
            else {
                return walk;
            };
            // all of its bytes lie at or above the highest end
            walk.ascend &= leaves(line.kind, line.address, line.count, 0, walk.high);
            walk.sure &= 0 < top;
            walk.parts += begins(line, free.edge);
            walk.high = high;
            walk.lines += 1;
            walk.line += 1;
            free = free.after(top, line);
            at = s.next;
            state = line.state;
        }
        walk
    }

    // The first of n lines that gives a byte which a line before it gave, or n: window after window, the scratch 0 again behind each.
    fn first_twice(&self, n: usize, scratch: &mut [u8]) -> usize
        requires good { AllGood self.now.format self.now.text.now n }
        requires scratch_nonzero { (0 < length scratch.old) × (scratch.old ≡ cleared scratch.old) }
        ensures { FirstTwice self.now.format self.now.text.now n result × (scratch.new ≡ scratch.old) }
    {
        let mut low = 0u64;
        let mut limit = n;
        // stays: a window begins where the one before it tells, which no range gives
        while low < NOWHERE {
            let w = mark_window(self.format, self.text, self.t, limit, low, scratch);
            bitvec::clear(scratch);
            limit = w.line;
            low = w.next;
        }
        limit
    }
}

// Whether scratch can be used.
fn usable(scratch: &[u8]) -> bool
    ensures { result ≡ (ltb 0 (length scratch.now) && all_zero scratch.now) }
{
    !scratch.is_empty() && all_zero(scratch)
}

// Reads the lines up to the end record, or to the first at fault. Scratch is used where many lines jump, if there is any and all of it is 0, and is 0 again
// behind the call; without it each line that jumps has the lines before it read again.
pub fn scan_lines(
    format: u8,
    text: &[u8],
    t: &[u8; 256],
    load: u32,
    scratch: &mut [u8],
) -> Result<Whole, usize>
    requires { Spells t.now }
    ensures { ScanIs format load text.now result × (scratch.new ≡ scratch.old) }
{
    let file = File { format, text, t };
    let w = file.walk(load, false);
    if w.sure {
        return scan_of(w);
    }
    if !usable(scratch) {
        return scan_of(file.walk(load, true));
    }
    let line = file.first_twice(w.lines, scratch);
    if line < w.lines {
        return Err(line);
    }
    scan_of(w)
}

// The line at fault of a file that is read from a load address on. The scratch is as it was behind the call.
pub fn line_at_fault(format: u8, text: &[u8], load: u32, scratch: &mut [u8]) -> Option<u64>
    ensures { (result ≡ fault_of (read_text format load text.now)) × (scratch.new ≡ scratch.old) }
{
    let t = record_lines::digit_table();
    match scan_lines(format, text, &t, load, scratch) {
        Ok(_) => None,
        Err(line) => Some(line as u64),
    }
}

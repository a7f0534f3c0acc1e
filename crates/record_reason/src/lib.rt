// Why a file of records is bad: the line at fault, a reason, and two numbers that go with it.
#![tactic(auto)]

mod spelling;

ghost use Rattle.std.specs.Prelude.{◌≡◌, ◌+◌, ◌<◌, min, eqb};
ghost use Rattle.prelude.specs.Pick.{pick};
ghost use Rattle.record_lines.specs.Spelling.{Spells};
ghost use Rattle.record_scan.specs.Reading.{read_text};
ghost use Rattle.record_reason.specs.Spelling.{cause_of};
ghost use Rattle.record_reason.specs.Reasons.{item_of, address_in, giver, lowest, span_cause, line_cause, cause_at, told_of, why_of, Placed};

use record_lines::Line;

// The reasons, in the order in which they are looked for in a line.
const NO_START: u64 = 1;

const NO_DIGIT: u64 = 2;

const LENGTH: u64 = 3;

const COUNT: u64 = 4;

const CHECKSUM: u64 = 5;

const TYPE: u64 = 6;

const WIDTH: u64 = 7;

const FIELD: u64 = 8;

const PAST: u64 = 9;

const BELOW: u64 = 10;

const TWICE: u64 = 11;

const BEHIND: u64 = 12;

const NO_END: u64 = 13;

// What is wrong with a line: a reason, 0 for none, and two numbers.
#[derive(Clone, Copy)]
pub struct Cause {
    pub reason: u64,
    pub first: u64,
    pub second: u64,
}

// The same with the line, from 0. A file that is good has zeros.
#[repr(C)]
#[derive(Clone, Copy)]
pub struct Why {
    pub reason: u64,
    pub line: u64,
    pub first: u64,
    pub second: u64,
}

impl Cause {
    // The same of a line.
    fn of_line(self, line: u64) -> Why
        ensures { result ≡ told_of line self }
    {
        Why {
            reason: self.reason,
            line,
            first: self.first,
            second: self.second,
        }
    }
}

// Nothing is wrong.
const NOTHING: Cause = Cause {
    reason: 0,
    first: 0,
    second: 0,
};

// A file: its format, its text, a table that spells the digits, and the address that it is read from.
#[derive(Clone, Copy)]
struct File<'a> {
    format: u8,
    text: &'a [u8],
    t: &'a [u8; 256],
    load: u32,
    ghost spells: { Spells t.now },
}

// Where a line begins, the state that is in force there, and whether the line before it is the end record.
#[derive(Clone, Copy)]
pub struct Place {
    pub at: usize,
    pub state: u16,
    pub ended: bool,
}

fn made(reason: u64, first: u64, second: u64) -> Cause
    ensures { result ≡ cause_of reason first second }
{
    Cause {
        reason,
        first,
        second,
    }
}

// The lower of an address and a line's, if it gives a byte.
fn lower_of(line: Line, low: u64) -> u64
    ensures { result ≡ pick (eqb line.kind 1) (pick (eqb line.count 0) low (min line.address low)) low }
{
    if line.kind != record_lines::DATA || line.count == 0 {
        return low;
    }
    low.min(line.address as u64)
}

impl File<'_> {
    // Line n: a walk over those before it.
    fn place_of(&self, n: u64) -> Place
        ensures { Placed self.now.format self.now.text.now n result }
    {
        let mut at = 0usize;
        let mut state = 0u16;
        let mut ended = false;
        for _ in 0..n {
            let s = record_scan::search_line(self.format, self.text, self.t, at, state);
            let line = s.line;
            ended = line.kind == record_lines::END;
            at = s.next;
            state = line.state;
        }
        Place { at, state, ended }
    }

    // The first line, of the n first, that gives a byte from `first` on and below `end`; n where none does.
    fn first_giver(&self, n: u64, first: u64, end: u64) -> u64
        ensures { result ≡ giver self.now.format self.now.text.now first end n }
    {
        let mut at = 0usize;
        let mut state = 0u16;
        for k in 0..n {
            let s = record_scan::search_line(self.format, self.text, self.t, at, state);
            let line = s.line;
            if !record_scan::leaves(line.kind, line.address, line.count, first, end) {
                return k;
            }
            at = s.next;
            state = line.state;
        }
        n
    }

    // The address that line n gives bytes from.
    fn address_at(&self, n: u64) -> u32
        ensures { result ≡ address_in (item_of self.now.format self.now.text.now n) }
    {
        let p = self.place_of(n);
        let s = record_scan::search_line(self.format, self.text, self.t, p.at, p.state);
        let line = s.line;
        line.address
    }

    // The lowest address that the file gives a byte at.
    fn lowest(&self) -> u64
        ensures { result ≡ lowest self.now.format self.now.text.now }
    {
        let mut at = 0usize;
        let mut state = 0u16;
        let mut low = 4_294_967_296u64;
        // stays: a line tells where the next one begins, which no range or slice gives
        while at < self.text.len() {
            let s = record_scan::search_line(self.format, self.text, self.t, at, state);
            let line = s.line;
            low = lower_of(line, low);
            at = s.next;
            state = line.state;
        }
        low
    }

    // What is wrong with the addresses of line n, whose `many` bytes begin at `start`.
    fn span_cause(&self, n: u64, start: u64, many: u64, top: u64) -> Cause
        requires { (start < 4294967296) × (many < 256) × (0 < top) }
        ensures { result ≡ span_cause self.now.format self.now.load self.now.text.now n start many top }
    {
        let end = start + many;
        if top < end {
            return made(PAST, end - 1, top - 1);
        }
        if start < self.load as u64 {
            return made(BELOW, start, self.lowest());
        }
        let first = self.first_giver(n, start, end);
        made(TWICE, first, start.max(self.address_at(first) as u64))
    }

    // What is wrong with line n, by its characters and what is in force there.
    fn line_cause(&self, n: u64, state: u16, line: &[u8]) -> Cause
        ensures { result ≡ line_cause self.now.format self.now.load self.now.text.now n state line.now }
    {
        let own = spelling::own_cause(self.format, line, state);
        if own.reason != 0 {
            return own;
        }
        let start = spelling::start_of(self.format, line, state);
        let many = spelling::many_of(self.format, line);
        self.span_cause(n, start, many, spelling::top_of(self.format, line))
    }

    // Why line n is at fault.
    fn cause_at(&self, n: u64) -> Cause
        ensures { result ≡ cause_at self.now.format self.now.load self.now.text.now n }
    {
        let p = self.place_of(n);
        if p.ended {
            return made(BEHIND, 0, 0);
        }
        let at = p.at;
        if self.text.len() <= at {
            return made(NO_END, 0, 0);
        }
        let state = p.state;
        let s = record_scan::search_line(self.format, self.text, self.t, at, state);
        let stop = s.stop;
        self.line_cause(n, state, &self.text[at..stop])
    }
}

// The line at fault of a file that is read from a load address on, and why. The scratch is as it was behind the call.
pub fn reason_of(format: u8, text: &[u8], load: u32, scratch: &mut [u8]) -> Why
    ensures { (result ≡ why_of format load text.now (read_text format load text.now)) × (scratch.new ≡ scratch.old) }
{
    match record_scan::line_at_fault(format, text, load, scratch) {
        None => NOTHING.of_line(0),
        Some(line) => {
            let t = record_lines::digit_table();
            let file = File {
                format,
                text,
                t: &t,
                load,
            };
            file.cause_at(line).of_line(line)
        }
    }
}

// Where the bytes of a file of records stand: the lowest address that it gives a byte to, and the first behind the highest.
#![tactic(auto)]

ghost use Rattle.std.specs.Prelude.{◌≡◌, min, eqb};
ghost use Rattle.prelude.specs.Pick.{pick};
ghost use Rattle.record_lines.specs.Spelling.{Spells};
ghost use Rattle.record_scan.specs.Reading.{read_text};
ghost use Rattle.record_scan.specs.Trail.{trail};
ghost use Rattle.record_scan.specs.Steps.{AllGood};
ghost use Rattle.record_extent.specs.Extent.{lowest_of, extent_of};

use prelude::Refusal;

// The lowest address and the first behind the highest, both 0 for a file that gives no byte.
#[derive(Clone, Copy)]
pub struct Extent {
    pub lowest: u64,
    pub end: u64,
}

// The first address that there is not.
const NOWHERE: u64 = 4_294_967_296;

// The lower of an address and a line's, if it gives a byte. (Only lines with bytes have a count.)
fn lower(low: u64, address: u32, count: u8) -> u64
    ensures { result ≡ pick (eqb count 0) low (min low address) }
{
    if count == 0 {
        return low;
    }
    low.min(u64::from(address))
}

// The lowest address that the first n lines give a byte to.
fn lowest(format: u8, text: &[u8], t: &[u8; 256], n: usize) -> u64
    requires { Spells t.now × AllGood format text.now n }
    ensures { result ≡ lowest_of (trail format text.now n).given }
{
    let mut at = 0usize;
    let mut state = 0u16;
    let mut low = NOWHERE;
    for _ in 0..n {
        let s = record_scan::known_line(format, text, t, at, state);
        let line = s.line;
        low = lower(low, line.address, line.count);
        at = s.next;
        state = line.state;
    }
    low
}

// The extent of a file, format 0 Intel HEX, every other number S-records. It is read from address 0 on, so that nothing lies below. The scratch makes it quick
// where it is zeros, and is as it was behind the call.
pub fn extent_of(format: u8, text: &[u8], scratch: &mut [u8]) -> Result<Extent, Refusal>
    ensures { (result ≡ extent_of (read_text format 0 text.now)) × (scratch.new ≡ scratch.old) }
{
    let t = record_lines::digit_table();
    let Ok(whole) = record_scan::scan_lines(format, text, &t, 0, scratch) else {
        return Err(Refusal::Malformed(0));
    };
    let end = whole.high;
    if end == 0 {
        return Ok(Extent { lowest: 0, end: 0 });
    }
    Ok(Extent {
        lowest: lowest(format, text, &t, whole.lines),
        end,
    })
}

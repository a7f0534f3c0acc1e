// The public build: the passes, the first walk, then, once nothing can be refused any more, the second.
ghost use Rattle.std.specs.Prelude.{◌≡◌, true, ℕ, ◌+◌, ◌*◌, ◌-◌, ◌≤◌, ◌<◌, min, ltb, length};
ghost use Rattle.prelude.specs.Limits.{max_nodes, max_rows};
ghost use Rattle.bankdef.specs.Check.{banks_of};
ghost use Rattle.bankdef.specs.Fill.{fill_by};
ghost use Rattle.nodes.specs.Lists.{lists, row_with};
ghost use Rattle.resolver.specs.Switches.{Switches};
ghost use Rattle.resolver.specs.Once.{program_with};
ghost use Rattle.build_visits.specs.Visits.{visits};
ghost use Rattle.build_visits.specs.Items.{items_of};
ghost use Rattle.build_plan.specs.Placing.{closes_default};
ghost use Rattle.output.specs.Output.{input, lent, refused_after, Builds};
ghost use Rattle.build_plan.specs.Plan.{max_end};
ghost use Rattle.output.specs.Steps.{InValues, room_verdict, RowBuilt};

use crate::{Built, Output};
use bankdef::Bankdefs;
use build_plan::{closes_default, plan_row};
use build_write::write_row;
use iter::Lost;
use prelude::Refusal;
use resolver::Choices;

// Whether an image of so many bytes has fewer bits. Whole bytes are compared, so that no product can wrap.
fn lacks_bytes(bytes: u64, bits: u64) -> bool
    requires { bits ≤ max_end }
    ensures { result ≡ ltb (8 * bytes) bits }
{
    bytes < bits.div_ceil(8)
}

// A refused build. It tells no bank's padding.
fn refused(why: Refusal, passes: u64) -> Output
    ensures { result ≡ refused_after passes why }
{
    let none = Lost { bits: 0, units: 0 };
    Output {
        build: Err(why),
        passes,
        padding: [none; 16],
    }
}

// "14 comes last: image, then spans." Whether there is room, for the image in bytes and for the spans in places.
fn room_for(bytes: u64, places: u64, bits: u64, spans: u64) -> Result<(), Refusal>
    requires { bits ≤ max_end }
    ensures { result ≡ room_verdict bytes places bits spans }
{
    if lacks_bytes(bytes, bits) {
        return Err(Refusal::TooShort(0));
    }
    if places < spans {
        return Err(Refusal::TooShort(1));
    }
    Ok(())
}

// The build over the row of the last pass.
fn build_row(
    banks: Bankdefs,
    kinds: &[u8],
    operands: &[u32],
    first: &[u32],
    numbers: &[u32],
    states: &[u8],
    values: &[u8],
    k: u64,
    passes: u64,
    choices: Choices,
    image: &mut [u8],
    addresses: &mut [i64],
    offsets: &mut [u64],
    sizes: &mut [u64],
) -> Output
    requires kinds_len_bound { length kinds.now ≤ max_nodes }
    requires switches { Switches banks.len kinds.now operands.now }
    requires in_values { InValues (length values.now)
        (items_of (visits (program_with banks kinds.now operands.now first.now) (row_with numbers.now states.now))) }
    ensures { RowBuilt (program_with banks kinds.now operands.now first.now)
        (row_with numbers.now states.now) (closes_default banks.len choices.closed)
        (fill_by choices.fill (banks_of banks)) k passes values.now
        (lent image.old addresses.old offsets.old sizes.old) result
        (lent image.new addresses.new offsets.new sizes.new) }
{
    let fill = bankdef::fill_length(banks, choices.fill);
    let closed = closes_default(banks.len, choices.closed);
    let plan = plan_row(banks, kinds, operands, first, numbers, states, closed, fill);
    if let Err(why) = plan.verdict {
        return refused(why, passes);
    }
    let length = plan.length;
    let spans = plan.spans;
    let places = addresses.len().min(offsets.len().min(sizes.len()));
    if let Err(why) = room_for(image.len() as u64, places as u64, length, spans) {
        return refused(why, passes);
    }
    write_row(
        banks, kinds, operands, first, numbers, states, values, length, image, addresses, offsets,
        sizes,
    );
    let padding = plan.padding;
    Output {
        build: Ok(Built { k, length, spans }),
        passes,
        padding,
    }
}

// Where the row of a pass begins in the lists. "Pass n reads row n, or the last row if there are fewer." Rows are counted from 0.
pub fn row_start(rows: u64, passes: u64, n: usize) -> usize
    requires { (1 ≤ rows) × (rows ≤ max_rows) × (n ≤ max_nodes) }
    ensures value { result ≡ (min passes rows - 1) * n }
    ensures n_bound { result + n ≤ rows * n }
{
    (passes.min(rows).saturating_sub(1) as usize) * n
}

// The build: the answer of document 01, and, accepted, the image and the spans. A refused build changes nothing that is lent.
pub fn build_output(
    banks: Bankdefs,
    kinds: &[u8],
    operands: &[u32],
    numbers: &[u32],
    states: &[u8],
    rows: u64,
    values: &[u8],
    choices: Choices,
    image: &mut [u8],
    addresses: &mut [i64],
    offsets: &mut [u64],
    sizes: &mut [u64],
) -> Output
    ensures { Builds
        (input banks
        (lists kinds.now operands.now numbers.now states.now rows values.now)
        choices)
        (lent image.old addresses.old offsets.old sizes.old) result
        (lent image.new addresses.new offsets.new sizes.new) }
{
    let resolution = resolver::resolve(
        banks, kinds, operands, numbers, states, rows, values, choices,
    );
    let passes = resolution.passes;
    match resolution.settled {
        Err(why) => refused(why, passes),
        Ok(k) => {
            let n = kinds.len();
            let a = row_start(rows, passes, n);
            let e = a + n;
            build_row(
                banks,
                kinds,
                operands,
                &numbers[0..n],
                &numbers[a..e],
                &states[a..e],
                values,
                k,
                passes,
                choices,
                image,
                addresses,
                offsets,
                sizes,
            )
        }
    }
}

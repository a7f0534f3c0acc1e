// The second walk over a row, which writes: the image's bits and the spans, once everything is decided.
#![tactic(auto)]

mod blank;

ghost use Rattle.std.specs.Prelude.{◌≡◌, true, ◌+◌, ◌<◌, length, set};
ghost use Rattle.prelude.specs.Pick.{pick};
ghost use Rattle.bankdef.specs.Check.{banks_of};
ghost use Rattle.blocks.specs.Offsets.{word_of};
ghost use Rattle.iter.specs.Address.{address_of};
ghost use Rattle.iter.specs.Step.{start_of};
ghost use Rattle.resolver.specs.Once.{walk_to, program_with};
ghost use Rattle.resolver.specs.Switches.{Switches};
ghost use Rattle.nodes.specs.Kinds.{size_of};
ghost use Rattle.nodes.specs.Lists.{row_with};
ghost use Rattle.build_visits.specs.Items.{item_at, items_of, image_of};
ghost use Rattle.build_visits.specs.Spans.{is_span, address_told, spans_of, over, addresses as addresses_of, words as words_of, sizes as sizes_of};
ghost use Rattle.build_visits.specs.Visits.{visits};
ghost use Rattle.build_write.specs.Blank.{blank_of};
ghost use Rattle.build_write.specs.Writes.{Fit, HasRoom};

use crate::blank::lay_blank;
use bankdef::{Bankdef, Bankdefs};
use iter::{Walk, bank_after, get_output_position, lost_after, pace, start};
use nodes::{Node, is_span, is_written, node_at, size_of};

// A written item's bits, at its place in the image; any other node leaves the image as it is.
fn write_item(node: Node, out: Option<u64>, values: &[u8], image: &mut [u8])
    requires { Fit (length values.now) (length image.old) (item_at node out) }
    ensures { image.new ≡ image_of values.now image.old (item_at node out) }
{
    if !is_written(node.kind) {
        return;
    }
    if let Some(o) = out {
        let _ = bitvec::write_bits(
            image,
            o,
            values,
            u64::from(node.operand),
            u64::from(node.number),
        );
    }
}

// The address of the position that a node sees, in whole units. A sound table has one for every bank, and an accepted walk one
// for every node.
fn address_of(def: Bankdef, position: u32, index: u64) -> i64
    ensures { result ≡ address_told (address_of def position index) }
{
    match iter::get_address(def, position, index) {
        Ok(address) => address,
        Err(_) => 0,
    }
}

// Node's span into each of the three lists, at `count`, where the node has one. Answers how many there are then.
fn put_span(
    node: Node,
    def: Bankdef,
    position: u32,
    out: Option<u64>,
    count: usize,
    addresses: &mut [i64],
    offsets: &mut [u64],
    sizes: &mut [u64],
) -> usize
    requires { is_span node ≡ true → (count < length addresses.old) × (count < length offsets.old) × (count < length sizes.old) }
    ensures count { result ≡ pick (is_span node) (count + 1) count }
    ensures addresses { addresses.new ≡ pick (is_span node)
        (set addresses.old count (address_told (address_of def position node.index))) addresses.old }
    ensures offsets { offsets.new ≡ pick (is_span node) (set offsets.old count (word_of out)) offsets.old }
    ensures sizes { sizes.new ≡ pick (is_span node) (set sizes.old count (size_of node)) sizes.old }
{
    if !is_span(node.kind) {
        return count;
    }
    addresses[count] = address_of(def, position, node.index);
    offsets[count] = blocks::word_of(out);
    sizes[count] = u64::from(size_of(node));
    count + 1
}

// The walk over a row that writes, each written item's bits into the image and the spans into their lists, in node order. "bank positions, an array of 16 in
// the walk's state": the walk comes by value, each step is stored into it, and it goes back as the row leaves it. The first walk has met every refusal: a
// position that is seen is all that is asked of a step.
fn write_walk(
    banks: Bankdefs,
    kinds: &[u8],
    operands: &[u32],
    first: &[u32],
    numbers: &[u32],
    states: &[u8],
    begun: Walk,
    values: &[u8],
    image: &mut [u8],
    addresses: &mut [i64],
    offsets: &mut [u64],
    sizes: &mut [u64],
) -> Walk
    requires switches { Switches banks.len kinds.now operands.now }
    requires has_room { HasRoom (visits (program_with banks kinds.now operands.now first.now) (row_with numbers.now states.now)) (length values.now)
        (length image.old) (length addresses.old) (length offsets.old) (length sizes.old) }
    requires begun_value { begun ≡ start_of }
    ensures walk { result ≡ walk_to (program_with banks kinds.now operands.now first.now)
        (row_with numbers.now states.now) (length kinds.now) }
    ensures image { image.new ≡ image_of values.now image.old
        (items_of (visits (program_with banks kinds.now operands.now first.now)
        (row_with numbers.now states.now))) }
    ensures addresses { addresses.new ≡ over (addresses_of (spans_of (visits (program_with banks kinds.now operands.now first.now)
        (row_with numbers.now states.now))))
        addresses.old }
    ensures offsets { offsets.new ≡ over (words_of (spans_of (visits (program_with banks kinds.now operands.now first.now)
        (row_with numbers.now states.now))))
        offsets.old }
    ensures sizes { sizes.new ≡ over (sizes_of (spans_of (visits (program_with banks kinds.now operands.now first.now)
        (row_with numbers.now states.now))))
        sizes.old }
{
    let mut walk = begun;
    let mut count = 0;
    // stays: node i is read from five lists at once; a zip of five is no plainer
    for i in 0..kinds.len() {
        let node = node_at(kinds, operands, first, numbers, states, i);
        let bank = bank_after(walk.bank, node);
        let def = banks.defs[bank as usize];
        let step = pace(def, walk.at[bank as usize], node);
        let now = step.seen;
        let out = get_output_position(def, now.position);
        write_item(node, out, values, image);
        count = put_span(
            node,
            def,
            now.position,
            out,
            count,
            addresses,
            offsets,
            sizes,
        );
        let after = step.after;
        walk.at[bank as usize] = after;
        walk.bank = bank;
        if step.skipped.bits == 0 {
            continue;
        }
        let lost = lost_after(walk.lost[bank as usize], step.skipped);
        walk.lost[bank as usize] = lost;
    }
    walk
}

// What a row leaves in everything lent: the image, the blank one and each written item's bits in it; and the spans, in node order, where the lists keep
// their old contents past them.
pub fn write_row(
    banks: Bankdefs,
    kinds: &[u8],
    operands: &[u32],
    first: &[u32],
    numbers: &[u32],
    states: &[u8],
    values: &[u8],
    bits: u64,
    image: &mut [u8],
    addresses: &mut [i64],
    offsets: &mut [u64],
    sizes: &mut [u64],
)
    requires switches { Switches banks.len kinds.now operands.now }
    requires has_room { HasRoom (visits (program_with banks kinds.now operands.now first.now) (row_with numbers.now states.now)) (length values.now)
        (length image.old) (length addresses.old) (length offsets.old) (length sizes.old) }
    ensures image { image.new ≡ image_of values.now (blank_of (banks_of banks) bits (length image.old))
        (items_of (visits (program_with banks kinds.now operands.now first.now)
        (row_with numbers.now states.now))) }
    ensures addresses { addresses.new ≡ over (addresses_of (spans_of (visits (program_with banks kinds.now operands.now first.now)
        (row_with numbers.now states.now))))
        addresses.old }
    ensures offsets { offsets.new ≡ over (words_of (spans_of (visits (program_with banks kinds.now operands.now first.now)
        (row_with numbers.now states.now))))
        offsets.old }
    ensures sizes { sizes.new ≡ over (sizes_of (spans_of (visits (program_with banks kinds.now operands.now first.now)
        (row_with numbers.now states.now))))
        sizes.old }
{
    lay_blank(banks, bits, image);
    write_walk(
        banks,
        kinds,
        operands,
        first,
        numbers,
        states,
        start(),
        values,
        image,
        addresses,
        offsets,
        sizes,
    );
}

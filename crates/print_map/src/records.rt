// The records of the text, each known to fit: a bank, a node, the node at fault, the verdict.
ghost use Rattle.std.specs.Prelude.{◌≡◌, ◌+◌, ◌*◌, ◌≤◌, min, eqb, length};
ghost use Rattle.prelude.specs.Limits.{max_banks, max_nodes};
ghost use Rattle.prelude.specs.Pick.{pick};
ghost use Rattle.blocks.specs.Offsets.{no_offset};
ghost use Rattle.print_text.specs.Puts.{Writes};
ghost use Rattle.print_map.specs.Marks.{sign_of, mark_of, value_of, address_mark, address_value};
ghost use Rattle.print_map.specs.Steps.{nodes_held};
ghost use Rattle.print_map.specs.Text.{bank_line, banks_text, node_line, fault_text, refused_text, verdict_text};

use crate::cells::write_line;
use bankdef::{Bankdef, Bankdefs};
use blocks::NO_OFFSET;
use iter::Lost;
use prelude::{Place, Refusal};
use print_text::write_word;

fn sign_of(x: i64) -> u8
    ensures { result ≡ sign_of x }
{
    u8::from(x < 0)
}

fn mark_of(o: Option<u32>) -> u8
    ensures { result ≡ mark_of o }
{
    match o {
        None => 2,
        Some(_) => 0,
    }
}

fn value_of(o: Option<u32>) -> u64
    ensures { result ≡ value_of o }
{
    match o {
        None => 0,
        Some(n) => n as u64,
    }
}

fn address_mark(a: Result<i64, Refusal>) -> u8
    ensures { result ≡ address_mark a }
{
    match a {
        Ok(z) => sign_of(z),
        Err(_) => 2,
    }
}

fn address_value(a: Result<i64, Refusal>) -> u64
    ensures { result ≡ address_value a }
{
    match a {
        Ok(z) => bankdef::magnitude(z),
        Err(_) => 0,
    }
}

fn word_mark(word: u64) -> u8
    ensures { result ≡ pick (eqb word no_offset) 2 0 }
{
    if word == NO_OFFSET { 2 } else { 0 }
}

fn write_bank(out: &mut [u8], at: usize, i: u64, def: Bankdef, padding: Lost) -> usize
    requires { at + 230 ≤ length out.old }
    ensures writes { Writes (bank_line i def padding) out.old at result out.new }
    ensures upper_bound { result ≤ at + 230 }
{
    let start = def.start;
    let size = def.size;
    let offset = def.offset;
    let align = def.align;
    let fill = def.fill;
    let marks = [
        0u8,
        0,
        sign_of(start),
        mark_of(size),
        mark_of(offset),
        mark_of(align),
        0,
        0,
        0,
        0,
    ];
    let numbers = [
        i,
        def.unit as u64,
        bankdef::magnitude(start),
        value_of(size),
        value_of(offset),
        value_of(align),
        u64::from(fill),
        def.fill_bit as u64,
        padding.bits,
        padding.units,
    ];
    write_line(out, at, b"bank", &marks, &numbers)
}

// Every bank of the table, with what it has lost.
pub(crate) fn write_banks(out: &mut [u8], at: usize, banks: Bankdefs, padding: [Lost; 16]) -> usize
    requires { at + 3680 ≤ length out.old }
    ensures writes { Writes (banks_text banks padding (min banks.len max_banks)) out.old at result out.new }
    ensures upper_bound { result ≤ at + 3680 }
{
    let count = banks.len.min(16) as usize;
    let mut end = at;
    for (i, lost) in padding[..count].iter().enumerate() {
        let def = resolver::bank_record(banks, i as u64);
        end = write_bank(out, end, i as u64, def, *lost);
    }
    end
}

fn write_node(
    out: &mut [u8],
    at: usize,
    banks: Bankdefs,
    i: u64,
    kind: u8,
    bank: u64,
    position: u32,
    word: u64,
    size: u32,
) -> usize
    requires { at + 160 ≤ length out.old }
    ensures writes { Writes (node_line banks i kind bank position word size) out.old at result out.new }
    ensures upper_bound { result ≤ at + 160 }
{
    let def = resolver::bank_record(banks, bank);
    let address = iter::get_address(def, position, i);
    let marks = [0u8, 0, 0, 0, address_mark(address), word_mark(word), 0];
    let numbers = [
        i,
        kind as u64,
        bank,
        position as u64,
        address_value(address),
        word,
        size as u64,
    ];
    write_line(out, at, b"node", &marks, &numbers)
}

// The first `nodes` nodes, from the lists that the map has filled.
pub(crate) fn write_nodes(
    out: &mut [u8],
    at: usize,
    banks: Bankdefs,
    kinds: &[u8],
    nodes: usize,
    banks_of: &[u64],
    positions: &[u32],
    outputs: &[u64],
    sizes: &[u32],
) -> usize
    requires nodes_le_max_nodes { (nodes ≤ max_nodes) × (nodes ≤ length kinds.now) }
    requires nodes_in_bounds { (nodes ≤ length banks_of.now) × (nodes ≤ length positions.now) × (nodes ≤ length outputs.now) × (nodes ≤ length sizes.now) }
    requires nodes_in_bounds_2 { at + 160 * nodes ≤ length out.old }
    ensures writes { Writes
        (nodes_held banks kinds.now banks_of.now positions.now outputs.now sizes.now nodes)
        out.old at result out.new }
    ensures upper_bound { result ≤ at + 160 * nodes }
{
    let mut end = at;
    // stays: an index into five lists at once; a zip of five is no plainer
    for i in 0..nodes {
        end = write_node(
            out,
            end,
            banks,
            i as u64,
            kinds[i],
            banks_of[i],
            positions[i],
            outputs[i],
            sizes[i],
        );
    }
    end
}

pub(crate) fn write_fault(out: &mut [u8], at: usize, fault: Option<u64>) -> usize
    requires { at + 28 ≤ length out.old }
    ensures writes { Writes (fault_text fault) out.old at result out.new }
    ensures upper_bound { result ≤ at + 28 }
{
    match fault {
        None => at,
        Some(n) => {
            let marks = [0u8];
            let numbers = [n];
            write_line(out, at, b"fault", &marks, &numbers)
        }
    }
}

pub(crate) fn write_refused(out: &mut [u8], at: usize, why: Refusal) -> usize
    requires { at + 80 ≤ length out.old }
    ensures writes { Writes (refused_text why) out.old at result out.new }
    ensures upper_bound { result ≤ at + 80 }
{
    let number = prelude::number(why);
    match prelude::place_of(why) {
        Place::One(p) => {
            let marks = [0u8, 0];
            let numbers = [number, p];
            write_line(out, at, b"refused", &marks, &numbers)
        }
        Place::Two(p, q) => {
            let marks = [0u8, 0, 0];
            let numbers = [number, p, q];
            write_line(out, at, b"refused", &marks, &numbers)
        }
    }
}

pub(crate) fn write_verdict(out: &mut [u8], at: usize, verdict: Result<(), Refusal>) -> usize
    requires { at + 80 ≤ length out.old }
    ensures writes { Writes (verdict_text verdict) out.old at result out.new }
    ensures upper_bound { result ≤ at + 80 }
{
    match verdict {
        Ok(()) => write_word(out, at, b"accepted\n"),
        Err(why) => write_refused(out, at, why),
    }
}

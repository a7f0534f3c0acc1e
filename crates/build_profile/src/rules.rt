// The six rules, over the banks and over the nodes in every row.
ghost use Rattle.std.specs.Prelude.{◌≡◌, [], ◌+◌, ◌*◌, ◌/◌, ◌≤◌, ◌<◌, not, ◌||◌, eqb, length, get_or};
ghost use Rattle.prelude.specs.Limits.{max_banks};
ghost use Rattle.prelude.specs.Pick.{pick};
ghost use Rattle.nodes.specs.Lists.{lists, first_of};
ghost use Rattle.resolver.specs.Once.{bank_record};
ghost use Rattle.build_profile.specs.OneBit.{one_bit};
ghost use Rattle.build_profile.specs.Profile.{verdict_of};
ghost use Rattle.build_profile.specs.Rules.{kept_by, aligned, bank_aligned, on_page, whole_pages, unit_kept, all, ruled};
ghost use Rattle.build_profile.specs.Rules.{aligns_kept, addrs_kept, rules_of};
ghost use Rattle.build_profile.specs.Steps.{bank_keeps, nodes_of, Sized};

use bankdef::{Bankdef, Bankdefs};
use prelude::{ADDR, ALIGN, Refusal, SWITCH};

// "must have exactly one bit set": a count of ones equal to 1.
fn one_bit(x: u32) -> bool
    ensures { result ≡ one_bit x }
{
    x.count_ones() == 1
}

// "every nonzero alignment must have exactly one bit set"
fn is_aligned(alignment: u32) -> bool
    ensures { result ≡ aligned alignment }
{
    alignment == 0 || one_bit(alignment)
}

// Whether a bank's label alignment keeps rule 2.
fn bank_aligned(alignment: Option<u32>) -> bool
    ensures { result ≡ bank_aligned alignment }
{
    match alignment {
        None => true,
        Some(a) => is_aligned(a),
    }
}

// "every bank with an offset must have its offset on a page"
fn on_page(offset: Option<u32>, page: u32) -> bool
    ensures { result ≡ on_page page offset }
{
    match offset {
        None => true,
        Some(o) => o.is_multiple_of(page),
    }
}

// "and a size of whole pages", "(none breaks it)"
fn whole_pages(offset: Option<u32>, size: Option<u32>, page: u32) -> bool
    ensures { result ≡ whole_pages page offset size }
{
    match offset {
        None => true,
        Some(_) => match size {
            None => false,
            Some(bits) => bits.is_multiple_of(page),
        },
    }
}

// "address units are 8 or 16"
fn unit_kept(unit: u32) -> bool
    ensures { result ≡ unit_kept unit }
{
    unit == 8 || unit == 16
}

// Whether a bank keeps a rule: 2, 3 or 4, or else 5.
fn bank_keeps(rule: u64, b: Bankdef, page: u32) -> bool
    ensures { result ≡ bank_keeps rule page b }
{
    match rule {
        2 => bank_aligned(b.align),
        3 => on_page(b.offset, page),
        4 => whole_pages(b.offset, b.size, page),
        _ => unit_kept(u32::from(b.unit)),
    }
}

fn off_profile(rule: u64, at: u64) -> Result<(), Refusal>
    ensures { result ≡ Err (Refusal.OffProfile rule at) }
{
    Err(Refusal::OffProfile(rule, at))
}

// A rule over the banks, ascending.
fn check_banks(banks: Bankdefs, rule: u64, page: u32) -> Result<(), Refusal>
    requires { banks.len ≤ max_banks }
    ensures { result ≡ ruled rule (λ k. bank_keeps rule page (bank_record banks k)) banks.len }
{
    let listed = &banks.defs[..banks.len as usize];
    match listed.iter().position(|&b| !bank_keeps(rule, b, page)) {
        Some(i) => off_profile(rule, i as u64),
        None => Ok(()),
    }
}

// Whether a number keeps rule 2, as an alignment, or rule 6, as a multiple of the unit.
fn is_kept(rule: u8, number: u32, unit: u32) -> bool
    ensures { result ≡ kept_by rule number unit }
{
    if rule == 2 {
        return is_aligned(number);
    }
    number.is_multiple_of(unit)
}

// Whether the number of node `i` of `n` keeps that rule in every row.
fn rows_keep(rule: u8, numbers: &[u32], n: usize, i: usize, unit: u32) -> bool
    requires { i < n }
    ensures { result ≡ all (λ r. kept_by rule (get_or numbers.now (r * n + i) 0) unit) (length numbers.now / n) }
{
    numbers
        .chunks_exact(n)
        .all(|row| is_kept(rule, row[i], unit))
}

// Whether node `i` of `n`, if it is of the kind that the rule is about, keeps it in every row: rule 2 is about `align`, rule 6 about `addr`, in a bank with
// this unit.
fn node_kept(rule: u8, about: u8, kind: u8, numbers: &[u32], n: usize, i: usize, unit: u32) -> bool
    requires { i < n }
    ensures { result ≡ all (λ r. not (eqb kind about) || kept_by rule (get_or numbers.now (r * n + i) 0) unit) (length numbers.now / n) }
{
    kind != about || rows_keep(rule, numbers, n, i, unit)
}

// Rule 2 over the nodes, ascending: `align` in every row.
fn check_aligns(kinds: &[u8], numbers: &[u32]) -> Result<(), Refusal>
    ensures { result ≡ ruled 2 (aligns_kept (nodes_of kinds.now [] numbers.now (length numbers.now / length kinds.now))) (length kinds.now) }
{
    for (i, &kind) in kinds.iter().enumerate() {
        if !node_kept(2, ALIGN, kind, numbers, kinds.len(), i, 0) {
            return off_profile(2, i as u64);
        }
    }
    Ok(())
}

// The bank in force after a node, from the one before it.
fn bank_next(kind: u8, operand: u32, bank: u32) -> u32
    ensures { result ≡ pick (eqb kind 1) operand bank }
{
    if kind == SWITCH { operand } else { bank }
}

// Rule 6 over the nodes, ascending: `addr` in every row, each in the bank in force there, which is carried along.
fn check_addrs(
    banks: Bankdefs,
    kinds: &[u8],
    operands: &[u32],
    numbers: &[u32],
) -> Result<(), Refusal>
    requires { Sized banks kinds.now operands.now numbers.now (length numbers.now / length kinds.now) }
    ensures { result ≡ ruled 6
        (addrs_kept banks (nodes_of kinds.now operands.now numbers.now (length numbers.now / length kinds.now)))
        (length kinds.now) }
{
    let mut bank: u32 = 0;
    // stays: the operand by its index; tried as a zip, numbered, whose proof did not close
    for (i, &kind) in kinds.iter().enumerate() {
        bank = bank_next(kind, operands[i], bank);
        let unit = u32::from(banks.defs[bank as usize].unit);
        if !node_kept(6, ADDR, kind, numbers, kinds.len(), i, unit) {
            return off_profile(6, i as u64);
        }
    }
    Ok(())
}

// Rule 1, page size, place 0.
fn check_page(page: u32) -> Result<(), Refusal>
    ensures { result ≡ ruled 1 (λ _. one_bit page) 1 }
{
    if one_bit(page) {
        Ok(())
    } else {
        off_profile(1, 0)
    }
}

// The earlier of two verdicts that refuses.
fn earlier(first: Result<(), Refusal>, later: Result<(), Refusal>) -> Result<(), Refusal>
    ensures { result ≡ first_of first later }
{
    match first {
        Err(_) => first,
        Ok(()) => later,
    }
}

// "The answer names the first rule broken, 1 to 6 in this order, each ascending: page size (place 0), alignments (banks, then nodes in every
// row), offset, size (none breaks it), unit, `addr`."
fn check_rules(
    banks: Bankdefs,
    kinds: &[u8],
    operands: &[u32],
    numbers: &[u32],
    page: u32,
) -> Result<(), Refusal>
    requires { Sized banks kinds.now operands.now numbers.now (length numbers.now / length kinds.now) }
    ensures { result ≡ rules_of banks (nodes_of kinds.now operands.now numbers.now (length numbers.now / length kinds.now)) page }
{
    let size = check_page(page);
    let labels = check_banks(banks, 2, page);
    let aligns = check_aligns(kinds, numbers);
    let offsets = check_banks(banks, 3, page);
    let sizes = check_banks(banks, 4, page);
    let units = check_banks(banks, 5, page);
    let addrs = check_addrs(banks, kinds, operands, numbers);
    let last = earlier(units, addrs);
    let placed = earlier(offsets, earlier(sizes, last));
    earlier(size, earlier(labels, earlier(aligns, placed)))
}

// 1, 2, 3, then 4, then 19.
pub fn judge(
    banks: Bankdefs,
    kinds: &[u8],
    operands: &[u32],
    numbers: &[u32],
    states: &[u8],
    rows: u64,
    values: &[u8],
    fill: u8,
    page: u32,
) -> Result<(), Refusal>
    ensures { result ≡ verdict_of banks
        (lists kinds.now operands.now numbers.now states.now rows values.now)
        fill page }
{
    bankdef::check(banks)?;
    nodes::check_lists(
        banks.len, kinds, operands, numbers, states, rows, values, fill,
    )?;
    check_rules(banks, kinds, operands, numbers, page)
}

// The passes: which row each reads, pass K, and how many are run.
ghost use Rattle.std.specs.Prelude.{◌≡◌, true, false, [], ◌+◌, ◌-◌, ◌<◌, ◌≤◌, min};
ghost use Rattle.resolver.specs.Layout.{layout_of};
ghost use Rattle.nodes.specs.Lists.{lists};
ghost use Rattle.resolver.specs.Figures.{Figures};
ghost use Rattle.resolver.specs.OneWalk.{in_doubt};
ghost use Rattle.resolver.specs.Laid.{Laid, laid, over};
ghost use Rattle.resolver.specs.Passes.{row_against, pass_at, last_of, resolution_of};
ghost use Rattle.resolver.specs.Switches.{Ready};

use crate::once::resolve_once;
use crate::{Choices, Resolution};
use bankdef::{Bankdefs, check};
use nodes::check_lists;
use prelude::{RESOLVED, Refusal, STABLE, UNRESOLVED};
use std::marker::Model;

// "Pass n reads row n, or the last row if there are fewer." Rows are counted from 0 and passes from 1.
fn row_of_pass(rows: u64, n: u64) -> u64
    requires { 1 ≤ rows }
    ensures value { result ≡ min n rows - 1 }
    ensures upper_bound { result < rows }
{
    n.min(rows).saturating_sub(1)
}

// Whether a pass that was held against its own row has to be held against the row of the pass before: where it is stable. Refused, resolved or unresolved,
// it comes to the same beside every row (`resolver/OneWalk.told-alone`).
fn in_doubt(alone: Result<u8, Refusal>) -> bool
    ensures { result ≡ in_doubt alone }
{
    matches!(alone, Ok(STABLE))
}

// What a last pass comes to: pass K, or what it is refused for.
fn settle(k: u64, last: Result<u8, Refusal>, passes: u64) -> Resolution
    ensures { result ≡ record { settled = last_of k last; passes = passes } }
{
    let settled = match last {
        Err(why) => Err(why),
        Ok(UNRESOLVED) => Err(Refusal::Unresolved),
        Ok(_) => Ok(k),
    };
    Resolution { settled, passes }
}

// What the passes read of a layout whose banks and lists have passed their checks.
#[derive(Drop)]
struct Layout<'a> {
    banks: Bankdefs,
    kinds: &'a [u8],
    operands: &'a [u32],
    numbers: &'a [u32],
    states: &'a [u8],
    rows: u64,
}

impl<'a> Model for Layout<'a> {
    ghost Value = { Laid };

    ghost view = { λ l. laid l.banks (lists l.kinds.now l.operands.now l.numbers.now l.states.now l.rows []) };

    ghost invariant = { λ l. Ready l.banks.len (lists l.kinds.now l.operands.now l.numbers.now l.states.now l.rows []) };
}

impl<'a> Layout<'a> {
    // A pass over row `row`, held against its own row (`alone`) or the one ahead of it.
    fn pass_over(&self, row: u64, alone: bool, is_first: bool, is_last: bool) -> Result<u8, Refusal>
        requires { row < self.now.lists.rows }
        ensures { result ≡ over self.now row (row_against row alone) is_first is_last }
    {
        resolve_once(
            self.banks,
            self.kinds,
            self.operands,
            self.numbers,
            self.states,
            row,
            alone,
            is_first,
            is_last,
        )
    }

    // Pass n, as the last one or not. Its row is walked alone, which nearly always tells it; beside the row of the pass before where a label may be stable.
    fn pass_at(&self, n: u64, is_last: bool) -> Result<u8, Refusal>
        requires { 1 ≤ n }
        ensures { result ≡ pass_at self.now.banks self.now.lists n is_last }
    {
        let row = row_of_pass(self.rows, n);
        let row_before = row_of_pass(self.rows, n - 1);
        let is_first = n == 1;
        let alone = self.pass_over(row, true, is_first, is_last);
        if row == row_before {
            return alone;
        }
        if !in_doubt(alone) {
            return alone;
        }
        self.pass_over(row, false, is_first, is_last)
    }

    // Pass n, run as the last one, where pass K is k.
    fn last_pass(&self, k: u64, n: u64) -> Resolution
        requires { 1 ≤ n }
        ensures { result ≡ record {
          settled = last_of k (pass_at self.now.banks self.now.lists n true);
          passes = n;
        } }
    {
        settle(k, self.pass_at(n, true), n)
    }

    // "If K is below M, pass K + 1 runs as the last", where pass k has come to `state`. Where pass k read the last row and all of it is resolved, the next pass
    // reads that row again and is resolved as well (`resolver/OneWalk.resolved-again`), and need not be walked.
    fn pass_after(&self, k: u64, state: u8) -> Resolution
        requires le_k { (1 ≤ k) × (k < 256) }
        requires false_value { pass_at self.now.banks self.now.lists k false ≡ Ok state }
        ensures { result ≡ record {
          settled = last_of k (pass_at self.now.banks self.now.lists (k + 1) true);
          passes = k + 1;
        } }
    {
        let next = k + 1;
        if state == RESOLVED && self.rows <= k {
            return Resolution {
                settled: Ok(k),
                passes: next,
            };
        }
        self.last_pass(k, next)
    }

    // The passes of document 01. "the number of passes run, a count that equals the passes": the pass limit bounds the loop, and each way out tells the pass
    // that it stands at.
    fn resolve_iteratively(&self, limit: u8) -> Resolution
        ensures { result ≡ resolution_of self.now.banks self.now.lists limit }
    {
        let m = u64::from(limit);
        if m == 0 {
            return self.last_pass(0, 1);
        }
        // Passes past the rows need not be walked. "Pass n reads row n, or the last row if there are fewer": pass rows + 1 and each one behind it read the
        // last row, and so does the pass before each, so that they all come to the same. Where pass rows + 1 is unresolved, so is every pass up to the limit.
        let enough = self.rows + 2;
        for n in 1..m {
            if n == enough {
                return self.last_pass(m, m);
            }
            match self.pass_at(n, false) {
                Err(why) => {
                    return Resolution {
                        settled: Err(why),
                        passes: n,
                    };
                }
                Ok(state) => {
                    if state != UNRESOLVED {
                        return self.pass_after(n, state);
                    }
                }
            }
        }
        self.last_pass(m, m)
    }
}

fn turned_away(why: Refusal) -> Resolution
    ensures { result ≡ record { settled = Err why; passes = 0 } }
{
    Resolution {
        settled: Err(why),
        passes: 0,
    }
}

// The layout's passes: the banks are checked, then the lists, and then the passes are run.
pub fn resolve(
    banks: Bankdefs,
    kinds: &[u8],
    operands: &[u32],
    numbers: &[u32],
    states: &[u8],
    rows: u64,
    values: &[u8],
    choices: Choices,
) -> Resolution
    ensures value { result ≡ layout_of banks
        (lists kinds.now operands.now numbers.now states.now rows values.now)
        choices }
    ensures told { Figures banks
        (lists kinds.now operands.now numbers.now states.now rows values.now)
        choices result }
{
    match check(banks) {
        Err(why) => turned_away(why),
        Ok(()) => {
            let len = banks.len;
            match check_lists(
                len,
                kinds,
                operands,
                numbers,
                states,
                rows,
                values,
                choices.fill,
            ) {
                Err(why) => turned_away(why),
                Ok(()) => {
                    let layout = Layout {
                        banks,
                        kinds,
                        operands,
                        numbers,
                        states,
                        rows,
                    };
                    layout.resolve_iteratively(choices.limit)
                }
            }
        }
    }
}

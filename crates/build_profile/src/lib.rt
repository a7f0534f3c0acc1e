// The profile of the paged device: six rules that a layout keeps before it is built, and the pages of each bank.
#![tactic(auto)]

mod rules;

ghost use Rattle.std.specs.Prelude.{◌≡◌, ◌≤◌, ◌<◌};
ghost use Rattle.prelude.specs.Limits.{max_banks};
ghost use Rattle.nodes.specs.Lists.{lists};
ghost use Rattle.build_profile.specs.Pages.{pages_in, pages_of};
ghost use Rattle.build_profile.specs.Told.{Answers};

use bankdef::{Bankdef, Bankdefs};
use prelude::Refusal;
use resolver::Choices;

// The word for none among the banks' pages: larger than any count of pages.
pub const NO_PAGES: u64 = 18_446_744_073_709_551_615;

// Whether a layout keeps the profile, or why not; and, where it does, the pages of each bank, by its number.
#[derive(Clone, Copy)]
pub struct Paged {
    pub verdict: Result<(), Refusal>,
    pub pages: [u64; 16],
}

// "each bank's pages, its size over the page size, none without an offset"
fn pages_in(b: Bankdef, page: u32) -> u64
    requires { 0 < page }
    ensures { result ≡ pages_in page b }
{
    let Some(_) = b.offset else {
        return NO_PAGES;
    };
    let Some(bits) = b.size else {
        return NO_PAGES;
    };
    u64::from(bits / page)
}

// The pages of every bank that the table lists; the rest have none.
fn pages_of(banks: Bankdefs, page: u32) -> [u64; 16]
    requires { (banks.len ≤ max_banks) × (0 < page) }
    ensures { result ≡ pages_of page banks }
{
    let mut pages = [NO_PAGES; 16];
    // stays: written by the index; behind an `iter_mut` a proof knows the array's length and not its elements
    for (i, &b) in banks.defs[..banks.len as usize].iter().enumerate() {
        pages[i] = pages_in(b, page);
    }
    pages
}

// Whether the layout keeps the profile of a device with pages of so many bits: the refusals that come before any pass, then the first
// rule that is broken; or yes, with each bank's pages.
pub fn check_profile(
    banks: Bankdefs,
    kinds: &[u8],
    operands: &[u32],
    numbers: &[u32],
    states: &[u8],
    rows: u64,
    values: &[u8],
    choices: Choices,
    page: u32,
) -> Paged
    ensures { Answers banks
        (lists kinds.now operands.now numbers.now states.now rows values.now)
        choices.fill page result }
{
    let verdict = rules::judge(
        banks,
        kinds,
        operands,
        numbers,
        states,
        rows,
        values,
        choices.fill,
        page,
    );
    match verdict {
        Err(why) => Paged {
            verdict: Err(why),
            pages: [NO_PAGES; 16],
        },
        Ok(()) => Paged {
            verdict: Ok(()),
            pages: pages_of(banks, page),
        },
    }
}

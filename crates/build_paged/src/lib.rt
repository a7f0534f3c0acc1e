// "A build in the profile is the ordinary build after a yes."
#![tactic(auto)]

ghost use Rattle.std.specs.Prelude.{◌≡◌};
ghost use Rattle.nodes.specs.Lists.{lists};
ghost use Rattle.output.specs.Output.{input, lent, refused_after};
ghost use Rattle.build_paged.specs.InProfile.{BuildsInProfile};

use bankdef::Bankdefs;
use build_profile::check_profile;
use iter::Lost;
use output::{Output, build_output};
use prelude::Refusal;
use resolver::Choices;

// Refused before the first pass: no pass is run.
fn refused(why: Refusal) -> Output
    ensures { result ≡ refused_after 0 why }
{
    let none = Lost { bits: 0, units: 0 };
    Output {
        build: Err(why),
        passes: 0,
        padding: [none; 16],
    }
}

// The build of a layout that keeps the profile of a device with pages of so many bits. Any other is refused as the profile says, before the
// first pass, and nothing lent is changed.
pub fn build_in_profile(
    page: u32,
    banks: Bankdefs,
    kinds: &[u8],
    operands: &[u32],
    numbers: &[u32],
    states: &[u8],
    rows: u64,
    values: &[u8],
    choices: Choices,
    image: &mut [u8],
    addresses: &mut [i64],
    offsets: &mut [u64],
    sizes: &mut [u64],
) -> Output
    ensures { BuildsInProfile page
        (input banks
        (lists kinds.now operands.now numbers.now states.now rows values.now)
        choices)
        (lent image.old addresses.old offsets.old sizes.old) result
        (lent image.new addresses.new offsets.new sizes.new) }
{
    let paged = check_profile(
        banks, kinds, operands, numbers, states, rows, values, choices, page,
    );
    match paged.verdict {
        Err(why) => refused(why),
        Ok(()) => build_output(
            banks, kinds, operands, numbers, states, rows, values, choices, image, addresses,
            offsets, sizes,
        ),
    }
}

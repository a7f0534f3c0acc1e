// A build's answer, and the profile's.
ghost use Rattle.std.specs.Prelude.{◌≡◌};
ghost use Rattle.c_answers.specs.Told.{layout_told, profile_told};

use crate::{DkLayout, DkProfile, first_of, second_of};
use build_profile::Paged;
use iter::Lost;
use output::{Built, Output};

// A build's answer in document 01's figures.
pub fn tell_layout(output: Output) -> DkLayout
    ensures { result ≡ layout_told output }
{
    let passes = output.passes;
    let padding = output.padding;
    let build = output.build;
    match build {
        Ok(Built { k, length, spans }) => DkLayout {
            refusal: 0,
            place: 0,
            second: 0,
            passes,
            k,
            length,
            spans,
            padding,
        },
        Err(why) => {
            let place = prelude::place_of(why);
            let none = Lost { bits: 0, units: 0 };
            DkLayout {
                refusal: prelude::number(why),
                place: first_of(place),
                second: second_of(place),
                passes,
                k: 0,
                length: 0,
                spans: 0,
                padding: [none; 16],
            }
        }
    }
}

pub fn tell_paged(paged: Paged) -> DkProfile
    ensures { result ≡ profile_told paged }
{
    let pages = paged.pages;
    let verdict = paged.verdict;
    match verdict {
        Ok(()) => DkProfile {
            refusal: 0,
            place: 0,
            second: 0,
            pages,
        },
        Err(why) => {
            let place = prelude::place_of(why);
            DkProfile {
                refusal: prelude::number(why),
                place: first_of(place),
                second: second_of(place),
                pages: [0; 16],
            }
        }
    }
}

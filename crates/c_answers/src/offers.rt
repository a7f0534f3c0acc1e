// The answer to an offer to the store, and to a list of them.
ghost use Rattle.std.specs.Prelude.{◌≡◌};
ghost use Rattle.prelude.specs.Told.{refuses, told_verdict};
ghost use Rattle.c_answers.specs.Stores.{in_figures, numbered};

use crate::{DkOffer, DkOffered};
use prelude::{Place, Refusal};

// A refusal's number and place, with the counts.
fn tell_place(number: u64, at: Place, count: u64, marks: u64) -> DkOffer
    ensures { result ≡ in_figures (refuses number at) count marks }
{
    match at {
        Place::One(place) => DkOffer {
            refusal: number,
            place,
            second: 0,
            count,
            marks,
        },
        Place::Two(place, second) => DkOffer {
            refusal: number,
            place,
            second,
            count,
            marks,
        },
    }
}

// A verdict in document 01's figures, with the counts.
pub fn tell_offer(verdict: Result<(), Refusal>, count: u64, marks: u64) -> DkOffer
    ensures { result ≡ in_figures (told_verdict verdict) count marks }
{
    match verdict {
        Ok(()) => DkOffer {
            refusal: 0,
            place: 0,
            second: 0,
            count,
            marks,
        },
        Err(why) => { tell_place(prelude::number(why), prelude::place_of(why), count, marks) }
    }
}

// The same of a list of offers, with an offer's number.
pub fn tell_offers(verdict: Result<(), Refusal>, count: u64, marks: u64, offer: u64) -> DkOffered
    ensures { result ≡ numbered (in_figures (told_verdict verdict) count marks) offer }
{
    let one = tell_offer(verdict, count, marks);
    DkOffered {
        refusal: one.refusal,
        place: one.place,
        second: one.second,
        count: one.count,
        marks: one.marks,
        offer,
    }
}

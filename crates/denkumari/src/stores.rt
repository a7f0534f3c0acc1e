// The store of placed intervals and marks, in three arrays and two counts that the caller keeps between calls.
ghost use Rattle.says.specs.Store.{OfferSays};
ghost use Rattle.says.specs.Offers.{OffersSay};

use c_answers::{DkOffer, DkOffered, tell_offer, tell_offers};

// An offer of `size` bits from bit `position` on to a store: it tries 15, 4, 12, 13. Accepted, it is put in, with bits among the intervals, without
// among the marks.
pub fn dk_offer(
    positions: &mut [u64; 512],
    sizes: &mut [u64; 512],
    count: u64,
    marks: &mut [u64; 512],
    mark_count: u64,
    position: u64,
    size: u64,
) -> DkOffer
    ensures { OfferSays
        (record { positions = positions.old; sizes = sizes.old; count = count; marks = marks.old; mark_count = mark_count })
        (record { position = position; size = size })
        (record { answer = result; positions = positions.new; sizes = sizes.new; marks = marks.new }) }
{
    let first: &[u64] = &*positions;
    let second: &[u64] = &*sizes;
    let third: &[u64] = &*marks;
    let offered = overlap_lent::check_and_insert(
        positions,
        sizes,
        count as usize,
        marks,
        mark_count as usize,
        position,
        size,
    );
    let verdict = offered.verdict;
    tell_offer(verdict, offered.count as u64, offered.marks as u64)
}

// A list of offers to a store, all or none: it tries 15 once, 4 where the lists are not of one length, then 4, 12, 13 of each offer in turn. All accepted, the
// store is what so many calls of `dk_offer` leave; one refused, nothing that is lent changes.
pub fn dk_offers(
    positions: &mut [u64; 512],
    sizes: &mut [u64; 512],
    count: u64,
    marks: &mut [u64; 512],
    mark_count: u64,
    offer_positions: &[u64],
    offer_sizes: &[u64],
) -> DkOffered
    ensures { OffersSay
        (record { positions = positions.old; sizes = sizes.old; count = count; marks = marks.old; mark_count = mark_count })
        offer_positions.now offer_sizes.now
        (record { answer = result; positions = positions.new; sizes = sizes.new; marks = marks.new }) }
{
    let first: &[u64] = &*positions;
    let second: &[u64] = &*sizes;
    let third: &[u64] = &*marks;
    let tried = overlap_lent::check_and_insert_each(
        positions,
        sizes,
        count as usize,
        marks,
        mark_count as usize,
        offer_positions,
        offer_sizes,
    );
    let verdict = tried.verdict;
    tell_offers(
        verdict,
        tried.count as u64,
        tried.marks as u64,
        tried.offer as u64,
    )
}

// The answers of calls that write a list: how many things were written, or the refusal.
ghost use Rattle.std.specs.Prelude.{◌≡◌};
ghost use Rattle.c_answers.specs.Told.{counted, refused_count};
ghost use Rattle.c_answers.specs.Counts.{blocks_count, hex_count, written_count, conversion_count, listed_count};

use crate::{DkCount, first_of};
use prelude::Refusal;

// A refusal of a call that counts.
pub fn tell_refusal(why: Refusal) -> DkCount
    ensures { result ≡ refused_count why }
{
    DkCount {
        refusal: prelude::number(why),
        place: first_of(prelude::place_of(why)),
        count: 0,
    }
}

// So many things were written.
fn counted(count: u64) -> DkCount
    ensures { result ≡ counted count }
{
    DkCount {
        refusal: 0,
        place: 0,
        count,
    }
}

pub fn tell_blocks(found: Result<u64, Refusal>) -> DkCount
    ensures { result ≡ blocks_count found }
{
    match found {
        Ok(count) => counted(count),
        Err(why) => tell_refusal(why),
    }
}

pub fn tell_hex(hex: Result<u64, Refusal>) -> DkCount
    ensures { result ≡ hex_count hex }
{
    match hex {
        Ok(count) => counted(count),
        Err(why) => tell_refusal(why),
    }
}

pub fn tell_written(written: Result<u64, Refusal>) -> DkCount
    ensures { result ≡ written_count written }
{
    match written {
        Ok(count) => counted(count),
        Err(why) => tell_refusal(why),
    }
}

pub fn tell_conversion(done: Result<u64, Refusal>) -> DkCount
    ensures { result ≡ conversion_count done }
{
    match done {
        Ok(count) => counted(count),
        Err(why) => tell_refusal(why),
    }
}

pub fn tell_listed(listed: Result<u64, Refusal>) -> DkCount
    ensures { result ≡ listed_count listed }
{
    match listed {
        Ok(count) => counted(count),
        Err(why) => tell_refusal(why),
    }
}

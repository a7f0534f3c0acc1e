// Why a file of records is bad.
ghost use Rattle.std.specs.Prelude.{◌≡◌};
ghost use Rattle.c_model.specs.Reasons.{kind_of};
ghost use Rattle.says.specs.Reason.{DkReasonSays};

use c_answers::{DkReason, tell_reason};

// How a format's number is read where nothing is refused: 0 is Intel HEX, every other number S-records.
fn kind_of(format: u8) -> u8
    ensures { result ≡ kind_of format }
{
    if format == 0 {
        return 0;
    }
    1
}

// The line at which a file that is read so is at fault, and why.
pub fn dk_record_reason(format: u8, text: &[u8], load: u32, scratch: &mut [u8]) -> DkReason
    ensures { DkReasonSays format load text.now scratch.old (result, scratch.new) }
{
    tell_reason(record_reason::reason_of(kind_of(format), text, load, scratch))
}

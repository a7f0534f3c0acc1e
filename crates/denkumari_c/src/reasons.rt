// Why a file of records is bad.
ghost use Rattle.std.specs.Prelude.{◌≡◌};
ghost use Rattle.c_model.specs.Reasons.{kind_of};
ghost use Rattle.says.specs.Reason.{DkReasonSays};

use c_answers::DkReason;

// The line at which a file that is read so is at fault, and why.
#[unsafe(no_mangle)]
pub extern "C" fn dk_record_reason(
    format: u8,
    text: &[u8],
    load: u32,
    scratch: &mut [u8],
) -> DkReason
    ensures { DkReasonSays format load text.now scratch.old (result, scratch.new) }
{
    denkumari::dk_record_reason(format, text, load, scratch)
}

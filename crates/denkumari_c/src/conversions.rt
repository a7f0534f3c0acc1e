// A layout file in the other form.
ghost use Rattle.says.specs.Files.{form-1, form-2};
ghost use Rattle.says.specs.Convert.{ConvertSays};

use c_answers::DkCount;

// A file of form 1 in form 2, with fill bits zero; a file of one bank gets a bank 1. A refused call changes nothing that is lent.
#[unsafe(no_mangle)]
pub extern "C" fn dk_to_form2(file: &[u8], out: &mut [u8]) -> DkCount
    ensures { ConvertSays form-1 file.now out.old (record { answer = result; out = out.new }) }
{
    denkumari::dk_to_form2(file, out)
}

// A file of form 2 in form 1. A refused call changes nothing that is lent.
#[unsafe(no_mangle)]
pub extern "C" fn dk_to_form1(file: &[u8], out: &mut [u8]) -> DkCount
    ensures { ConvertSays form-2 file.now out.old (record { answer = result; out = out.new }) }
{
    denkumari::dk_to_form1(file, out)
}

// A layout file, laid out in one call.
ghost use Rattle.says.specs.Form.{FormSays};
ghost use Rattle.says.specs.FormPaged.{FormPagedSays};

use c_answers::{DkLayout, tell_layout};

// Lays a file of either form out, with the fill's choice: the image, and the spans in three lists. A refused call changes nothing that is lent.
pub fn dk_form(
    file: &[u8],
    fill: u8,
    image: &mut [u8],
    addresses: &mut [i64],
    offsets: &mut [u64],
    sizes: &mut [u64],
) -> DkLayout
    ensures { FormSays file.now fill
        (record { image = image.old; addresses = addresses.old; offsets = offsets.old; sizes = sizes.old })
        (record {
          answer = result;
          lent = record { image = image.new; addresses = addresses.new; offsets = offsets.new; sizes = sizes.new };
        }) }
{
    tell_layout(form_build::build_file(file, fill, None, image, addresses, offsets, sizes))
}

// The same in the profile of a device with pages of `page` bits: the image, and the spans in three lists. A refused call changes nothing that is lent.
pub fn dk_form_paged(
    file: &[u8],
    fill: u8,
    page: u32,
    image: &mut [u8],
    addresses: &mut [i64],
    offsets: &mut [u64],
    sizes: &mut [u64],
) -> DkLayout
    ensures { FormPagedSays file.now fill page
        (record { image = image.old; addresses = addresses.old; offsets = offsets.old; sizes = sizes.old })
        (record {
          answer = result;
          lent = record { image = image.new; addresses = addresses.new; offsets = offsets.new; sizes = sizes.new };
        }) }
{
    tell_layout(form_build::build_file(file, fill, Some(page), image, addresses, offsets, sizes))
}

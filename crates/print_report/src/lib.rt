// What the program prints for a file: its layout built, and the text of the build's answer.
#![tactic(auto)]

ghost use Rattle.std.specs.Prelude.{◌≡◌, length};
ghost use Rattle.print_text.specs.Puts.{Puts};
ghost use Rattle.print_answer.specs.Answer.{image_room};
ghost use Rattle.print_report.specs.Report.{span_room, report_text};

// Builds the file's layout in what is lent, and puts its text.
fn put_build(
    file: &[u8],
    fill: u8,
    page: Option<u32>,
    image: &mut [u8],
    addresses: &mut [i64],
    offsets: &mut [u64],
    sizes: &mut [u64],
    out: &mut [u8],
) -> Option<usize>
    requires image_len { length image.old ≡ image_room }
    requires addresses_len { length addresses.old ≡ span_room }
    requires offsets_len { length offsets.old ≡ span_room }
    requires sizes_len { length sizes.old ≡ span_room }
    ensures { Puts (report_text file.now fill page) out.old 0 result out.new }
{
    let answer = form_build::build_file(file, fill, page, image, addresses, offsets, sizes);
    let build = answer.build;
    print_answer::put_answer(build, image, offsets, sizes, out)
}

// What the program prints for a file's bytes, a fill's choice and a page size, if there is one, put at the front of `out`. Lends room for the image and
// the spans.
pub fn report(file: &[u8], fill: u8, page: Option<u32>, out: &mut [u8]) -> Option<usize>
    ensures { Puts (report_text file.now fill page) out.old 0 result out.new }
{
    let mut image = [0u8; 16384];
    let mut addresses = [0i64; 4096];
    let mut offsets = [0u64; 4096];
    let mut sizes = [0u64; 4096];
    put_build(
        file,
        fill,
        page,
        &mut image,
        &mut addresses,
        &mut offsets,
        &mut sizes,
        out,
    )
}

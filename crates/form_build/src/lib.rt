// A layout file, laid out: what it says goes to the build. The way from a file to its build stands here once.
#![tactic(auto)]

ghost use Rattle.std.specs.Prelude.{◌≡◌, ◌*◌, ◌≤◌, length, take};
ghost use Rattle.form_fields.specs.Shape.{form_of};
ghost use Rattle.form_fields.specs.Lists.{kinds_of, operands_of, numbers_of, states_of};
ghost use Rattle.nodes.specs.Lists.{lists};
ghost use Rattle.output.specs.Output.{input, lent};
ghost use Rattle.form_build.specs.Paged.{BuiltIn};
ghost use Rattle.form_build.specs.Filed.{choices_of, FileBuilt, HeldIn};

use bankdef::Bankdefs;
use form_fields::Shape;
use iter::Lost;
use output::Output;
use resolver::Choices;

// Room for the lists of any sound file. A node takes 8 of its 65,536 bytes, and 5 more in each row.
pub const ROOM: usize = 8_192;

pub const CELLS: usize = 13_107;

// What a file chooses, with the fill's choice, which no form carries: its pass limit, and whether bank 0 may be used. "From form 2 on, labels, written
// items and reserves in bank 0 are refused even when it is alone."
pub fn chosen(shape: Shape, fill: u8) -> Choices
    ensures { result ≡ choices_of shape fill }
{
    Choices {
        limit: shape.limit,
        fill,
        closed: shape.form == 2,
    }
}

// The build, in the profile of a device with pages of so many bits where a page size is given. A refused call changes nothing that is lent.
pub fn build_with(
    page: Option<u32>,
    banks: Bankdefs,
    kinds: &[u8],
    operands: &[u32],
    numbers: &[u32],
    states: &[u8],
    rows: u64,
    values: &[u8],
    choices: Choices,
    image: &mut [u8],
    addresses: &mut [i64],
    offsets: &mut [u64],
    sizes: &mut [u64],
) -> Output
    ensures { BuiltIn page
        (input banks
        (lists kinds.now operands.now numbers.now states.now rows values.now)
        choices)
        (lent image.old addresses.old offsets.old sizes.old) result
        (lent image.new addresses.new offsets.new sizes.new) }
{
    match page {
        None => output::build_output(
            banks, kinds, operands, numbers, states, rows, values, choices, image, addresses,
            offsets, sizes,
        ),
        Some(bits) => build_paged::build_in_profile(
            bits, banks, kinds, operands, numbers, states, rows, values, choices, image, addresses,
            offsets, sizes,
        ),
    }
}

// The build of a sound file, whose lists stand in the front of those lent.
fn build_read(
    file: &[u8],
    shape: Shape,
    fill: u8,
    page: Option<u32>,
    kinds: &[u8],
    operands: &[u32],
    numbers: &[u32],
    states: &[u8],
    image: &mut [u8],
    addresses: &mut [i64],
    offsets: &mut [u64],
    sizes: &mut [u64],
) -> Output
    requires { HeldIn file.now shape kinds.now operands.now numbers.now states.now }
    ensures { FileBuilt file.now fill page
        (lent image.old addresses.old offsets.old sizes.old) result
        (lent image.new addresses.new offsets.new sizes.new) }
{
    let choices = chosen(shape, fill);
    let nodes = shape.nodes as usize;
    let cells = shape.rows as usize * nodes;
    build_with(
        page,
        form_lists::read_banks(file),
        &kinds[..nodes],
        &operands[..nodes],
        &numbers[..cells],
        &states[..cells],
        shape.rows,
        form_lists::read_values(file),
        choices,
        image,
        addresses,
        offsets,
        sizes,
    )
}

// The build of a file: its lists are read into arrays that are large enough for any file. A refused call changes nothing that is lent.
pub fn build_file(
    file: &[u8],
    fill: u8,
    page: Option<u32>,
    image: &mut [u8],
    addresses: &mut [i64],
    offsets: &mut [u64],
    sizes: &mut [u64],
) -> Output
    ensures { FileBuilt file.now fill page
        (lent image.old addresses.old offsets.old sizes.old) result
        (lent image.new addresses.new offsets.new sizes.new) }
{
    match form_fields::read_shape(file) {
        Err(why) => {
            let none = Lost { bits: 0, units: 0 };
            Output {
                build: Err(why),
                passes: 0,
                padding: [none; 16],
            }
        }
        Ok(shape) => {
            let mut kinds = [0u8; ROOM];
            let mut operands = [0u32; ROOM];
            let mut numbers = [0u32; CELLS];
            let mut states = [0u8; CELLS];
            let _ = form_lists::read_lists(
                file,
                &mut kinds,
                &mut operands,
                &mut numbers,
                &mut states,
            );
            build_read(
                file, shape, fill, page, &kinds, &operands, &numbers, &states, image, addresses,
                offsets, sizes,
            )
        }
    }
}

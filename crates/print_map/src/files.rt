// The text of a file: its lists are read, its layout is mapped, and the records are written one behind the other.
ghost use Rattle.std.specs.Prelude.{◌≡◌, ◌++◌, ◌+◌, ◌≤◌, length};
ghost use Rattle.prelude.specs.Limits.{max_nodes};
ghost use Rattle.nodes.specs.Lists.{lists};
ghost use Rattle.output.specs.Output.{input};
ghost use Rattle.print_text.specs.Puts.{Writes};
ghost use Rattle.form_build.specs.Filed.{HeldIn};
ghost use Rattle.print_map.specs.Steps.{text_held};
ghost use Rattle.print_map.specs.Text.{file_line, said_in, map_after, map_text, map_room};

use crate::cells::write_line;
use crate::records::{write_banks, write_fault, write_nodes, write_refused, write_verdict};
use bankdef::Bankdefs;
use build_map::Map;
use form_build::{CELLS, ROOM};
use form_fields::Shape;
use iter::Lost;
use prelude::Refusal;
use resolver::Choices;

// The map after what the profile said: "19 (new), after 4 and before the first pass", so that no node has an entry.
fn after(said: Result<(), Refusal>, map: Map) -> Map
    ensures { result ≡ map_after said map }
{
    match said {
        Ok(()) => map,
        Err(why) => {
            let none = Lost { bits: 0, units: 0 };
            Map {
                verdict: Err(why),
                passes: 0,
                nodes: 0,
                fault: None,
                padding: [none; 16],
            }
        }
    }
}

// The map of a layout in the profile of a device with pages, where a page size is given.
fn in_profile(
    page: Option<u32>,
    banks: Bankdefs,
    kinds: &[u8],
    operands: &[u32],
    numbers: &[u32],
    states: &[u8],
    rows: u64,
    values: &[u8],
    choices: Choices,
    map: Map,
) -> Map
    ensures { result ≡ map_after (said_in page
        (input banks
        (lists kinds.now operands.now numbers.now states.now rows values.now)
        choices)) map }
{
    match page {
        None => map,
        Some(bits) => {
            let paged = build_profile::check_profile(
                banks, kinds, operands, numbers, states, rows, values, choices, bits,
            );
            let said = paged.verdict;
            after(said, map)
        }
    }
}

fn write_file(out: &mut [u8], shape: Shape, passes: u64) -> usize
    requires { 120 ≤ length out.old }
    ensures writes { Writes (file_line shape passes) out.old 0 result out.new }
    ensures upper_bound { result ≤ 120 }
{
    let marks = [0u8, 0, 0, 0, 0];
    let numbers = [
        shape.form as u64,
        shape.limit as u64,
        shape.rows,
        passes,
        shape.nodes,
    ];
    write_line(out, 0, b"file", &marks, &numbers)
}

// All records of a map, from the lists that it has filled.
fn write_all(
    out: &mut [u8],
    shape: Shape,
    banks: Bankdefs,
    kinds: &[u8],
    map: Map,
    banks_of: &[u64],
    positions: &[u32],
    outputs: &[u64],
    sizes: &[u32],
) -> usize
    requires map_room_in_bounds { map_room ≤ length out.old }
    requires nodes_le_max_nodes { (map.nodes ≤ max_nodes) × (map.nodes ≤ length kinds.now) }
    requires nodes_in_bounds { (map.nodes ≤ length banks_of.now) × (map.nodes ≤ length positions.now) × (map.nodes ≤ length outputs.now)
        × (map.nodes ≤ length sizes.now) }
    ensures writes { Writes
        (text_held shape banks map kinds.now banks_of.now positions.now outputs.now sizes.now)
        out.old 0 result out.new }
    ensures upper_bound { result ≤ map_room }
{
    let padding = map.padding;
    let fault = map.fault;
    let verdict = map.verdict;
    let a = write_file(out, shape, map.passes);
    let b = write_banks(out, a, banks, padding);
    let c = write_nodes(
        out,
        b,
        banks,
        kinds,
        map.nodes as usize,
        banks_of,
        positions,
        outputs,
        sizes,
    );
    let d = write_fault(out, c, fault);
    write_verdict(out, d, verdict)
}

// The text of a sound file, whose lists stand in the front of those lent.
fn map_read(
    file: &[u8],
    shape: Shape,
    fill: u8,
    page: Option<u32>,
    kinds: &[u8],
    operands: &[u32],
    numbers: &[u32],
    states: &[u8],
    out: &mut [u8],
) -> usize
    requires held_in { HeldIn file.now shape kinds.now operands.now numbers.now states.now }
    requires map_room_in_bounds { map_room ≤ length out.old }
    ensures writes { Writes (map_text file.now fill page) out.old 0 result out.new }
    ensures upper_bound { result ≤ map_room }
{
    let choices = form_build::chosen(shape, fill);
    let nodes = shape.nodes as usize;
    let cells = shape.rows as usize * nodes;
    let banks = form_lists::read_banks(file);
    let values = form_lists::read_values(file);
    let mut banks_of = [0u64; 4096];
    let mut positions = [0u32; 4096];
    let mut outputs = [0u64; 4096];
    let mut sizes = [0u32; 4096];
    let map = build_map::map_nodes(
        banks,
        &kinds[..nodes],
        &operands[..nodes],
        &numbers[..cells],
        &states[..cells],
        shape.rows,
        values,
        choices,
        &mut banks_of,
        &mut positions,
        &mut outputs,
        &mut sizes,
    );
    let shown = in_profile(
        page,
        banks,
        &kinds[..nodes],
        &operands[..nodes],
        &numbers[..cells],
        &states[..cells],
        shape.rows,
        values,
        choices,
        map,
    );
    write_all(
        out,
        shape,
        banks,
        &kinds[..nodes],
        shown,
        &banks_of,
        &positions,
        &outputs,
        &sizes,
    )
}

// The text of a file: its lists are read into arrays that are large enough for any file.
fn map_file(file: &[u8], fill: u8, page: Option<u32>, out: &mut [u8]) -> usize
    requires { map_room ≤ length out.old }
    ensures writes { Writes (map_text file.now fill page) out.old 0 result out.new }
    ensures upper_bound { result ≤ map_room }
{
    match form_fields::read_shape(file) {
        Err(why) => write_refused(out, 0, why),
        Ok(shape) => {
            let mut kinds = [0u8; ROOM];
            let mut operands = [0u32; ROOM];
            let mut numbers = [0u32; CELLS];
            let mut states = [0u8; CELLS];
            let _ = form_lists::read_lists(
                file,
                &mut kinds,
                &mut operands,
                &mut numbers,
                &mut states,
            );
            map_read(
                file, shape, fill, page, &kinds, &operands, &numbers, &states, out,
            )
        }
    }
}

// The map's text of a file of either form, a fill's choice and a page size, if there is one, at the front of `out`, which has room for any.
pub fn write_map(file: &[u8], fill: u8, page: Option<u32>, out: &mut [u8; 663552]) -> usize
    ensures writes { Writes (map_text file.now fill page) out.old 0 result out.new }
    ensures upper_bound { result ≤ map_room }
{
    map_file(file, fill, page, out)
}

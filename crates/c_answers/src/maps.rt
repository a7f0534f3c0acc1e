// A map's answer.
ghost use Rattle.std.specs.Prelude.{◌≡◌};
ghost use Rattle.c_answers.specs.Maps.{refused_below, stopped_from, node_told, refused_map, map_told};

use crate::{DkMap, first_of, second_of};
use build_map::Map;
use iter::Lost;
use prelude::Refusal;

// A refusal's number where it is below 5, and where it is not.
fn below(number: u64) -> u64
    ensures { result ≡ refused_below number }
{
    if number < 5 { number } else { 0 }
}

fn from(number: u64) -> u64
    ensures { result ≡ stopped_from number }
{
    if number < 5 { 0 } else { number }
}

fn node_of(fault: Option<u64>) -> u64
    ensures { result ≡ node_told fault }
{
    match fault {
        None => 18_446_744_073_709_551_615,
        Some(node) => node,
    }
}

// A map of a layout that is refused.
fn tell_refused(why: Refusal, node: u64, passes: u64, nodes: u64, padding: [Lost; 16]) -> DkMap
    ensures { result ≡ refused_map why node passes nodes padding }
{
    let number = prelude::number(why);
    let place = prelude::place_of(why);
    DkMap {
        refusal: below(number),
        stopped: from(number),
        place: first_of(place),
        second: second_of(place),
        node,
        passes,
        nodes,
        padding,
    }
}

// A map's answer in document 01's figures.
pub fn tell_map(map: Map) -> DkMap
    ensures { result ≡ map_told map }
{
    let passes = map.passes;
    let nodes = map.nodes;
    let padding = map.padding;
    let fault = map.fault;
    let node = node_of(fault);
    let verdict = map.verdict;
    match verdict {
        Ok(()) => DkMap {
            refusal: 0,
            stopped: 0,
            place: 0,
            second: 0,
            node,
            passes,
            nodes,
            padding,
        },
        Err(why) => tell_refused(why, node, passes, nodes, padding),
    }
}

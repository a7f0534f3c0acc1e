// What the map's program prints of a layout file: a line for the file, for each bank, for each node that has an entry, for the node at fault, and the verdict.
#![tactic(auto)]

mod cells;
mod files;
mod records;

pub use files::write_map;

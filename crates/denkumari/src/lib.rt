// The library for programs in other languages: exported functions over the proved ones, with numbers, slices and structs of numbers only.
// include/denkumari.h tells a C program of them. What each ensures is its sentence in the crate `says`, over its own parameters, before and after; what they
// return is made in the crate `c_answers`.
#![tactic(auto)]

mod builds;
mod conversions;
mod forms;
mod maps;
mod overlays;
mod parts;
mod profiles;
mod readbacks;
mod reasons;
mod record_files;
mod stores;

pub use builds::dk_build;
pub use conversions::{dk_to_form1, dk_to_form2};
pub use forms::{dk_form, dk_form_paged};
pub use maps::dk_map;
pub use overlays::{dk_overlay_range, dk_overlay_runs};
pub use parts::{dk_blocks, dk_hex, dk_part};
pub use profiles::{dk_build_paged, dk_profile};
pub use readbacks::dk_verify;
pub use reasons::dk_record_reason;
pub use record_files::{
    dk_read_records, dk_record_extent, dk_record_fault, dk_write_hex, dk_write_srec,
};
pub use stores::{dk_offer, dk_offers};

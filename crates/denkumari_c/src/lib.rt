// What C calls: each function of `denkumari` once more, exported, with the same parameters and the same contract. A crate is a library or a static library, so
// these stand in one of their own. include/denkumari.h tells a C program of them.
#![tactic(auto)]

mod builds;
mod conversions;
mod forms;
mod maps;
mod overlays;
mod parts;
mod profiles;
mod readbacks;
mod reasons;
mod record_files;
mod stores;

//! Plays run files on parts.
#![tactic(auto)]

mod bench;
mod play;
mod record;

pub use bench::{Bench, Outcome};

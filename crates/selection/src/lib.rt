// A selection under way: how far it has come, and what each byte and the release do.
#![tactic(auto)]

mod address;
mod control;
mod ending;
mod hearing;
mod held;
mod opcode;
mod phase;
mod reading;
mod write;
mod writing;

pub use control::Control;
pub use ending::end;
pub use hearing::{Heard, hear};
pub use held::Held;
pub use phase::Phase;
pub use writing::{DirectWrite, PageWrite};

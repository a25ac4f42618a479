//! Run files: recorded sessions with a part. `Reader::open` checks the table of a lent file, or answers its first fault; the
//! reader is then an iterator of the records, as parts of the file with their place, and `Record::read` says what one of them
//! says.
//!
//!     for found in Reader::open(&file)? {
//!         let record = Record::read(found.bytes)?;
//!     }
#![tactic(auto)]

pub mod fault;
pub mod letters;
mod reader;
mod table;

pub use fault::{Cause, FileFault, Layer, OpeningFault, RecordFault, Spot};
pub use letters::{Letter, Record};
pub use reader::{Found, Reader};
pub use table::{LONGEST, MOST_RECORDS};

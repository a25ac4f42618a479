// What can be wrong with a run file. Faults nest: a part's refusal stands inside a record's fault, and that inside the
// file's, with the layer in which it arose, the record and its place.
ghost use Rattle.std.specs.Prelude.{◌≡◌};
ghost use Rattle.runfile.specs.Numbers.{opening_number, record_number, cause_number, layer_of, opening_fault_at, record_fault_at};
ghost use Rattle.runfile.specs.declared.fault.RecordFault.TheVariants.{Refused};

use refusal::Refusal;

// Why a file does not open, with the number of each fault.
#[derive(Clone, Copy, PartialEq, Eq, Debug)]
pub enum OpeningFault {
    // The file is too long, has too many records, or ends before its table does.
    NoTable = 31,
    // A record is empty, or starts before the table's end or the end of the record before.
    Misplaced = 32,
    // A record reaches past the file's end.
    PastEnd = 33,
}

impl OpeningFault {
    // The number of this fault.
    pub fn number(self) -> u8
        ensures { result ≡ opening_number self }
    {
        self as u8
    }
}

// Why a record is not done.
#[derive(Clone, Copy, PartialEq, Eq, Debug)]
pub enum RecordFault {
    // Its first byte is no letter of a record.
    UnknownLetter,
    // Behind its letter stand too few or too many bytes, or a number out of bounds.
    WrongArgument,
    // The part refused a call.
    Refused(Refusal),
}

impl RecordFault {
    // The number of this fault; of a refusal, that of the part.
    pub fn number(self) -> u8
        ensures { result ≡ record_number self }
    {
        match self {
            RecordFault::UnknownLetter => 34,
            RecordFault::WrongArgument => 35,
            RecordFault::Refused(refusal) => refusal.number(),
        }
    }

    // The layer in which this fault arose.
    pub fn layer(self) -> Layer
        ensures { result ≡ layer_of self }
    {
        match self {
            RecordFault::UnknownLetter | RecordFault::WrongArgument => Layer::Letter,
            RecordFault::Refused(_) => Layer::Part,
        }
    }
}

impl From<Refusal> for RecordFault {
    ghost from_gives = { λ refusal fault. fault ≡ Refused refusal };

    fn from(refusal: Refusal) -> RecordFault {
        RecordFault::Refused(refusal)
    }
}

// The layers of a run file, from the outside in.
#[derive(Clone, Copy, PartialEq, Eq, Debug)]
pub enum Layer {
    // the table of the file
    File,
    // the letter and the numbers of a record
    Letter,
    // the part that a record is run on
    Part,
}

// Where in a file a fault or a record is.
#[derive(Clone, Copy, PartialEq, Eq, Debug)]
pub struct Spot {
    // the number of the record, from 0
    pub number: usize,
    // a place in bytes from the file's start: where the record starts or, at the opening, its pair
    pub place: usize,
}

// What is wrong, in the table or in a record.
#[derive(Clone, Copy, PartialEq, Eq, Debug)]
pub enum Cause {
    Opening(OpeningFault),
    InRecord(RecordFault),
}

// A fault of a whole file.
#[derive(Clone, Copy, PartialEq, Eq, Debug)]
pub struct FileFault {
    // set where the fault is converted, so that nobody has to work it out from the nesting
    pub layer: Layer,
    pub spot: Spot,
    pub cause: Cause,
}

impl FileFault {
    // The number of the innermost fault.
    pub fn number(self) -> u8
        ensures { result ≡ cause_number self.cause }
    {
        match self.cause {
            Cause::Opening(fault) => fault.number(),
            Cause::InRecord(fault) => fault.number(),
        }
    }
}

impl From<(Spot, OpeningFault)> for FileFault {
    ghost from_gives = { λ found fault. fault ≡ opening_fault_at found.0 found.1 };

    fn from(found: (Spot, OpeningFault)) -> FileFault {
        let (spot, fault) = found;
        FileFault {
            layer: Layer::File,
            spot,
            cause: Cause::Opening(fault),
        }
    }
}

impl From<(Spot, RecordFault)> for FileFault {
    ghost from_gives = { λ found fault. fault ≡ record_fault_at found.0 found.1 };

    fn from(found: (Spot, RecordFault)) -> FileFault {
        let (spot, fault) = found;
        FileFault {
            layer: fault.layer(),
            spot,
            cause: Cause::InRecord(fault),
        }
    }
}

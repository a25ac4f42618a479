// What a record says.
ghost use Rattle.std.specs.Prelude.{◌≡◌};
ghost use Rattle.runfile.specs.Letters.{said, ReadsBack, transfer_said, ticks_said, truth_said, power_up_said};
ghost use Rattle.runfile.specs.Seen.{seen, letter_text, letter_behind, letter_of};

use super::fault::RecordFault;

// A record's letter, as it is printed.
#[derive(Clone, Copy, PartialEq, Eq, Debug)]
pub enum Letter {
    T,
    K,
    C,
    H,
    P,
    // Any other byte, and no byte at all. A case and no `Option`, since it too is printed: as ?.
    Unknown,
}

// The letter that a byte is.
impl From<u8> for Letter {
    ghost from_gives = { λ byte letter. letter ≡ letter_behind byte };

    fn from(byte: u8) -> Letter {
        match byte {
            b'T' => Letter::T,
            b'K' => Letter::K,
            b'C' => Letter::C,
            b'H' => Letter::H,
            b'P' => Letter::P,
            _ => Letter::Unknown,
        }
    }
}

impl Letter {
    // The letter of a record, by its first byte.
    pub fn of(bytes: &[u8]) -> Letter
        ensures { result ≡ letter_of bytes.now }
    {
        bytes
            .first()
            .map_or(Letter::Unknown, |byte| Letter::from(*byte))
    }

    // The character that is printed for it.
    pub fn as_str(self) -> &'static str
        ensures { result.now ≡ letter_text self }
    {
        match self {
            Letter::T => "T",
            Letter::K => "K",
            Letter::C => "C",
            Letter::H => "H",
            Letter::P => "P",
            Letter::Unknown => "?",
        }
    }
}

// What a record says: the calls that it stands for, or the hold level that it sets.
#[derive(Clone, Copy)]
pub enum Record<'a> {
    // Select, send these bytes, release with so many clocks left over.
    Transfer { clocks: u8, bytes: &'a [u8] },
    // So many ticks.
    Ticks { count: u8 },
    // A cut.
    Cut { charged: bool },
    // The hold level from now on.
    Hold { held: bool },
    // A power-up.
    PowerUp,
}

impl<'a> Record<'a> {
    // What the bytes of a record say. Refused with 34 if the letter is unknown, with 35 if what stands behind it is not what
    // belongs there; so exactly the bytes that are written for some record are read, and as that record.
    pub fn read(bytes: &'a [u8]) -> Result<Record<'a>, RecordFault>
        ensures said { seen result ≡ said bytes.now }
        ensures exact { ReadsBack bytes.now (seen result) }
    {
        read_letter(bytes)
    }
}

fn read_letter(bytes: &[u8]) -> Result<Record<'_>, RecordFault>
    ensures { seen result ≡ said bytes.now }
{
    let (first, args) = bytes.split_first().ok_or(RecordFault::UnknownLetter)?;
    match Letter::from(*first) {
        Letter::T => read_transfer(args),
        Letter::K => read_ticks(args),
        Letter::C => Ok(Record::Cut {
            charged: read_truth(args)?,
        }),
        Letter::H => Ok(Record::Hold {
            held: read_truth(args)?,
        }),
        Letter::P => read_power_up(args),
        Letter::Unknown => Err(RecordFault::UnknownLetter),
    }
}

// The clocks, and the bytes behind them.
fn read_transfer(args: &[u8]) -> Result<Record<'_>, RecordFault>
    ensures { seen result ≡ transfer_said args.now }
{
    match args {
        [clocks, sent @ ..] if *clocks <= 7 => Ok(Record::Transfer {
            clocks: *clocks,
            bytes: sent,
        }),
        _ => Err(RecordFault::WrongArgument),
    }
}

// A number of ticks, at least one.
fn read_ticks(args: &[u8]) -> Result<Record<'_>, RecordFault>
    ensures { seen result ≡ ticks_said args.now }
{
    match args {
        [count] if *count >= 1 => Ok(Record::Ticks { count: *count }),
        _ => Err(RecordFault::WrongArgument),
    }
}

// One byte, 1 or 0.
fn read_truth(args: &[u8]) -> Result<bool, RecordFault>
    ensures { result ≡ truth_said args.now }
{
    match args {
        [0] => Ok(false),
        [1] => Ok(true),
        _ => Err(RecordFault::WrongArgument),
    }
}

// Nothing.
fn read_power_up(args: &[u8]) -> Result<Record<'_>, RecordFault>
    ensures { seen result ≡ power_up_said args.now }
{
    match args {
        [] => Ok(Record::PowerUp),
        _ => Err(RecordFault::WrongArgument),
    }
}

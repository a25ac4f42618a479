// The table of a run file: its count, and a pair of offset and length for each record.
ghost use Rattle.std.specs.Prelude.{◌≡◌, ◌+◌, ◌*◌, ◌<◌, ◌≤◌, true, false, length, Some, None, MatchOption, MatchResult};
ghost use Rattle.runfile.specs.Table.{number_at, count_of, pair_place, offset_of, length_of, fault_of, has_table};

use super::fault::OpeningFault;

// A file has at most so many bytes,
pub const LONGEST: usize = 65_535;

// and at most so many records.
pub const MOST_RECORDS: usize = 1_024;

// The count, if the table is there.
pub(super) fn count(file: &[u8]) -> Option<u16>
    ensures { MatchOption result (has_table file.now ≡ false) (λ n. (has_table file.now ≡ true) × ((n ≡ count_of file.now) × ((n ≤ 1024) × (pair_place n ≤ length file.now)))) }
{
    let count = u16::from_be_bytes(*file.first_chunk()?);
    let is_there = file.len() <= LONGEST
        && usize::from(count) <= MOST_RECORDS
        && Pair::place(usize::from(count)) <= file.len();
    is_there.then_some(count)
}

// A pair of the table: where its record starts, and how many bytes the record has.
#[derive(Clone, Copy)]
pub(super) struct Pair {
    pub offset: u16,
    pub length: u16,
}

impl From<[u8; 4]> for Pair {
    ghost from_gives = { λ bytes pair. (pair.offset ≡ number_at bytes 0) × (pair.length ≡ number_at bytes 2) };

    fn from(bytes: [u8; 4]) -> Pair {
        Pair {
            offset: u16::from_be_bytes([bytes[0], bytes[1]]),
            length: u16::from_be_bytes([bytes[2], bytes[3]]),
        }
    }
}

impl Pair {
    // The place of pair i; that of the pair behind the last is the table's end.
    pub(super) fn place(i: usize) -> usize
        requires { i ≤ 65535 }
        ensures { result ≡ pair_place i }
    {
        2 + 4 * i
    }

    // Pair i of a file.
    pub(super) fn read(file: &[u8], i: u16) -> Pair
        requires { 4 * i + 5 < length file.now }
        ensures offset { result.offset ≡ offset_of file.now i }
        ensures length { result.length ≡ length_of file.now i }
    {
        let at = Pair::place(usize::from(i));
        Pair::from([file[at], file[at + 1], file[at + 2], file[at + 3]])
    }

    // The place behind its record.
    pub(super) fn end(self) -> usize
        ensures { result ≡ self.offset + self.length }
    {
        usize::from(self.offset) + usize::from(self.length)
    }

    // Checks the pair in a file of so many bytes. Its record may start at the floor at the earliest.
    pub(super) fn check(self, size: usize, floor: usize) -> Result<(), OpeningFault>
        ensures { MatchResult result (λ _. fault_of self.offset self.length floor size ≡ None) (λ f. fault_of self.offset self.length floor size ≡ Some f) }
    {
        if self.length == 0 || usize::from(self.offset) < floor {
            return Err(OpeningFault::Misplaced);
        }
        if size < self.end() {
            return Err(OpeningFault::PastEnd);
        }
        Ok(())
    }
}

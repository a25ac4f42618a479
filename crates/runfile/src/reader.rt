// A reader over a lent run file: an iterator of the records as parts of the file, each with its place.
ghost use Rattle.std.specs.Prelude.{◌≡◌, ◌≤◌, Some, None, MatchResult};
ghost use Rattle.runfile.specs.Table.{count_of, opening_fault};

use super::fault::{FileFault, OpeningFault, Spot};
use super::table::{self, Pair};

// A record where it stands in its file.
#[derive(Clone, Copy)]
pub struct Found<'a> {
    pub spot: Spot,
    pub bytes: &'a [u8],
}

// The records of a file that opens, from the next one on.
#[derive(Clone, Copy)]
pub struct Reader<'a> {
    file: &'a [u8],
    count: u16,
    // The next record by its number, which is told with it.
    next: u16,
    ghost opens: { opening_fault file.now ≡ None },
    ghost counted: { count ≡ count_of file.now },
    ghost within: { next ≤ count },
}

impl<'a> Reader<'a> {
    ghost use Rattle.runfile.specs.Reader.{Opened};

    // Opens a file: checks its table, and stands before its first record. Refused with the first fault of the table: 31 for
    // the table as a whole, then pair by pair 32 and 33.
    pub fn open(file: &'a [u8]) -> Result<Reader<'a>, FileFault>
        ensures { MatchResult result (λ reader. Opened file.now reader) (λ fault. opening_fault file.now ≡ Some fault) }
    {
        // A fault of the whole table is told at record 0, place 0.
        let no_pair = Spot {
            number: 0,
            place: 0,
        };
        let count = table::count(file).ok_or(FileFault::from((no_pair, OpeningFault::NoTable)))?;
        let mut floor = Pair::place(usize::from(count));
        let (pairs, _) = file[2..floor].as_chunks::<4>();
        for (number, bytes) in pairs.iter().enumerate() {
            let spot = Spot {
                number,
                place: Pair::place(number),
            };
            let pair = Pair::from(*bytes);
            pair.check(file.len(), floor)
                .map_err(|fault| FileFault::from((spot, fault)))?;
            floor = pair.end();
        }
        Ok(Reader {
            file,
            count,
            next: 0,
        })
    }
}

impl<'a> Iterator for Reader<'a> {
    ghost use Rattle.std.specs.Prelude.{◌≡◌};
    ghost use Rattle.std.specs.Iterator.{item_count};
    ghost use Rattle.runfile.specs.Reader.{left, Steps};

    type Item = Found<'a>;

    // The records come as the table has them, and in its order; the file and the count stay.
    ghost next_gives = { Steps };

    ghost remaining = { item_count left };

    // The next record, or none behind the last.
    fn next(&mut self) -> Option<Found<'a>> {
        if self.next >= self.count {
            return None;
        }
        let pair = Pair::read(self.file, self.next);
        let spot = Spot {
            number: usize::from(self.next),
            place: usize::from(pair.offset),
        };
        self.next += 1;
        Some(Found {
            spot,
            bytes: &self.file[usize::from(pair.offset)..pair.end()],
        })
    }
}

// Playing a whole run file.
ghost use Rattle.std.specs.Prelude.{◌≡◌, ℕ, true, List, ◌++◌, is_some, is_ok, MatchResult};
ghost use Rattle.runfile.specs.Table.{opening_fault};
ghost use Rattle.runfile.specs.Reader.{record_seen};
ghost use Rattle.benchlines.specs.Room.{HasRoom};
ghost use Rattle.replay.specs.Ran.{state_of};
ghost use Rattle.replay.specs.Played.{RanLocated, RanOrNot, Played, PlayedInPart};

use super::bench::Bench;
use cells::Cells;
use dialect::Dialect;
use runfile::{FileFault, Found, Letter, Reader};
use std::alloc::AllocError;

impl<D: Dialect, C: Cells> Bench<D, C> {
    // Plays a run file, and adds to a text a line for each of its records, or one line if its opening is refused. Fails where
    // memory does; then the records up to some one were run, and what was added to the text is not told. An opening that is
    // refused is told if there is room for 44 bytes.
    pub fn play(&mut self, file: &[u8], out: &mut Vec<u8>) -> Result<(), AllocError>
        ensures told { is_some (opening_fault file.now) ≡ true → HasRoom out.old 44 → is_ok result ≡ true }
        ensures played { let before = state_of D.Dialect C.Cells self.old in let after = state_of D.Dialect C.Cells self.new in MatchResult result (λ _. (text : List ℕ) × ((out.new.items ≡ out.old.items ++ text) × Played file.now before text after)) (λ _. PlayedInPart file.now before after) }
    {
        let records = match Reader::open(file) {
            Ok(records) => records,
            Err(fault) => return benchlines::add_refused_opening(out, &fault),
        };
        for found in records {
            self.play_record(found, out)?;
        }
        Ok(())
    }

    // Runs a record where it stands in its file, and adds its line; the record's fault is told as one of the file.
    fn play_record(&mut self, found: Found<'_>, out: &mut Vec<u8>) -> Result<(), AllocError>
        ensures { let before = state_of D.Dialect C.Cells self.old in let after = state_of D.Dialect C.Cells self.new in MatchResult result (λ _. (text : List ℕ) × ((out.new.items ≡ out.old.items ++ text) × RanLocated (record_seen found.entry) before text after)) (λ _. RanOrNot (record_seen found.entry) before after) }
    {
        let Found { spot, bytes } = found;
        let result = self
            .run(bytes)?
            .map_err(|fault| FileFault::from((spot, fault)));
        let letter = Letter::of(bytes);
        benchlines::add_line(out, spot.number, letter, &result, self.driven())
    }
}

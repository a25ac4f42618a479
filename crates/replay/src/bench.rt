// A part on a bench, on which records are run.
ghost use Rattle.std.specs.Prelude.{◌≡◌, ℕ, ◌≤◌, true, false, [], length, is_ok, vec_capacity, Result, MatchResult};
ghost use Rattle.refusal.specs.declared.Refusal.{Refusal as Refused};
ghost use Rattle.part.specs.View.{answered};
ghost use Rattle.runfile.specs.Seen.{said_by};
ghost use Rattle.replay.specs.Ran.{state_of, ClearedFor, Ran, RanRecord, of_record, bytes_sent, Untouched};

use cells::Cells;
use dialect::Dialect;
use part::Part;
use refusal::Refusal;
use runfile::{Record, RecordFault};
use std::alloc::{AllocError, Global};

// A part, the hold level, and what was driven at each byte of the last record.
pub struct Bench<D: Dialect, C: Cells> {
    pub(super) part: Part<D, C>,
    pub(super) held: bool,
    pub(super) driven: Vec<Option<u8>>,
}

// What came of a record: done, with the pages to go, or its fault. A number and no `Option`: in the rules every call that is done
// answers a number, 0 but for a tick.
pub type Outcome = Result<u32, RecordFault>;

impl<D: Dialect, C: Cells> Bench<D, C> {
    // Puts a part on a bench, with no hold.
    pub fn new(part: Part<D, C>, heap: Global) -> Bench<D, C>
        ensures part { result.part ≡ part }
        ensures level { result.held ≡ false }
        ensures driven { result.driven.items ≡ [] }
    {
        Bench {
            part,
            held: false,
            driven: Vec::new(heap),
        }
    }

    // What was driven at each byte of the last record, none where the line was not driven.
    pub fn driven(&self) -> &[Option<u8>]
        ensures { result.now ≡ self.now.driven.items }
    {
        self.driven.as_slice()
    }

    // Takes the part off the bench, as it is.
    pub fn into_part(self) -> Part<D, C>
        ensures { result ≡ self.part }
    {
        let Bench {
            part,
            held: _,
            driven: _,
        } = self;
        part
    }

    // Runs a record, by its bytes. If there is no memory for what will be driven, nothing is done; and that can only be if the
    // buffer of an earlier record has less room than this record has bytes.
    pub fn run(&mut self, bytes: &[u8]) -> Result<Outcome, AllocError>
        ensures succeeds { length bytes.now ≤ vec_capacity self.old.driven → is_ok result ≡ true }
        ensures ran { let before = state_of D.Dialect C.Cells self.old in let after = state_of D.Dialect C.Cells self.new in MatchResult result (λ outcome. RanRecord bytes.now before outcome self.new.driven.items after) (λ _. Untouched before self.new.driven.items after) }
    {
        self.driven.clear();
        self.driven.reserve(bytes.len())?;
        Ok(self.carry_out(bytes))
    }

    fn carry_out(&mut self, bytes: &[u8]) -> Outcome
        requires { ClearedFor (length bytes.now) self.old.driven }
        ensures { RanRecord bytes.now (state_of D.Dialect C.Cells self.old) result self.new.driven.items (state_of D.Dialect C.Cells self.new) }
    {
        self.obey(Record::read(bytes)?)
    }

    fn obey(&mut self, record: Record<'_>) -> Outcome
        requires { ClearedFor (bytes_sent (said_by «record»)) self.old.driven }
        ensures { (answer : Result ℕ Refused) × ((result ≡ of_record answer) × Ran (said_by «record».entry) (state_of D.Dialect C.Cells self.old) answer self.new.driven.items (state_of D.Dialect C.Cells self.new)) }
    {
        match record {
            Record::Transfer { clocks, bytes } => done(self.transfer(clocks, bytes)),
            Record::Ticks { count } => Ok(self.tick(count)?),
            Record::Cut { charged } => done(self.part.cut(charged)),
            Record::Hold { held } => {
                self.held = held;
                Ok(0)
            }
            Record::PowerUp => done(self.part.power_up()),
        }
    }
}

// The answer of a call that answers nothing as a record's outcome; its refusal becomes a fault of the record.
fn done(answer: Result<(), Refusal>) -> Outcome
    ensures { result ≡ of_record (answered answer) }
{
    answer?;
    Ok(0)
}

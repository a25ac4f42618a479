// Working a part through a list of calls.
ghost use Rattle.std.specs.Prelude.{◌≡◌, Ok};
ghost use Rattle.promises.specs.Served.{Served};
ghost use Rattle.part.specs.declared.answer.Answer.{Answer};
ghost use Rattle.part.specs.View.{told, brought, Suits, WorkedThrough};
ghost use Rattle.part.specs.Whole.{whole};

use super::{Answer, Part};
use cells::Cells;
use dialect::Dialect;
use refusal::Refusal;
use rules::Call;

impl<D: Dialect, C: Cells> Part<D, C> {
    // Makes one call, whichever it is.
    pub fn make(&mut self, call: Call) -> Result<Answer, Refusal>
        ensures suits { (a : Answer) → result ≡ Ok a → Suits call a }
        ensures served { Served call (whole D.Dialect C.Cells self.old) (told result) (brought result) (whole D.Dialect C.Cells self.new) }
    {
        match call {
            Call::Select => self.select()?,
            Call::Byte { value, held } => return self.byte(value, held).map(Answer::Driven),
            Call::Release { clocks } => self.release(clocks)?,
            Call::Tick => return self.tick().map(Answer::ToGo),
            Call::Cut { charged } => self.cut(charged)?,
            Call::PowerUp => self.power_up()?,
        }
        Ok(Answer::Done)
    }

    // Works the part through some calls, in order and straight on past refusals. Whatever led to the part before, everything
    // promised holds at every moment of the whole run.
    pub fn work(&mut self, calls: &[Call])
        ensures { WorkedThrough calls.now (whole D.Dialect C.Cells self.old) (whole D.Dialect C.Cells self.new) }
    {
        for call in calls {
            let _ = self.make(*call);
        }
    }
}

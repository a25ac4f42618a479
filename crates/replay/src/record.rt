// The records that stand for more calls than one.
ghost use Rattle.std.specs.Prelude.{◌≡◌, ℕ, [], map, length, Result};
ghost use Rattle.refusal.specs.declared.Refusal.{Refusal as Refused};
ghost use Rattle.rules.specs.declared.Call.TheVariants.{Byte};
ghost use Rattle.part.specs.View.{answered};
ghost use Rattle.runfile.specs.Letters.{transfer, ticks};
ghost use Rattle.replay.specs.Ran.{state_of, ClearedFor, Made, Ran};

use super::bench::Bench;
use cells::Cells;
use dialect::Dialect;
use refusal::Refusal;

impl<D: Dialect, C: Cells> Bench<D, C> {
    // Selects, sends the bytes and releases.
    pub(super) fn transfer(&mut self, clocks: u8, bytes: &[u8]) -> Result<(), Refusal>
        requires { ClearedFor (length bytes.now) self.old.driven }
        ensures { Ran (transfer clocks bytes.now) (state_of D.Dialect C.Cells self.old) (answered result) self.new.driven.items (state_of D.Dialect C.Cells self.new) }
    {
        self.part.select()?;
        self.send(bytes);
        self.part.release(clocks)
    }

    // Sends the bytes. A refused one is not driven at.
    fn send(&mut self, bytes: &[u8])
        requires { ClearedFor (length bytes.now) self.old.driven }
        ensures made { let before = state_of D.Dialect C.Cells self.old in let after = state_of D.Dialect C.Cells self.new in (last : Result ℕ Refused) × Made (map (λ b. Byte b before.held) bytes.now) before.part self.new.driven.items last after.part }
        ensures level { self.new.held ≡ self.old.held }
    {
        // Read once: no call of the part changes it, and the loop need not look again.
        let held = self.held;
        for byte in bytes {
            let on_the_line = self.part.byte(*byte, held).unwrap_or(None);
            self.driven.push_reserved(on_the_line);
        }
    }

    // So many ticks, up to the first that is refused. Answers the pages to go behind the last.
    pub(super) fn tick(&mut self, count: u8) -> Result<u32, Refusal>
        ensures ran { Ran (ticks count) (state_of D.Dialect C.Cells self.old) result [] (state_of D.Dialect C.Cells self.new) }
        ensures driven { self.new.driven ≡ self.old.driven }
    {
        let mut to_go = 0;
        for _ in 0..count {
            to_go = self.part.tick()?;
        }
        Ok(to_go)
    }
}

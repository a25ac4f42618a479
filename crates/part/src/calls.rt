// The six calls. Each answers, changes and drives what the rules say, refused or done; and whatever led to the part, all that
// is promised of a run holds at this moment and at every moment before.
ghost use Rattle.std.specs.Prelude.{◌≡◌, None};
ghost use Rattle.rules.specs.declared.Call.TheVariants.{Select, Byte, Release, Tick, Cut, PowerUp};
ghost use Rattle.promises.specs.Served.{Served};
ghost use Rattle.part.specs.View.{answered, drove};
ghost use Rattle.part.specs.Whole.{whole};

use super::Part;
use cells::Cells;
use dialect::Dialect;
use refusal::Refusal;
use rules::{Activity, Power};
use selection::Control;

impl<D: Dialect, C: Cells> Part<D, C> {
    // Begins a selection. Refused with 1 if the part is dead, 2 if it is off, 3 if it is selected already; then nothing
    // changes.
    pub fn select(&mut self) -> Result<(), Refusal>
        ensures { Served Select (whole D.Dialect C.Cells self.old) (answered result) (None) (whole D.Dialect C.Cells self.new) }
    {
        self.ready()?;
        self.begin()
    }

    // Sends a byte; held tells whether the hold line is active, under which the byte is ignored. Answers the byte that the
    // part drives, if any. Refused with 1, 2, or 4 if the part is not selected; then nothing changes.
    pub fn byte(&mut self, value: u8, held: bool) -> Result<Option<u8>, Refusal>
        ensures { Served (Byte value held) (whole D.Dialect C.Cells self.old) (answered result) (drove result) (whole D.Dialect C.Cells self.new) }
    {
        let awake = self.ready()?;
        self.hear(awake, value, held)
    }

    // Ends the selection, with so many clocks left over behind its last whole byte. Refused with 1, 2, 4, or 5 if more than 7
    // clocks are left over; then nothing changes. Every other answer ends the selection.
    pub fn release(&mut self, clocks: u8) -> Result<(), Refusal>
        ensures { Served (Release clocks) (whole D.Dialect C.Cells self.old) (answered result) (None) (whole D.Dialect C.Cells self.new) }
    {
        let awake = self.ready()?;
        self.finish(awake, clocks)
    }

    // Lets the time pass in which a page is stored, recalled or woken. Answers the pages still to go. Refused with 1 or 2;
    // then nothing changes.
    pub fn tick(&mut self) -> Result<u32, Refusal>
        ensures { Served Tick (whole D.Dialect C.Cells self.old) (result) (None) (whole D.Dialect C.Cells self.new) }
    {
        let awake = self.ready()?;
        Ok(self.advance(awake))
    }

    // Cuts the power; charged tells whether enough charge is left to keep pages. Refused with 1 or 2; then nothing changes.
    pub fn cut(&mut self, charged: bool) -> Result<(), Refusal>
        ensures { Served (Cut charged) (whole D.Dialect C.Cells self.old) (answered result) (None) (whole D.Dialect C.Cells self.new) }
    {
        let awake = self.ready()?;
        self.lose_power(awake, charged);
        Ok(())
    }

    // Brings the power back: the part wakes from page 0 on. Refused with 1 if it is dead, 6 if it is on; then nothing changes.
    pub fn power_up(&mut self) -> Result<(), Refusal>
        ensures cells { self.new.cells ≡ self.old.cells }
        ensures served { Served PowerUp (whole D.Dialect C.Cells self.old) (answered result) (None) (whole D.Dialect C.Cells self.new) }
    {
        match self.ready() {
            Ok(_) => Err(Refusal::AlreadyOn),
            Err(Refusal::PowerOff) => {
                self.control = Control {
                    power: Power::On(Activity::Waking(0)),
                    latch: false,
                    failed: false,
                    written: false,
                    ..self.control
                };
                Ok(())
            }
            Err(refusal) => Err(refusal),
        }
    }
}

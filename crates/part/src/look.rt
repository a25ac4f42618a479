// Looking at a part.
ghost use Rattle.std.specs.Prelude.{◌≡◌, Decides};
ghost use Rattle.rules.specs.declared.Power.TheVariants.{On};
ghost use Rattle.rules.specs.declared.Activity.TheVariants.{Idle};

use super::Part;
use cells::Cells;
use dialect::Dialect;
use rules::{Activity, Power};

impl<D: Dialect, C: Cells> Part<D, C> {
    // The cells under the part. Nothing changes.
    pub fn cells(&self) -> &C
        ensures { result.now ≡ self.now.cells }
    {
        &self.cells
    }

    // The status bits that the last status write set. Nothing changes.
    pub fn status_bits(&self) -> u8
        ensures { result ≡ self.now.control.status_bits }
    {
        self.control.status_bits
    }

    // Whether the part is on and idle. Nothing changes.
    pub fn is_idle(&self) -> bool
        ensures { Decides result (self.now.control.power ≡ On Idle) }
    {
        self.control.power == Power::On(Activity::Idle)
    }

    // Takes the part apart and gives its cells back, as they are.
    pub fn into_cells(self) -> C
    where
        D: Drop,
        ensures { result ≡ self.cells }
    {
        let Part {
            dialect: _,
            cells,
            control: _,
            selection: _,
        } = self;
        cells
    }
}

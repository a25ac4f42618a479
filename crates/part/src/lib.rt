// A part: one dialect above one cell array.
#![tactic(auto)]

ghost use Rattle.std.specs.Prelude.{◌≡◌, []};
ghost use Rattle.promises.specs.Served.{Led};
ghost use Rattle.part.specs.View.{Ready};
ghost use Rattle.part.specs.Whole.{whole};

use cells::Cells;
use dialect::Dialect;
use refusal::Refusal;
use rules::{Activity, Power};
use selection::{Control, Phase};

mod answer;
mod calls;
mod look;
mod run;
mod steps;

pub use answer::Answer;

// The call that sends a byte with the hold line not active. It is a macro because a constant may not call a function.
#[macro_export]
macro_rules! send {
    ($value:expr) => {
        rules::Call::Byte {
            value: $value,
            held: false,
        }
    };
}

// What a part is doing that can be worked, and the size of its cells.
#[derive(Clone, Copy)]
struct Awake {
    activity: Activity,
    size: u32,
}

// The clauses read a part as its `whole` (specs/Whole.antt). A Model would make none of them shorter: its value must keep the
// cells, which `new`, `cells` and `into_cells` tell, and what the cells hold is known only from C's ghost members.
pub struct Part<D: Dialect, C: Cells> {
    dialect: D,
    cells: C,
    control: Control,
    selection: Option<Phase>,
}

impl<D: Dialect, C: Cells> Part<D, C> {
    // Makes a part: off, unselected, with no status bits, latch and marks clear. No byte of the cells changes.
    pub fn new(dialect: D, cells: C) -> Part<D, C>
        ensures cells { result.cells ≡ cells }
        ensures made { Led (C.images cells) [] (whole D.Dialect C.Cells result) }
    {
        let control = Control {
            power: Power::Off,
            status_bits: 0,
            latch: false,
            failed: false,
            written: false,
        };
        Part {
            dialect,
            cells,
            control,
            selection: None,
        }
    }

    // Whether the part can be worked now: a dead one is refused with 1, and one that is off with 2.
    fn ready(&self) -> Result<Awake, Refusal>
        ensures { Ready (whole D.Dialect C.Cells self.now) result }
    {
        let size = self.cells.size();
        if !D::is_alive(size) {
            return Err(Refusal::Dead);
        }
        match self.control.power {
            Power::Off => Err(Refusal::PowerOff),
            Power::On(activity) => Ok(Awake {
                activity,
                size: size as u32,
            }),
        }
    }
}

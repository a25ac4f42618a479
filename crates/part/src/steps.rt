// What each call does to a part that is on: the answer, the control and the cells, as the rules have it.
ghost use Rattle.std.specs.Prelude.{◌≡◌, ◌+◌, ◌-◌, ◌/◌, ◌<◌, ◌≤◌, [], if◌then◌else◌, None, Ok, nat_lt};
ghost use Rattle.cells.specs.Laws.{size_of};
ghost use Rattle.rules.specs.declared.Call.TheVariants.{Select, Byte, Release, Tick, Cut};
ghost use Rattle.rules.specs.declared.Activity.{Activity};
ghost use Rattle.rules.specs.declared.Activity.TheVariants.{Idle};
ghost use Rattle.rules.specs.Power.{keeps, saved, cut_events};
ghost use Rattle.rules.specs.State.{unselected};
ghost use Rattle.part.specs.View.{answered, drove, IsAwake, Does};
ghost use Rattle.part.specs.Whole.{whole};
ghost use Rattle.selection.specs.View.{kind, state_of, DoneTo};

use super::{Awake, Part};
use cells::Cells;
use dialect::Dialect;
use refusal::Refusal;
use rules::{Activity, Power};
use selection::{Control, Heard, Phase};

impl Awake {
    // The pages of its cells.
    fn pages(self) -> u32
        ensures { result ≡ self.size / 64 }
    {
        self.size / 64
    }
}

impl<D: Dialect, C: Cells> Part<D, C> {
    pub(super) fn begin(&mut self) -> Result<(), Refusal>
        ensures { (activity : Activity) → Does Select activity (whole D.Dialect C.Cells self.old) (answered result) (None) (whole D.Dialect C.Cells self.new) }
    {
        match self.selection {
            Some(_) => Err(Refusal::AlreadySelected),
            None => {
                self.selection = Some(Phase::Opcode);
                Ok(())
            }
        }
    }

    pub(super) fn hear(
        &mut self,
        awake: Awake,
        value: u8,
        held: bool,
    ) -> Result<Option<u8>, Refusal>
        requires { IsAwake awake (whole D.Dialect C.Cells self.old) }
        ensures { Does (Byte value held) awake.activity (whole D.Dialect C.Cells self.old) (answered result) (drove result) (whole D.Dialect C.Cells self.new) }
    {
        match &mut self.selection {
            None => Err(Refusal::NotSelected),
            Some(_) if held => Ok(None),
            Some(phase) => {
                let Heard { driven, wrote } = selection::hear::<D, C>(
                    &self.control,
                    awake.activity,
                    phase,
                    &mut self.cells,
                    awake.size,
                    value,
                );
                self.control.written |= wrote;
                Ok(driven)
            }
        }
    }

    pub(super) fn finish(&mut self, awake: Awake, clocks: u8) -> Result<(), Refusal>
        requires { IsAwake awake (whole D.Dialect C.Cells self.old) }
        ensures { Does (Release clocks) awake.activity (whole D.Dialect C.Cells self.old) (answered result) (None) (whole D.Dialect C.Cells self.new) }
    {
        let Some(phase) = &self.selection else {
            return Err(Refusal::NotSelected);
        };
        if clocks > 7 {
            return Err(Refusal::TooManyClocks);
        }
        let answer = selection::end::<D, C>(
            &mut self.control,
            phase,
            &mut self.cells,
            awake.size,
            clocks,
        );
        self.selection = None;
        answer
    }

    pub(super) fn advance(&mut self, awake: Awake) -> u32
        requires { IsAwake awake (whole D.Dialect C.Cells self.old) }
        ensures { Does Tick awake.activity (whole D.Dialect C.Cells self.old) (Ok result) (None) (whole D.Dialect C.Cells self.new) }
    {
        let pages = awake.pages();
        let (page, next) = match awake.activity {
            Activity::Idle => return 0,
            Activity::Storing(page) => {
                let _ = self.cells.keep(page as usize);
                self.control.written &= is_more(page, pages);
                (page, onward(Activity::Storing, page, pages))
            }
            Activity::Recalling(page) => {
                let _ = self.cells.recall(page as usize);
                (page, onward(Activity::Recalling, page, pages))
            }
            Activity::Waking(page) => {
                let _ = self.cells.recall(page as usize);
                (page, onward(Activity::Waking, page, pages))
            }
        };
        self.control.power = Power::On(next);
        to_go(page, pages)
    }

    pub(super) fn lose_power(&mut self, awake: Awake, charged: bool)
        requires { IsAwake awake (whole D.Dialect C.Cells self.old) }
        ensures { Does (Cut charged) awake.activity (whole D.Dialect C.Cells self.old) (Ok 0) (None) (whole D.Dialect C.Cells self.new) }
    {
        drain::<D, C>(&mut self.cells, &self.control, awake, charged);
        self.selection = None;
        self.control.power = Power::Off;
    }
}

// Keeps the pages from one on, lowest first.
fn keep_from<D: Dialect, C: Cells>(cells: &mut C, from: u32, pages: u32)
    requires { pages ≡ (C.site cells.old).pages }
    ensures { DoneTo D.facts C.Cells cells.old (keeps from (pages - from)) cells.new }
{
    for page in from..pages {
        let _ = cells.keep(page as usize);
    }
}

// What a cut keeps, if it is charged: while storing every page still to go; while idle all pages, if something was written
// and PowerStore is on; else nothing.
fn save<D: Dialect, C: Cells>(cells: &mut C, control: &Control, awake: Awake, charged: bool)
    requires { awake.size ≡ size_of (C.site cells.old) }
    ensures { DoneTo D.facts C.Cells cells.old (if charged then saved (kind D.facts C.Cells cells.old) (state_of control.now unselected) awake.activity else []) cells.new }
{
    if !charged {
        return;
    }
    match awake.activity {
        Activity::Idle if control.written && D::power_store(control.status_bits) => {
            keep_from::<D, C>(cells, 0, awake.pages())
        }
        Activity::Storing(page) => keep_from::<D, C>(cells, page, awake.pages()),
        _ => {}
    }
}

// Keeps what the cut keeps, and lets the cells fade.
fn drain<D: Dialect, C: Cells>(cells: &mut C, control: &Control, awake: Awake, charged: bool)
    requires { awake.size ≡ size_of (C.site cells.old) }
    ensures { DoneTo D.facts C.Cells cells.old (cut_events (kind D.facts C.Cells cells.old) (state_of control.now unselected) awake.activity charged) cells.new }
{
    save::<D, C>(cells, control, awake, charged);
    cells.fade();
}

// Whether pages come behind this one.
fn is_more(page: u32, pages: u32) -> bool
    ensures { result ≡ nat_lt (page + 1) pages }
{
    to_go(page, pages) > 0
}

// How many pages come behind this one.
fn to_go(page: u32, pages: u32) -> u32
    ensures { result ≡ pages - (page + 1) }
{
    pages.saturating_sub(page).saturating_sub(1)
}

// The activity behind a page: the same at the next page, or idle behind the last.
fn onward<F: Fn(u32) -> Activity>(activity: F, page: u32, pages: u32) -> Activity
    requires { F.IsAlwaysCallable activity }
    ensures more { page + 1 < pages → F.post activity (page + 1) result }
    ensures last { pages ≤ page + 1 → result ≡ Idle }
{
    if is_more(page, pages) {
        activity(page + 1)
    } else {
        Activity::Idle
    }
}

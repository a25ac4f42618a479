// The plain types that the rules of the machine and its code share. The rules themselves stand in specs/, one file for
// each subject; specs/Step.antt joins them.
#![tactic(auto)]

// What a powered part is doing. The number is its next page.
#[derive(Clone, Copy, PartialEq, Eq, Debug)]
pub enum Activity {
    Idle,
    Storing(u32),
    Recalling(u32),
    Waking(u32),
}

// Power is off, or on with an activity. An enum of its own and no `Option`: every rule and promise speaks of power that is off
// or on, and `None` would not say which.
#[derive(Clone, Copy, PartialEq, Eq, Debug)]
pub enum Power {
    Off,
    On(Activity),
}

// What can be done to a part from outside.
#[derive(Clone, Copy, PartialEq, Eq, Debug)]
pub enum Call {
    // Begins a selection.
    Select,
    // Eight clocks: a byte is sent to the part, which may drive one back. Under hold it is ignored.
    Byte { value: u8, held: bool },
    // Ends the selection, with so many clocks left over behind its last whole byte.
    Release { clocks: u8 },
    // The time in which a page is stored, recalled or woken.
    Tick,
    // Power is lost; charged means that enough charge is left to keep pages.
    Cut { charged: bool },
    // Power comes back.
    PowerUp,
}

// Plays a short session with the memory of a lap watch: dialect nv above shadowed cells of 256 bytes that are all FF. It
// prints each call, its answer, the byte driven back, and the bytes kept at the lap's place. Then it cuts the power after
// every single call that writes and stores the lap, and prints what the next waking finds there.
//
// A part holds its lent memory for as long as it lives. So each line has a part of its own, made anew and worked up to that
// call; when it is gone, the memory is free to be looked at: the working image, then the kept image.
//
// The expected output is worked out by bench/lapwatch_expected.py, a small model that shares nothing with the code here.
#![tactic(auto)]

use dialect::Nv;
use part::{Answer, Part, send};
use refusal::Refusal;
use rules::Call;
use shadowed::Shadowed;
use std::{fmt, io};

// The calls of the session. The first 5 wake the part. Up to call 24 they write the lap and store it: enable, write 01 12 34
// 56 from address 90 on (it lies in page 2), store. The rest read it back.
const SESSION: [Call; 33] = [
    Call::PowerUp,
    Call::Tick,
    Call::Tick,
    Call::Tick,
    Call::Tick,
    Call::Select,
    send!(0x06),
    Call::Release { clocks: 0 },
    Call::Select,
    send!(0x02),
    send!(0x00),
    send!(0x90),
    send!(0x01),
    send!(0x12),
    send!(0x34),
    send!(0x56),
    Call::Release { clocks: 0 },
    Call::Select,
    send!(0x3C),
    Call::Release { clocks: 0 },
    Call::Tick,
    Call::Tick,
    Call::Tick,
    Call::Tick,
    Call::Select,
    send!(0x03),
    send!(0x00),
    send!(0x90),
    send!(0x00),
    send!(0x00),
    send!(0x00),
    send!(0x00),
    Call::Release { clocks: 0 },
];

const WAKING: [Call; 5] = [
    Call::PowerUp,
    Call::Tick,
    Call::Tick,
    Call::Tick,
    Call::Tick,
];

const LAP: [u8; 4] = [0x01, 0x12, 0x34, 0x56];

// The bytes of each image, and the place of the lap in it.
const SIZE: usize = 256;

const PLACE: usize = 0x90;

// The heading above the call of this number, counted from 1.
fn heading(number: usize) -> Option<&'static str> {
    match number {
        1 => Some("The watch wakes, page by page:"),
        6 => Some("It enables one write:"),
        9 => Some("It writes the lap:"),
        18 => Some("It stores, page by page:"),
        25 => Some("It reads the lap back:"),
        _ => None,
    }
}

// Bytes, each behind a space.
#[derive(Drop)]
struct Bytes<'a>(&'a [u8]);

impl fmt::Display for Bytes<'_> {
    fn fmt<W: fmt::Write>(&self, f: &mut fmt::Formatter<W>) -> fmt::Result {
        for byte in self.0 {
            write!(f, " {byte:02X}")?;
        }
        Ok(())
    }
}

// A call, as the session tells it.
#[derive(Drop)]
struct Told(Call);

impl fmt::Display for Told {
    fn fmt<W: fmt::Write>(&self, f: &mut fmt::Formatter<W>) -> fmt::Result {
        match self.0 {
            Call::Select => f.write_str("select"),
            Call::Byte { value, held: _ } => write!(f, "send {value:02X}"),
            Call::Release { clocks: _ } => f.write_str("release"),
            Call::Tick => f.write_str("wait for one page"),
            Call::Cut { charged: _ } => f.write_str("power off"),
            Call::PowerUp => f.write_str("power on"),
        }
    }
}

// A call and what it came to.
#[derive(Drop)]
struct Made(Call, Result<Answer, Refusal>);

impl fmt::Display for Made {
    fn fmt<W: fmt::Write>(&self, f: &mut fmt::Formatter<W>) -> fmt::Result {
        let Made(call, result) = *self;
        write!(f, "{}: ", Told(call))?;
        match result {
            Err(refusal) => write!(f, "{refusal}, driven --"),
            Ok(Answer::ToGo(pages)) => write!(f, "answer 0, {pages} to go, driven --"),
            Ok(Answer::Driven(Some(byte))) => write!(f, "answer 0, driven {byte:02X}"),
            Ok(Answer::Driven(None) | Answer::Done) => f.write_str("answer 0, driven --"),
        }
    }
}

// Works a new part through the calls before, and then makes the call. What it leaves is in the memory.
fn play(memory: &mut [u8], before: &[Call], call: Call) -> Result<Answer, Refusal> {
    let mut part = Part::new(Nv, Shadowed::over(memory));
    part.work(before);
    let answer = part.make(call);
    let _ = part.into_cells();
    answer
}

fn print_session(rt: &HostRuntime) -> io::Result<()> {
    for (at, call) in SESSION.iter().enumerate() {
        let number = at + 1;
        if let Some(words) = heading(number) {
            println!(rt; "{words}")?;
        }
        let mut memory = [0xFF; 2 * SIZE];
        let made = Made(*call, play(&mut memory, &SESSION[..at], *call));
        let kept = Bytes(&memory[SIZE + PLACE..][..LAP.len()]);
        println!(rt; "{number:>3}. {made}, kept{kept}")?;
    }
    Ok(())
}

// Prints what the working image has at the lap's place after the calls, the cut and the next waking.
fn print_found(rt: &HostRuntime, calls: &[Call], charged: bool) -> io::Result<()> {
    let mut memory = [0xFF; 2 * SIZE];
    let mut part = Part::new(Nv, Shadowed::over(&mut memory));
    part.work(calls);
    let _ = part.cut(charged);
    part.work(&WAKING);
    let _ = part.into_cells();
    let found = &memory[PLACE..PLACE + LAP.len()];
    let charge = if charged { "charged" } else { "uncharged" };
    let verdict = if found == LAP.as_slice() {
        "there"
    } else {
        "lost"
    };
    println!(rt; "     {charge}: the lap is {verdict},{}", Bytes(found))
}

// Cuts the power after each call from the 6th to the 24th.
fn print_cuts(rt: &HostRuntime) -> io::Result<()> {
    for (at, call) in SESSION.iter().enumerate().take(24).skip(5) {
        let number = at + 1;
        println!(rt; "{number:>3}. {}", Told(*call))?;
        print_found(rt, &SESSION[..number], false)?;
        print_found(rt, &SESSION[..number], true)?;
    }
    Ok(())
}

fn main(rt: HostRuntime) -> io::Result<()> {
    println!(rt;
        "The memory of a lap watch: 256 bytes, all FF. The lap is 01 12 34 56, at address 90."
    )?;
    println!(rt;
        "Answer 0 is done; driven is the byte that comes back; kept is what outlasts the battery."
    )?;
    print_session(&rt)?;
    println!(rt;
        "The battery goes flat right after one of the calls. What the next waking finds at address 90:"
    )?;
    print_cuts(&rt)
}

// Loads a part of dialect nv above shadowed cells of 32768 bytes with made-up traffic, for so many rounds as each argument
// says, and prints one number in which every answer and every driven byte has a share.
//
// bench/part_baseline plays the same traffic on a model of the same machine in ordinary Rust, and must print the same;
// the expected output comes from there. bench/part.sh compares their speed.
#![tactic(auto)]

use crc::AddressBytes;
use dialect::Nv;
use part::Part;
use refusal::Refusal;
use shadowed::Shadowed;
use std::alloc::{AllocError, Global};
use std::env;

const SIZE: u32 = 32768;

const PAGES: u16 = 512;

// A part, where the made-up numbers have come to, and the number that all answers and driven bytes go into.
struct Load<'a> {
    part: Part<Nv, Shadowed<'a>>,
    seed: u32,
    total: u32,
}

impl<'a> Load<'a> {
    // The next made-up number.
    fn draw(&mut self) -> u16 {
        self.seed = self.seed.wrapping_mul(1664525).wrapping_add(1013904223);
        (self.seed >> 16) as u16
    }

    fn draw_byte(&mut self) -> u8 {
        let [_, low] = self.draw().to_be_bytes();
        low
    }

    // Whether a thing that happens once in so many times happens now.
    fn once_in(&mut self, times: u16) -> bool {
        self.draw().checked_rem(times) == Some(0)
    }

    // Notes what a call came to: a number, or the number of its refusal. Each call goes by its own method, since by
    // `Part::make` the traffic takes 5 percent longer.
    fn note(&mut self, answer: Result<u32, Refusal>) {
        let value = answer.unwrap_or_else(|refusal| u32::from(refusal.number()));
        self.total = self.total.wrapping_mul(16777619).wrapping_add(value);
    }

    // A driven byte is 256 and more, no driven byte is 0.
    fn send(&mut self, value: u8, held: bool) {
        let answer = self.part.byte(value, held);
        self.note(answer.map(|driven| driven.map_or(0, |byte| 256 + u32::from(byte))));
    }

    // Selects, and sends an opcode.
    fn open(&mut self, opcode: u8) {
        let answer = self.part.select();
        self.note(answer.map(|()| 0));
        self.send(opcode, false);
    }

    fn close(&mut self, clocks: u8) {
        let answer = self.part.release(clocks);
        self.note(answer.map(|()| 0));
    }

    // Waits for so many pages. The pages to go are noted.
    fn wait(&mut self, pages: u16) {
        for _ in 0..pages {
            let answer = self.part.tick();
            self.note(answer);
        }
    }

    // Waits for nearly all pages: the next calls may find the part still busy.
    fn wait_long(&mut self) {
        let pages = PAGES - self.draw() % 16;
        self.wait(pages);
    }

    fn command(&mut self, opcode: u8) {
        self.open(opcode);
        self.close(0);
    }

    fn send_number(&mut self, number: u16) {
        for byte in number.to_be_bytes() {
            self.send(byte, false);
        }
    }

    // A write of 72 bytes, not yet released. A byte under hold comes before them.
    fn begin_write(&mut self) {
        self.command(0x06);
        self.open(0x02);
        let address = self.draw();
        self.send_number(address);
        self.send(0xAA, true);
        for _ in 0..72 {
            let value = self.draw_byte();
            self.send(value, false);
        }
    }

    // A read or a secure read of so many bytes.
    fn read(&mut self, opcode: u8, count: u32) {
        self.open(opcode);
        let address = self.draw();
        self.send_number(address);
        for _ in 0..count {
            self.send(0, false);
        }
        self.close(0);
    }

    // A secure frame with one byte 64 times. Every fourth is damaged in its sum.
    fn write_frame(&mut self) {
        let address = self.draw();
        let value = self.draw_byte();
        let damage = u16::from(self.once_in(4));
        let sum = crc::page_sum(AddressBytes::Two, SIZE, u32::from(address), &[value; 64]) ^ damage;
        self.command(0x06);
        self.open(0x12);
        self.send_number(address);
        for _ in 0..64 {
            self.send(value, false);
        }
        self.send_number(sum);
        self.close(0);
    }

    // Any opcode, a byte behind it, and any number of clocks left over, be it too many; then one more release.
    fn stray(&mut self) {
        let opcode = self.draw_byte();
        self.open(opcode);
        self.send(opcode, false);
        let clocks = (self.draw() % 9) as u8;
        self.close(clocks);
        self.close(0);
    }

    // A status write: other protection, running on or rolling over, PowerStore on or off.
    fn write_status(&mut self) {
        self.command(0x06);
        self.open(0x01);
        let value = self.draw_byte();
        self.send(value, false);
        self.close(0);
    }

    // A store or a recall.
    fn move_pages(&mut self, opcode: u8) {
        self.command(opcode);
        self.wait_long();
    }

    fn wake(&mut self) {
        let answer = self.part.power_up();
        self.note(answer.map(|()| 0));
        self.wait_long();
    }

    fn cut(&mut self) {
        let charged = self.once_in(2);
        let answer = self.part.cut(charged);
        self.note(answer.map(|()| 0));
        self.command(0x05);
        self.wake();
    }

    // What comes now and then. A write that is begun here goes on in the next round, or the power is cut in its middle.
    fn play_seldom(&mut self) {
        match self.draw() % 64 {
            0..8 => self.write_status(),
            8..12 => self.stray(),
            12 => self.move_pages(0x3C),
            13 => self.move_pages(0x60),
            14 => self.begin_write(),
            _ => {}
        }
    }

    fn play(&mut self, rounds: u32) {
        self.wake();
        for _ in 0..rounds {
            self.wait(4);
            self.begin_write();
            let clocks = (self.draw() % 16 / 15) as u8;
            self.close(clocks);
            self.read(0x03, 64);
            self.read(0x13, 66);
            self.read(0x05, 1);
            if self.once_in(4) {
                self.write_frame();
            }
            self.play_seldom();
            if self.once_in(64) {
                self.cut();
            }
        }
    }
}

// The number that so many rounds come to.
fn total_of(heap: Global, rounds: u32) -> Result<u32, AllocError> {
    let mut memory = vec![in heap; 0u8; 65536]?;
    let part = Part::new(Nv, Shadowed::over(memory.as_mut_slice()));
    let mut load = Load {
        part,
        seed: 1,
        total: 0,
    };
    load.play(rounds);
    let Load {
        part,
        seed: _,
        total,
    } = load;
    let _ = part.into_cells();
    Ok(total)
}

fn print_total(rt: &HostRuntime, rounds: u32) -> anyhow::Result<()> {
    let total = total_of(rt.alloc(), rounds)?;
    println!(rt; "{rounds} rounds: {total:08X}")?;
    Ok(())
}

// An argument that is no number counts as 0 rounds.
fn main(rt: HostRuntime) -> anyhow::Result<()> {
    for word in env::args(&rt)?.skip(1) {
        print_total(&rt, word.as_str().parse::<u32>().unwrap_or(0))?;
    }
    Ok(())
}

// Writes under way: the page buffer of a paged write, and the direct write.
ghost use Rattle.std.specs.Prelude.{◌≡◌, ◌+◌, ◌%◌, ◌<◌, true, not, ◌&&◌, ◌||◌, []};
ghost use Rattle.rules.specs.Byte.{paged, direct};
ghost use Rattle.rules.specs.Kind.{next_page, page_protected};
ghost use Rattle.rules.specs.State.{writing_paged};
ghost use Rattle.rules.specs.Write.{first_held, latest, fills_page, accepted};
ghost use Rattle.selection.specs.Held.{items};
ghost use Rattle.selection.specs.View.{kind, DoneTo, Fits, Puts, page_write, direct_write};

use crate::held::Held;
use crate::write::{accept, is_protected, put};
use cells::Cells;
use dialect::Dialect;

// A paged write: the page of the buffer, the offset of the first byte that it holds, and those bytes in the order of
// sending; whether some data fell in a protected page that was left, and whether any data came.
#[derive(Clone, Copy)]
pub struct PageWrite {
    pub page: u32,
    pub first: u8,
    pub held: Held,
    pub blocked: bool,
    pub any: bool,
}

impl PageWrite {
    // Whether the next byte completes the page: the write runs on, and offset 63 is filled.
    fn completes<D: Dialect>(&self, status_bits: u8) -> bool
        ensures { result ≡ (D.facts.runs_on status_bits && fills_page self.now.first (items self.now.held)) }
    {
        D::runs_on(status_bits) && (usize::from(self.first) + self.held.len()) % 64 == 63
    }

    // Holds a byte: the latest of each offset, so of more than 64 the last 64.
    fn hold(&mut self, byte: u8)
        ensures first { self.new.first ≡ first_held self.old.first (items self.old.held) }
        ensures held { items self.new.held ≡ latest (items self.old.held) byte }
        ensures page { self.new.page ≡ self.old.page }
        ensures blocked { self.new.blocked ≡ self.old.blocked }
    {
        if self.held.len() >= 64 {
            self.held.replace_first(byte);
            self.first = (self.first % 64 + 1) % 64;
        } else {
            self.held.push(byte);
        }
    }

    // Accepts the page, empties the buffer and goes on at the next page. Answers whether anything was put.
    fn turn<D: Dialect, C: Cells>(&mut self, cells: &mut C, status_bits: u8, size: u32) -> bool
        requires { Fits size (C.site cells.old) }
        ensures phase { page_write self.new ≡ writing_paged (next_page (kind D.facts C.Cells cells.old) self.old.page) 0 [] (self.old.blocked || page_protected (kind D.facts C.Cells cells.old) status_bits self.old.page) true }
        ensures wrote { result ≡ not (page_protected (kind D.facts C.Cells cells.old) status_bits self.old.page) }
        ensures done { DoneTo D.facts C.Cells cells.old (accepted (kind D.facts C.Cells cells.old) status_bits self.old.page self.old.first (items self.old.held)) cells.new }
    {
        let held = self.held.as_slice();
        let accepted = accept::<D, C>(cells, status_bits, self.page, self.first, held);
        *self = PageWrite {
            page: next(self.page, size / 64),
            first: 0,
            held: Held::new(),
            blocked: self.blocked || accepted.is_err(),
            any: true,
        };
        accepted.is_ok()
    }

    // One data byte. A write that runs on accepts its page when offset 63 is filled, and goes on at the next page. Answers
    // whether anything was put.
    pub(crate) fn take<D: Dialect, C: Cells>(
        &mut self,
        cells: &mut C,
        status_bits: u8,
        size: u32,
        byte: u8,
    ) -> bool
        requires { Fits size (C.site cells.old) }
        ensures { Puts D.facts C.Cells (paged (kind D.facts C.Cells cells.old) status_bits self.old.page self.old.first (items self.old.held) self.old.blocked byte) cells.old (page_write self.new) result cells.new }
    {
        let full = self.completes::<D>(status_bits);
        self.hold(byte);
        self.any = true;
        if full {
            self.turn::<D, C>(cells, status_bits, size)
        } else {
            false
        }
    }
}

// The address or the page behind this one, of so many; behind the last comes 0.
pub(crate) fn next(this: u32, many: u32) -> u32
    requires { 0 < many }
    ensures { result ≡ (this + 1) % many }
{
    ((u64::from(this) + 1) % u64::from(many)) as u32
}

// A direct write: the address of the next byte; whether some data fell in the protected range, and whether any data came.
#[derive(Clone, Copy)]
pub struct DirectWrite {
    pub at: u32,
    pub blocked: bool,
    pub any: bool,
}

impl DirectWrite {
    // One data byte: it is put unless its address is protected. Answers whether it was.
    pub(crate) fn take<D: Dialect, C: Cells>(
        &mut self,
        cells: &mut C,
        status_bits: u8,
        size: u32,
        byte: u8,
    ) -> bool
        requires { Fits size (C.site cells.old) }
        ensures { Puts D.facts C.Cells (direct (kind D.facts C.Cells cells.old) status_bits self.old.at self.old.blocked byte) cells.old (direct_write self.new) result cells.new }
    {
        let at = self.at;
        let blocked = is_protected::<D>(status_bits, size as usize, at as usize);
        if !blocked {
            put::<D, C>(cells, at as usize, byte);
        }
        *self = DirectWrite {
            at: next(at, size),
            blocked: self.blocked || blocked,
            any: true,
        };
        !blocked
    }
}

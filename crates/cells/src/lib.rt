// Cell arrays: the memory that a part stands on, by its two images.
#![tactic(auto)]

ghost use Rattle.std.specs.Prelude.{◌≡◌, Bool};
ghost use Rattle.refusal.specs.Numbers.{numbered};
ghost use Rattle.cells.specs.Images.{Images, got, address_answer, page_answer, after_put, after_keep, after_recall};
ghost use Rattle.cells.specs.Laws.{Site, size_of, Lawful, Bytes};

use refusal::Refusal;

pub mod image;
mod outlast;
mod sizes;

pub use outlast::outlast_fade;
pub use sizes::{LARGEST, SMALLEST, size_for};

// The bytes of a page.
pub const PAGE: usize = 64;

// A cell array of N bytes: a working image, and a kept image that outlasts the loss of power. Page p is the 64 bytes from
// 64 × p.
//
// Contracts tell a refusal by its number, through the one definition that gives each case its number. What a call answers, what
// it does to the images and what it leaves have a clause each, whose name says which.
pub trait Cells {
    // The two images.
    ghost images: { Self → Images };

    // Whether a put reaches the kept image at once (lasting), or only a keep does (shadowed).
    ghost lasting: { Bool };

    // What no call changes, the number of pages among it.
    ghost site: { Self → Site };

    // Both images have N bytes, 64 for each page: each array proves it.
    ghost lawful: { Lawful images site };

    // The size N in bytes.
    fn size(&self) -> usize
        ensures { result ≡ size_of (site self.now) };

    // The working byte at an address. An address past the end is refused with 41.
    fn get(&self, at: usize) -> Result<u8, Refusal>
        ensures { numbered result ≡ got (size_of (site self.now)) at (images self.now).working };

    // Sets the working byte at an address, and in a lasting array the kept one too. An address past the end is refused
    // with 41, and nothing changes.
    fn put(&mut self, at: usize, byte: u8) -> Result<(), Refusal>
        ensures answer { numbered result ≡ address_answer (size_of (site self.old)) at }
        ensures images { images self.new ≡ after_put lasting (size_of (site self.old)) at byte (images self.old) }
        ensures site { site self.new ≡ site self.old };

    // Sets a page of the kept image to that page of the working image. A page past the end is refused with 42, and
    // nothing changes.
    fn keep(&mut self, page: usize) -> Result<(), Refusal>
        ensures answer { numbered result ≡ page_answer (site self.old).pages page }
        ensures images { images self.new ≡ after_keep (site self.old).pages page (images self.old) }
        ensures site { site self.new ≡ site self.old };

    // Sets a page of the working image to that page of the kept image. A page past the end is refused with 42, and
    // nothing changes.
    fn recall(&mut self, page: usize) -> Result<(), Refusal>
        ensures answer { numbered result ≡ page_answer (site self.old).pages page }
        ensures images { images self.new ≡ after_recall (site self.old).pages page (images self.old) }
        ensures site { site self.new ≡ site self.old };

    // What the loss of power does: the kept image stays, and the working image is left with any N bytes.
    fn fade(&mut self)
        ensures kept { (images self.new).kept ≡ (images self.old).kept }
        ensures working { Bytes (size_of (site self.old)) (images self.new).working }
        ensures site { site self.new ≡ site self.old };
}

// Shadowed cells over lent memory: a working image that fades to FFh, and a kept image that only a keep changes.
#![tactic(auto)]

ghost use Rattle.std.specs.Prelude.{◌≡◌, ◌+◌, ◌<◌, false, length, replicate};
ghost use Rattle.cells.specs.Laws.{size_of, Bytes};
ghost use Rattle.shadowed.specs.Halves.{halves};
ghost use Rattle.shadowed.specs.Array.{site_of, lawful};

use cells::Cells;
use refusal::Refusal;

mod halves;

// An array over a buffer of 2 × N bytes: the working image, then the kept image. One slice and not one for each image, so that
// whoever lent it knows afterwards what all of it holds.
#[derive(Drop)]
pub struct Shadowed<'a> {
    bytes: &'a mut [u8],
}

impl<'a> Shadowed<'a> {
    // The array over this buffer, whose bytes stay as they are. Its size is half of the buffer's length. If the length is
    // odd, or its half no power of two from `SMALLEST` to `LARGEST`, the size is 0.
    pub fn over(bytes: &'a mut [u8]) -> Shadowed<'a>
        ensures bytes { result.bytes.now ≡ bytes.old }
        ensures memory { result.bytes.ghost_name ≡ bytes.entry.ghost_name }
    {
        Shadowed { bytes }
    }
}

impl<'a> Cells for Shadowed<'a> {
    ghost images = { λ s. halves s.bytes.now };

    ghost lasting = { false };

    ghost site = { site_of };

    ghost lawful = { lawful };

    // If the size is not 0, both images fill the buffer.
    fn size(&self) -> usize
        ensures size { result ≡ size_of (site_of self.now) }
        ensures fills { 0 < result → result + result ≡ length self.now.bytes.now }
    {
        halves::size(self.bytes)
    }

    fn get(&self, at: usize) -> Result<u8, Refusal> {
        halves::get(self.bytes, at)
    }

    fn put(&mut self, at: usize, byte: u8) -> Result<(), Refusal> {
        halves::put(self.bytes, at, byte)
    }

    fn keep(&mut self, page: usize) -> Result<(), Refusal> {
        halves::keep(self.bytes, page)
    }

    fn recall(&mut self, page: usize) -> Result<(), Refusal> {
        halves::recall(self.bytes, page)
    }

    // The working image is erased: every byte of it is FFh.
    fn fade(&mut self)
        ensures kept { (halves self.new.bytes.now).kept ≡ (halves self.old.bytes.now).kept }
        ensures working { Bytes (size_of (site_of self.old)) (halves self.new.bytes.now).working }
        ensures site { site_of self.new ≡ site_of self.old }
        ensures erased { (halves self.new.bytes.now).working ≡ replicate (size_of (site_of self.old)) 0xFF }
    {
        halves::fade(self.bytes, 0xFF);
    }
}

// Lasting cells over lent memory: one image of bytes, of which none fades.
#![tactic(auto)]

ghost use Rattle.std.specs.Prelude.{◌≡◌, ◌<◌, true, length};
ghost use Rattle.refusal.specs.Numbers.{numbered};
ghost use Rattle.cells.specs.Images.{page_answer, after_keep, after_recall};
ghost use Rattle.cells.specs.Laws.{size_of, Bytes};
ghost use Rattle.lasting.specs.Array.{site_of, lawful};
ghost use Rattle.lasting.specs.Whole.{whole};

use cells::{Cells, image};
use refusal::Refusal;

mod whole;

// An array over a buffer of N bytes, which are the working image and the kept image at once.
#[derive(Drop)]
pub struct Lasting<'a> {
    bytes: &'a mut [u8],
}

impl<'a> Lasting<'a> {
    // The array over this buffer, whose bytes stay as they are. Its size is the buffer's length. If that is no power of two
    // from `SMALLEST` to `LARGEST`, the size is 0.
    pub fn over(bytes: &'a mut [u8]) -> Lasting<'a>
        ensures bytes { result.bytes.now ≡ bytes.old }
        ensures memory { result.bytes.ghost_name ≡ bytes.entry.ghost_name }
    {
        Lasting { bytes }
    }

    // Looks for a page. It is the same in both images, so that a keep and a recall have nothing to copy. A page past the end
    // is refused with 42.
    fn find_page(&self, page: usize) -> Result<(), Refusal>
        ensures answer { numbered result ≡ page_answer (site_of self.now).pages page }
        ensures kept { whole self.now.bytes.now ≡ after_keep (site_of self.now).pages page (whole self.now.bytes.now) }
        ensures recalled { whole self.now.bytes.now ≡ after_recall (site_of self.now).pages page (whole self.now.bytes.now) }
    {
        image::find_page(whole::size(self.bytes), page)
    }
}

impl<'a> Cells for Lasting<'a> {
    ghost images = { λ s. whole s.bytes.now };

    ghost lasting = { true };

    ghost site = { site_of };

    ghost lawful = { lawful };

    // If the size is not 0, the image fills the buffer.
    fn size(&self) -> usize
        ensures size { result ≡ size_of (site_of self.now) }
        ensures fills { 0 < result → result ≡ length self.now.bytes.now }
    {
        whole::size(self.bytes)
    }

    fn get(&self, at: usize) -> Result<u8, Refusal> {
        whole::get(self.bytes, at)
    }

    fn put(&mut self, at: usize, byte: u8) -> Result<(), Refusal> {
        whole::put(self.bytes, at, byte)
    }

    // Changes nothing.
    fn keep(&mut self, page: usize) -> Result<(), Refusal>
        ensures answer { numbered result ≡ page_answer (site_of self.old).pages page }
        ensures images { whole self.new.bytes.now ≡ after_keep (site_of self.old).pages page (whole self.old.bytes.now) }
        ensures site { site_of self.new ≡ site_of self.old }
        ensures same { self.new.bytes.now ≡ self.old.bytes.now }
    {
        self.find_page(page)
    }

    // Changes nothing.
    fn recall(&mut self, page: usize) -> Result<(), Refusal>
        ensures answer { numbered result ≡ page_answer (site_of self.old).pages page }
        ensures images { whole self.new.bytes.now ≡ after_recall (site_of self.old).pages page (whole self.old.bytes.now) }
        ensures site { site_of self.new ≡ site_of self.old }
        ensures same { self.new.bytes.now ≡ self.old.bytes.now }
    {
        self.find_page(page)
    }

    // Changes nothing.
    fn fade(&mut self)
        ensures kept { (whole self.new.bytes.now).kept ≡ (whole self.old.bytes.now).kept }
        ensures working { Bytes (size_of (site_of self.old)) (whole self.new.bytes.now).working }
        ensures site { site_of self.new ≡ site_of self.old }
        ensures same { self.new.bytes.now ≡ self.old.bytes.now }
    {
        whole::fade(self.bytes);
    }
}

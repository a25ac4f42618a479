// The six calls on a buffer of two halves: the working image, then the kept image. They are functions over the slice and no
// methods, since a proof does not know what a write leaves in a slice that is a struct's field. Get and put read as those of
// lasting cells do, and stay apart for their promises: each tells its own images.
ghost use Rattle.std.specs.Prelude.{◌≡◌, ◌+◌, ◌<◌, ◌≤◌, false, ◌++◌, length, drop, replicate};
ghost use Rattle.refusal.specs.Numbers.{numbered};
ghost use Rattle.cells.specs.Images.{got, address_answer, page_answer, after_put, after_keep, after_recall};
ghost use Rattle.cells.specs.Laws.{Bytes};
ghost use Rattle.shadowed.specs.Halves.{pages_in, size_in, halves, Left};

use cells::{image, size_for};
use refusal::Refusal;

// The size of each image: half of the buffer's length. If the length is odd, or its half no size of an array, it is 0.
pub fn size(bytes: &[u8]) -> usize
    ensures size { result ≡ size_in bytes.now }
    ensures within { result + result ≤ length bytes.now }
    ensures fills { 0 < result → result + result ≡ length bytes.now }
{
    let length = bytes.len();
    if length % 2 == 0 {
        size_for(length / 2)
    } else {
        0
    }
}

// The working byte at an address. An address past the end is refused with 41.
pub fn get(bytes: &[u8], at: usize) -> Result<u8, Refusal>
    ensures { numbered result ≡ got (size_in bytes.now) at (halves bytes.now).working }
{
    image::get(&bytes[..size(bytes)], at)
}

// Sets the working byte at an address. An address past the end is refused with 41, and nothing changes.
pub fn put(bytes: &mut [u8], at: usize, byte: u8) -> Result<(), Refusal>
    ensures answer { numbered result ≡ address_answer (size_in bytes.old) at }
    ensures left { Left bytes.old bytes.new (after_put false (size_in bytes.old) at byte (halves bytes.old)) }
{
    let size = size(bytes);
    image::put(&mut bytes[..size], at, byte)
}

// Sets a page of the kept image to that page of the working image. A page past the end is refused with 42, and nothing
// changes.
pub fn keep(bytes: &mut [u8], page: usize) -> Result<(), Refusal>
    ensures answer { numbered result ≡ page_answer (pages_in (length bytes.old)) page }
    ensures left { Left bytes.old bytes.new (after_keep (pages_in (length bytes.old)) page (halves bytes.old)) }
{
    let size = size(bytes);
    let (working, rest) = bytes.split_at_mut(size);
    image::copy_page(working, &mut rest[..size], page)
}

// Sets a page of the working image to that page of the kept image. A page past the end is refused with 42, and nothing
// changes.
pub fn recall(bytes: &mut [u8], page: usize) -> Result<(), Refusal>
    ensures answer { numbered result ≡ page_answer (pages_in (length bytes.old)) page }
    ensures left { Left bytes.old bytes.new (after_recall (pages_in (length bytes.old)) page (halves bytes.old)) }
{
    let size = size(bytes);
    let (working, rest) = bytes.split_at_mut(size);
    image::copy_page(&rest[..size], working, page)
}

// Fills the working image with one value, and leaves the kept image.
pub fn fade(bytes: &mut [u8], value: u8)
    ensures left { Left bytes.old bytes.new (record { working = replicate (size_in bytes.old) value; kept = (halves bytes.old).kept }) }
    ensures bytes { Bytes (size_in bytes.old) (halves bytes.new).working }
{
    let size = size(bytes);
    bytes[..size].fill(value);
}

// Size, get, put and fade on a buffer that is both images at once. They are functions over the slice and no methods, since a
// proof does not know what a write leaves in a slice that is a struct's field, nor that such a slice holds bytes. Get and put
// read as those of shadowed cells do, and stay apart for their promises: each tells its own images, and the code is a line.
ghost use Rattle.std.specs.Prelude.{◌≡◌, ◌<◌, ◌≤◌, true, length};
ghost use Rattle.refusal.specs.Numbers.{numbered};
ghost use Rattle.cells.specs.Images.{got, address_answer, after_put};
ghost use Rattle.cells.specs.Laws.{Bytes};
ghost use Rattle.lasting.specs.Whole.{size_in, whole, behind};

use cells::{image, size_for};
use refusal::Refusal;

// The size of the image: the buffer's length. If that is no size of an array, it is 0.
pub fn size(bytes: &[u8]) -> usize
    ensures size { result ≡ size_in bytes.now }
    ensures within { result ≤ length bytes.now }
    ensures fills { 0 < result → result ≡ length bytes.now }
{
    size_for(bytes.len())
}

// The byte at an address. An address past the end is refused with 41.
pub fn get(bytes: &[u8], at: usize) -> Result<u8, Refusal>
    ensures { numbered result ≡ got (size_in bytes.now) at (whole bytes.now).working }
{
    image::get(&bytes[..size(bytes)], at)
}

// Sets the byte at an address, in both images. An address past the end is refused with 41, and nothing changes.
pub fn put(bytes: &mut [u8], at: usize, byte: u8) -> Result<(), Refusal>
    ensures answer { numbered result ≡ address_answer (size_in bytes.old) at }
    ensures images { whole bytes.new ≡ after_put true (size_in bytes.old) at byte (whole bytes.old) }
    ensures behind { behind bytes.new ≡ behind bytes.old }
{
    let size = size(bytes);
    image::put(&mut bytes[..size], at, byte)
}

// Leaves the buffer as it is.
pub fn fade(bytes: &mut [u8])
    ensures same { bytes.new ≡ bytes.old }
    ensures bytes { Bytes (size_in bytes.old) (whole bytes.old).working }
{}

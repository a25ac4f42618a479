// Text added to a buffer that has room for it, so that nothing can fail. It goes in piece by piece: `write!` tells nobody when it
// cannot fail.
ghost use Rattle.std.specs.Prelude.{length};
ghost use Rattle.benchlines.specs.Room.{HasRoom, Added};

use itoa::{Buffer, Integer};

pub(super) fn add_bytes(out: &mut Vec<u8>, bytes: &[u8])
    requires { HasRoom out.old (length bytes.now) }
    ensures { Added out.old bytes.now out.new }
{
    // Byte by byte: to a text of a few bytes `extend_from_slice` takes longer.
    for byte in bytes {
        out.push_reserved(*byte);
    }
}

// A number without leading zeros.
pub(super) fn add_decimal<I: Integer>(out: &mut Vec<u8>, number: I)
    requires { HasRoom out.old (length (I.text number)) }
    ensures { Added out.old (I.text number) out.new }
{
    let mut buffer = Buffer::new();
    add_bytes(out, buffer.format(number).as_bytes());
}

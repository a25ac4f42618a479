// The bytes that a selection holds on to, in the order of sending: of an address, of a page buffer, or of a secure frame.
ghost use Rattle.std.specs.Prelude.{◌≡◌, ◌≤◌, ◌==◌, [], ◌∷◌, ◌++◌, length, drop, if◌then◌else◌, nat_lt};
ghost use Rattle.selection.specs.Held.{items};

// A secure frame is the longest: 3 address bytes, 64 data bytes and 2 of the sum.
pub const ROOM: usize = 69;

// They lie in the value itself: nothing is allocated in a call, and a phase is copied as a number is. A vector of `arrayvec`
// cannot be copied so.
#[derive(Clone, Copy)]
pub struct Held {
    bytes: [u8; 69],
    count: usize,
}

impl Held {
    // Nothing held.
    pub(crate) fn new() -> Held
        ensures { items result ≡ [] }
    {
        Held {
            bytes: [0; 69],
            count: 0,
        }
    }

    // How many bytes are held.
    pub(crate) fn len(&self) -> usize
        ensures count { result ≡ length (items self.now) }
        ensures bound { result ≤ 69 }
    {
        if self.count < ROOM { self.count } else { ROOM }
    }

    // Whether none are.
    pub(crate) fn is_empty(&self) -> bool
        ensures { result ≡ (length (items self.now) == 0) }
    {
        self.len() == 0
    }

    // The bytes held.
    pub(crate) fn as_slice(&self) -> &[u8]
        ensures { result.now ≡ items self.now }
    {
        &self.bytes[0..self.len()]
    }

    // One byte more; where there is no room nothing changes.
    pub(crate) fn push(&mut self, byte: u8)
        ensures { items self.new ≡ (if nat_lt (length (items self.old)) 69 then items self.old ++ (byte ∷ []) else items self.old) }
    {
        if self.count < ROOM {
            self.bytes[self.count] = byte;
            self.count += 1;
        }
    }

    // The oldest byte gives way to a new one.
    pub(crate) fn replace_first(&mut self, byte: u8)
        ensures { items self.new ≡ drop 1 (items self.old) ++ (byte ∷ []) }
    {
        let count = self.len();
        if count == 0 {
            self.push(byte);
        } else {
            self.bytes[0..count].rotate_left(1);
            self.bytes[count - 1] = byte;
        }
    }
}

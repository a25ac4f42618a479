// What any call answers.

// What a call that was done came to: a tick tells the pages still to go, a byte the byte that the part drives, if any, and every
// other call only that it was done.
#[derive(Clone, Copy, PartialEq, Eq, Debug)]
pub enum Answer {
    Done,
    ToGo(u32),
    Driven(Option<u8>),
}

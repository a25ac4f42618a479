// What a part holds beside its selection and its cells.
use rules::Power;

#[derive(Clone, Copy)]
pub struct Control {
    pub power: Power,
    pub status_bits: u8,
    pub latch: bool,
    pub failed: bool,
    pub written: bool,
}

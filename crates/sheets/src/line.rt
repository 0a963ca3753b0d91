// A reading's line.
use rounding::answers::Mark;

#[derive(Clone, Copy)]
pub struct Line {
    // The record's number, from 1.
    pub record: u32,
    pub register: u8,
    pub code: u16,
    // How many terms the register has.
    pub count: u32,
    pub mark: Mark,
}

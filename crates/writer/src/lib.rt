// From a text and its tables to its print.
#![tactic(auto)]

use lexer::error::Refusal;

// The most spaces a level.
pub const WIDEST: u32 = 8;

// What a printing left: the counts of the reading, and so many bytes.
#[derive(Clone, Copy, Debug, PartialEq, Eq)]
pub struct Print {
    pub nodes: u32,
    pub comments: u32,
    pub bytes: usize,
}

// What a printing answers: the counts and the bytes written, or a refusal.
pub type Printed = Result<Print, Refusal>;

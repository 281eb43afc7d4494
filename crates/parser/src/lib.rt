// Reading: the definitions, and what a reading answers.
#![tactic(auto)]

use lexer::error::Refusal;

// The most containers inside one another.
pub const NESTING: u32 = 32;

// What a reading found: so many nodes, and so many comments that have an owner.
#[derive(Clone, Copy, Debug, PartialEq, Eq)]
pub struct Counts {
    pub nodes: u32,
    pub comments: u32,
}

// What a reading answers: the counts, or a refusal.
pub type Answer = Result<Counts, Refusal>;

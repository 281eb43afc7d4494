// Where its numbers stand in a record, by the papers' order, from 0. The kind is the first; index, line and column of the start stand from START on, of the end from END on.
pub const PARENT: usize = 1;

pub const FLAGS: usize = 2;

pub const START: usize = 3;

pub const END: usize = 6;

// Of a node: the record number just past its last descendant.
pub const PAST: usize = 9;

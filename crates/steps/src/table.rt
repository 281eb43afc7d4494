// Records in a lent table.
ghost use Rattle.std.specs.Prelude.{◌≡◌, ◌+◌, ◌≤◌, length};
ghost use Rattle.ast.specs.Records.{comment_width, node_width, row, node_row};
ghost use Rattle.steps.specs.Into.{sum, put_row, put, put_owner, rest_at};
ghost use Rattle.steps.specs.Packed.{unpacked_loc};

use crate::packed;
use crate::packed::Range;
use ast::column;

// What every record tells: its kind's number, its parent, its flags, its range. Any numbers: a table is lent, and need hold no record of rico's.
#[derive(Clone, Copy, Debug, PartialEq, Eq)]
pub struct Row {
    pub kind: u32,
    pub parent: u32,
    pub flags: u32,
    pub loc: Range,
}

// The sum of two counts; never past the largest number.
#[tactic(auto, using(crate::proofs::Cells::sum_least))]
pub fn sum(a: u32, b: u32) -> u32
    ensures { result ≡ sum a b }
{
    a.saturating_add(b)
}

// The nine numbers that every record has, from an index on.
fn put_row(table: &mut [u32], at: usize, r: Row)
    requires { at + comment_width ≤ length table.old }
    ensures { table.new ≡ put_row at (row r.kind r.parent r.flags (unpacked_loc r.loc)) table.old }
{
    let loc = r.loc;
    table[at] = r.kind;
    table[at + 1] = r.parent;
    table[at + 2] = r.flags;
    table[at + 3] = packed::index_of(loc.start);
    table[at + 4] = packed::line_of(loc.start);
    table[at + 5] = packed::column_of(loc.start);
    table[at + 6] = packed::index_of(loc.end);
    table[at + 7] = packed::line_of(loc.end);
    table[at + 8] = packed::column_of(loc.end);
}

// Comment record `index`, without its owner, if the table holds that one.
pub fn put_comment(comments: &mut [u32], index: usize, kind: u32, loc: Range)
    ensures { comments.new ≡ put comment_width index (row kind 0 0 (unpacked_loc loc)) comments.old }
{
    if comments.len() / ast::COMMENT_WIDTH <= index {
        return;
    }
    let row = Row {
        kind,
        parent: 0,
        flags: 0,
        loc,
    };
    put_row(comments, index * ast::COMMENT_WIDTH, row);
}

// Node record `index`, if the table holds that one; `past` is the number just past its last descendant.
pub fn put_node(nodes: &mut [u32], index: usize, r: Row, past: u32)
    ensures { nodes.new ≡ put node_width index (node_row r.kind r.parent r.flags (unpacked_loc r.loc) past) nodes.old }
{
    if nodes.len() / ast::NODE_WIDTH <= index {
        return;
    }
    let at = index * ast::NODE_WIDTH;
    put_row(nodes, at, r);
    nodes[at + column::PAST] = past;
}

// The owner of comment record `index`.
pub fn put_owner(comments: &mut [u32], index: usize, owner: u32)
    ensures { comments.new ≡ put_owner index owner comments.old }
{
    if comments.len() / ast::COMMENT_WIDTH <= index {
        return;
    }
    comments[index * ast::COMMENT_WIDTH + column::PARENT] = owner;
}

// Where the rest of a table of so many numbers starts: at an index, or at the table's end.
#[tactic(auto, using(crate::proofs::Cells::rest_least))]
pub fn rest_at(at: usize, len: usize) -> usize
    ensures { (result ≡ rest_at at len) × (result ≤ len) }
{
    at.min(len)
}

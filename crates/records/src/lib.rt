// Tables by record number.
#![tactic(auto)]

ghost use Rattle.std.specs.Prelude.{◌≡◌, ◌≤◌, ◌<◌};
ghost use Rattle.ast.specs.Column as C;
ghost use Rattle.ast.specs.KindNumber.{kind_of};
ghost use Rattle.ast.specs.Records.{comment_width, node_width, room};
ghost use Rattle.records.specs.Table.{number_at, own_at, held_at, kind_at, parent_at, flags_at, start_at, end_at, past_at, siblings, children_of, part};

use ast::kind::Kind;
use ast::{COMMENT_WIDTH, NO_PARENT, NODE_WIDTH, bump, column};

// A part of the text, from an index to an index.
#[derive(Clone, Copy)]
pub struct Part {
    pub start: u32,
    pub end: u32,
}

impl Part {
    // Its bytes; none where the text has no such part.
    #[tactic(auto, unfolding(crate::specs::Table::part))]
    pub fn bytes(self, text: &[u8]) -> &[u8]
        ensures { result.now ≡ part text.now self.start self.end }
    {
        text.get(self.start as usize..self.end as usize)
            .unwrap_or_default()
    }
}

// The part that record n tells of, in a table of records of so many numbers, a width that may be known only when it runs; 0 for a number that the table does not hold.
#[tactic(auto, using(crate::proofs::RecordLaws::parts), unfolding(crate::specs::Table::number_at))]
pub fn part_at(table: &[u32], width: usize, n: u32) -> Part
    requires { (C.End < width) × (width ≤ node_width) }
    ensures { (result.start ≡ number_at width table.now n C.Start) × (result.end ≡ number_at width table.now n C.End) }
{
    let at = n as usize * width;
    // a record that is there is looked up once
    match table.get(at..at + width) {
        Some(record) => Part {
            start: record[column::START],
            end: record[column::END],
        },
        None => Part {
            start: table.get(at + column::START).copied().unwrap_or(0),
            end: table.get(at + column::END).copied().unwrap_or(0),
        },
    }
}

// Records of WIDTH numbers each, one after another.
#[derive(Clone, Copy)]
pub struct Table<'a, const WIDTH: usize> {
    pub numbers: &'a [u32],
    // a record tells of a part of the text, and is no wider than a node's
    pub ghost tells: { C.End < WIDTH },
    pub ghost narrow: { WIDTH ≤ node_width },
}

impl<const WIDTH: usize> Table<'_, WIDTH> {
    // A number of a record; none where the table does not hold the record whole.
    #[tactic(auto, using(crate::proofs::RecordLaws::holds))]
    fn held(self, n: u32, column: usize) -> Option<u32>
        requires { column < WIDTH }
        ensures { result ≡ held_at WIDTH self.entry.numbers.now n column }
    {
        let at = n as usize * WIDTH;
        let record = self.numbers.get(at..at + WIDTH)?;
        Some(record[column])
    }

    // A number of a record; 0 where the table does not hold it, or no record has it.
    #[tactic(auto, using(crate::proofs::RecordLaws::starts), unfolding(crate::specs::Table::own_at, crate::specs::Table::number_at))]
    pub fn number(self, n: u32, column: usize) -> u32
        ensures { result ≡ own_at WIDTH self.entry.numbers.now n column }
    {
        if WIDTH <= column {
            return 0;
        }
        let at = n as usize * WIDTH + column;
        self.numbers.get(at).copied().unwrap_or(0)
    }

    // The parent of a node, the owner of a comment; none behind the last record.
    #[tactic(auto, using(crate::proofs::RecordLaws::held_or), unfolding(ast::specs::Records::no_parent, crate::specs::Table::parent_at))]
    pub fn parent(self, n: u32) -> u32
        ensures { result ≡ parent_at WIDTH self.entry.numbers.now (room WIDTH self.entry.numbers.now) n }
    {
        self.held(n, column::PARENT).unwrap_or(NO_PARENT)
    }

    // The part of the text that a record tells of; 0 for a number that the table does not hold.
    pub fn part(self, n: u32) -> Part
        ensures { (result.start ≡ number_at WIDTH self.entry.numbers.now n C.Start) × (result.end ≡ number_at WIDTH self.entry.numbers.now n C.End) }
    {
        part_at(self.numbers, WIDTH, n)
    }
}

// A comment table, by record number. This and the next fix the width, and promise by the definitions' names.
#[derive(Clone, Copy)]
pub struct Comments<'a>(pub &'a [u32]);

impl<'a> Comments<'a> {
    #[tactic(auto, unfolding(ast::specs::Records::node_width))]
    fn records(self) -> Table<'a, COMMENT_WIDTH>
        ensures { result.numbers.now ≡ self.entry.0.now }
    {
        Table { numbers: self.0 }
    }

    // The owner of a comment; none behind the last one.
    #[tactic(auto, unfolding(ast::specs::Records::comment_width))]
    pub fn owner(self, n: u32) -> u32
        ensures { result ≡ parent_at comment_width self.entry.0.now (room comment_width self.entry.0.now) n }
    {
        self.records().parent(n)
    }

    // The part of the text that a comment stands at.
    #[tactic(auto, unfolding(ast::specs::Records::comment_width))]
    pub fn part(self, n: u32) -> Part
        ensures { (result.start ≡ number_at comment_width self.entry.0.now n C.Start) × (result.end ≡ number_at comment_width self.entry.0.now n C.End) }
    {
        self.records().part(n)
    }
}

// A node table, by record number.
#[derive(Clone, Copy)]
pub struct Nodes<'a>(pub &'a [u32]);

impl<'a> Nodes<'a> {
    ghost use Rattle.records.specs.Siblings.{left};

    #[tactic(auto, unfolding(ast::specs::Records::node_width))]
    fn table(self) -> Table<'a, NODE_WIDTH>
        ensures { result.numbers.now ≡ self.entry.0.now }
    {
        Table { numbers: self.0 }
    }

    // A number of a record; 0 where the table does not hold it, or no record has it.
    #[tactic(auto, unfolding(ast::specs::Records::node_width))]
    pub fn number(self, n: u32, column: usize) -> u32
        ensures { result ≡ own_at node_width self.entry.0.now n column }
    {
        self.table().number(n, column)
    }

    // The kind of a record; none behind the last one.
    #[tactic(auto, using(crate::proofs::RecordLaws::kinds), unfolding(ast::specs::Records::node_width))]
    pub fn kind(self, n: u32) -> Option<Kind>
        ensures { result ≡ kind_of (kind_at self.entry.0.now (room node_width self.entry.0.now) n) }
    {
        let number = self.table().held(n, 0)?;
        Kind::try_from(number).ok()
    }

    // The number of its kind, whatever it is, as a lent table may hold any; 0 behind the last one.
    #[tactic(auto, using(crate::proofs::RecordLaws::held_or), unfolding(ast::specs::Records::node_width, crate::specs::Table::kind_at))]
    pub fn kind_number(self, n: u32) -> u32
        ensures { result ≡ kind_at self.entry.0.now (room node_width self.entry.0.now) n }
    {
        self.table().held(n, 0).unwrap_or(0)
    }

    // The parent of a record; none behind the last one.
    #[tactic(auto, unfolding(ast::specs::Records::node_width))]
    pub fn parent(self, n: u32) -> u32
        ensures { result ≡ parent_at node_width self.entry.0.now (room node_width self.entry.0.now) n }
    {
        self.table().parent(n)
    }

    // The flags of a record.
    #[tactic(auto, using(crate::proofs::RecordLaws::own), unfolding(ast::specs::Records::node_width))]
    pub fn flags(self, n: u32) -> u32
        ensures { result ≡ flags_at self.entry.0.now n }
    {
        self.number(n, column::FLAGS)
    }

    // The record number just past a node's last descendant: the next sibling's, if there is one.
    #[tactic(auto, using(crate::proofs::RecordLaws::own), unfolding(ast::specs::Records::node_width))]
    pub fn past(self, n: u32) -> u32
        ensures { result ≡ past_at self.entry.0.now n }
    {
        self.number(n, column::PAST)
    }

    // The part of the text that a record tells of.
    #[tactic(auto, unfolding(ast::specs::Records::node_width))]
    pub fn part(self, n: u32) -> Part
        ensures { (result.start ≡ start_at self.entry.0.now n) × (result.end ≡ end_at self.entry.0.now n) }
    {
        self.table().part(n)
    }

    // The records from one on, each just past the last one's descendants, as long as they are below the end.
    #[tactic(auto, unfolding(crate::specs::Siblings::left, crate::specs::Table::siblings))]
    pub fn siblings(self, first: u32, end: u32) -> Siblings<'a>
        ensures { left result ≡ siblings self.entry.0.now end first }
    {
        Siblings {
            nodes: self,
            at: first,
            end,
            turns: end,
        }
    }

    // The children of a record.
    #[tactic(auto, unfolding(crate::specs::Table::children_of))]
    pub fn children(self, n: u32) -> Siblings<'a>
        ensures { left result ≡ children_of self.entry.0.now n }
    {
        self.siblings(bump(n), self.past(n))
    }
}

// Records one after another, and at most so many.
#[derive(Drop)]
pub struct Siblings<'a> {
    nodes: Nodes<'a>,
    at: u32,
    end: u32,
    turns: u32,
}

impl Iterator for Siblings<'_> {
    ghost use Rattle.std.specs.Iterator.{YieldsFirst, item_count};
    ghost use Rattle.records.specs.Siblings.{left};

    type Item = u32;

    ghost next_gives = { YieldsFirst left };

    ghost remaining = { item_count left };

    #[tactic(auto, using(crate::proofs::RecordLaws::lefts), unfolding(crate::specs::Siblings::left))]
    fn next(&mut self) -> Option<u32> {
        if self.turns == 0 || self.end <= self.at {
            return None;
        }
        let n = self.at;
        self.at = self.nodes.past(n);
        self.turns -= 1;
        Some(n)
    }
}

// Reads each text of the list on standard input, and compares every record, count and refusal with rico's.
//
// The crate replay says what the list holds. The tables are lent full of sevens; what lies past the answer must be 0 afterwards.
// Rico counts CR LF between tokens for two lines, the port for one (docs/DIFFERENCES.md). In a text that has it lines are not compared with rico's, all else is;
// its tables must be those of the text with a space for each `\r` directly before `\n`: the same tokens, and no CR LF.
#![tactic(auto)]

ghost use Rattle.std.specs.Prelude.{◌<◌, ◌≤◌};

use ast::{COMMENT_WIDTH, NODE_WIDTH};
use parser::{Answer, Counts};
use replay::{COMMENTS, Listed, NODES, SPACE, Tables, Tally};
use std::io;
use std::io::Stdin;

// Where the lines stand in a record, each behind the index.
const START_LINE: usize = ast::column::START + 1;

const END_LINE: usize = ast::column::END + 1;

// A table of records of so many numbers, compared as they are listed, one by one.
#[derive(Clone, Copy)]
struct Records<'a, const WIDTH: usize> {
    table: &'a [u32],
    ghost some: { 0 < WIDTH },
    ghost few: { WIDTH ≤ 10 },
}

impl<const WIDTH: usize> Records<'_, WIDTH> {
    // Whether the number at an index is a line.
    fn is_line(self, i: usize) -> bool {
        matches!(i % WIDTH, START_LINE | END_LINE)
    }

    // Whether the number at an index is rico's; in a text with CR LF a line may be another.
    fn has(self, i: usize, number: u32, paired: bool) -> bool {
        match self.table.get(i) {
            Some(&found) => found == number || paired && self.is_line(i),
            None => false,
        }
    }

    // Whether the next records of the list, so many, stand in the table, and 0 past them.
    fn are_listed(self, input: &mut Stdin, count: u32, paired: bool) -> io::Result<bool> {
        let end = count as usize * WIDTH;
        let mut same = true;
        for i in 0..end {
            let number = replay::read_number(input)?;
            same &= self.has(i, number, paired);
        }
        Ok(same && replay::zero_from(self.table, end))
    }
}

// What the reader answers for a text, and what it leaves in the tables. They are borrowed from arrays: a `replay::Tables`, as for the few texts below, would be copied where it is made, for each text.
#[derive(Clone, Copy)]
struct Reading<'a> {
    answer: Answer,
    nodes: &'a [u32],
    comments: &'a [u32],
}

impl Reading<'_> {
    fn nodes(&self) -> Records<'_, NODE_WIDTH> {
        Records { table: self.nodes }
    }

    fn comments(&self) -> Records<'_, COMMENT_WIDTH> {
        Records {
            table: self.comments,
        }
    }

    // Whether the answer is the list's.
    fn has(&self, listed: Listed) -> bool {
        match self.answer {
            Ok(Counts { nodes, comments }) => listed == Ok([nodes, comments]),
            Err(refusal) => listed == Err(refusal.numbers()),
        }
    }

    // Whether the tables have the list's records, so many; in a text with CR LF the lines may be others.
    fn has_records(&self, input: &mut Stdin, counts: [u32; 2], paired: bool) -> io::Result<bool> {
        let [nodes, comments] = counts;
        let same_nodes = self.nodes().are_listed(input, nodes, paired)?;
        let same_comments = self.comments().are_listed(input, comments, paired)?;
        replay::pass_prints(input)?;
        Ok(same_nodes && same_comments)
    }

    // Whether the answer and the tables are as the list has them.
    fn is_listed(&self, input: &mut Stdin, paired: bool) -> io::Result<bool> {
        let listed = replay::read_answer(input)?;
        let same = match listed {
            Ok(counts) => self.has_records(input, counts, paired)?,
            Err(_) => replay::zero_from(self.nodes, 0) && replay::zero_from(self.comments, 0),
        };
        Ok(same && self.has(listed))
    }
}

// A byte of a text, a space for `\r` directly before `\n`; 0 behind the text.
fn spaced_byte(text: &[u8], at: usize) -> u8 {
    if replay::is_pair(text, at) {
        b' '
    } else {
        text.get(at).copied().unwrap_or(0)
    }
}

// Whether a text has no CR LF, and its tables are those of this reading.
fn has_tables(text: &[u8], reading: Reading) -> bool {
    let mut tables = Tables::new();
    let _ = reader::read(text, &mut tables.nodes, &mut tables.comments);
    !replay::has_pair(text)
        && tables.nodes.as_slice() == reading.nodes
        && tables.comments.as_slice() == reading.comments
}

// Whether the text with those spaces has the tables of this reading too.
fn same_spaced(text: &[u8], reading: Reading) -> bool {
    let mut space: [u8; SPACE] = [0; SPACE];
    let Some(spaced) = space.get_mut(..text.len()) else {
        return false;
    };
    for (at, byte) in spaced.iter_mut().enumerate() {
        *byte = spaced_byte(text, at);
    }
    has_tables(spaced, reading)
}

// Reads a text, and tells whether all is as the list has it, and the lines as they must be. Whether it has CR LF is looked up once, and handed down to each number.
fn same_text(input: &mut Stdin, text: &[u8], paired: bool) -> io::Result<bool> {
    let mut nodes: [u32; NODES] = [7; NODES];
    let mut comments: [u32; COMMENTS] = [7; COMMENTS];
    let answer = reader::read(text, &mut nodes, &mut comments);
    let reading = Reading {
        answer,
        nodes: &nodes,
        comments: &comments,
    };
    let listed = reading.is_listed(input, paired)?;
    Ok(listed && (!paired || same_spaced(text, reading)))
}

// Compares a text.
fn compare(input: &mut Stdin, text: &[u8], _index: u32, tally: Tally) -> io::Result<Tally> {
    let paired = replay::has_pair(text);
    let same = same_text(input, text, paired)?;
    Ok(tally.with(same, paired))
}

fn main(rt: HostRuntime) -> io::Result<()> {
    replay::replay(&mut rt.stdin(), rt.stdout(), compare)?;
    Ok(())
}

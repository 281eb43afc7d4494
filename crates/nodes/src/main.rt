// Document 01's program: the records of the text on standard input, a line for each, or one line for its refusal.
#![tactic(auto)]

ghost use Rattle.std.specs.Prelude.{◌<◌};

use ast::{COMMENT_WIDTH, NODE_WIDTH};
use std::io::Stdout;
use std::{fmt, io};

// Numbers with a blank between two.
#[derive(Clone, Copy)]
struct Row<'a>(&'a [u32]);

impl fmt::Display for Row<'_> {
    ghost use Rattle.std.specs.Prelude.{Some};
    ghost use Rattle.nodes.specs.Text.{row_text};

    ghost output = { λ row. Some (row_text row.0.now) };

    fn fmt<W: fmt::Write>(&self, f: &mut fmt::Formatter<W>) -> fmt::Result {
        let [first, rest @ ..] = self.0 else {
            return Ok(());
        };
        write!(f, "{first}")?;
        for number in rest {
            write!(f, " {number}")?;
        }
        Ok(())
    }
}

// Writes the first `count` records of WIDTH numbers, those that the table holds.
fn write_records<const WIDTH: usize>(out: Stdout, table: &[u32], count: u32) -> io::Result<()>
    requires { 0 < WIDTH }
{
    for record in table.chunks_exact(WIDTH).take(count as usize) {
        println!(out; "{}", Row(record))?;
    }
    Ok(())
}

// Reads a text and writes what is answered.
fn write_reading(out: Stdout, text: &[u8]) -> io::Result<()> {
    let mut nodes: [u32; 9000] = [0; 9000];
    let mut comments: [u32; 4500] = [0; 4500];
    match reader::read(text, &mut nodes, &mut comments) {
        Err(refusal) => println!(out; "R {refusal}"),
        Ok(counts) => {
            println!(out; "{} {}", counts.nodes, counts.comments)?;
            write_records::<NODE_WIDTH>(out, &nodes, counts.nodes)?;
            write_records::<COMMENT_WIDTH>(out, &comments, counts.comments)
        }
    }
}

fn main(rt: HostRuntime) -> io::Result<()> {
    let mut text: [u8; 8192] = [0; 8192];
    let n = input::read_full(&mut rt.stdin(), &mut text)?;
    write_reading(rt.stdout(), &text[..n])
}

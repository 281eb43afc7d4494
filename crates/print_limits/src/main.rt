// Document 01's edges of the printer: each case is a line, the answer and how many numbers of both tables and bytes of the output past it are not 0.
// An accepted case's print follows. Tables and output are lent full of sevens.
#![tactic(auto)]

ghost use Rattle.std.specs.Prelude.{◌≤◌};

use std::io;
use std::io::Stdout;
use writer::{Print, Printed};

// How many numbers are not 0, from an index on.
fn count_from<T: Copy + Into<u32>>(numbers: &[T], start: usize) -> usize {
    numbers
        .iter()
        .skip(start)
        .filter(|&&number| number.into() != 0)
        .count()
}

// What is answered for a printing, and what it leaves in all that it was lent.
#[derive(Clone, Copy)]
struct Printing<'a> {
    answer: Printed,
    nodes: &'a [u32],
    comments: &'a [u32],
    out: &'a [u8],
}

impl Printing<'_> {
    // Writes what is not 0 past so many nodes, comments and bytes, and ends the line.
    fn write_past(self, to: Stdout, nodes: u32, comments: u32, bytes: usize) -> io::Result<()> {
        let nodes = count_from(self.nodes, nodes as usize * ast::NODE_WIDTH);
        let comments = count_from(self.comments, comments as usize * ast::COMMENT_WIDTH);
        let bytes = count_from(self.out, bytes);
        println!(to; " | {nodes} {comments} {bytes}")
    }

    // Writes the answer, A, the counts and the bytes, or R, number, place and length, and the print.
    fn write(self, to: Stdout) -> io::Result<()> {
        match self.answer {
            Ok(
                Print {
                    nodes,
                    comments,
                    bytes,
                },
            ) => {
                print!(to; "A {nodes} {comments} {bytes}")?;
                self.write_past(to, nodes, comments, bytes)?;
                to.write_all(self.out.get(..bytes).unwrap_or(&[]))
            }
            Err(refusal) => {
                print!(to; "R {refusal}")?;
                self.write_past(to, 0, 0, 0)
            }
        }
    }
}

// How many numbers of both tables and how many bytes a printing is lent.
#[derive(Clone, Copy)]
struct Room {
    nodes: usize,
    comments: usize,
    bytes: usize,
    ghost in_nodes: { nodes ≤ 77 },
    ghost in_comments: { comments ≤ 20 },
    ghost in_bytes: { bytes ≤ 50 },
}

const ALL: Room = Room {
    nodes: 77,
    comments: 20,
    bytes: 50,
};

// Prints a text with so much room.
fn try_small(to: Stdout, text: &[u8], indent: u32, room: Room) -> io::Result<()> {
    let mut node_table: [u32; 77] = [7; 77];
    let mut comment_table: [u32; 20] = [7; 20];
    let mut output: [u8; 50] = [7; 50];
    let nodes = &mut node_table[..room.nodes];
    let comments = &mut comment_table[..room.comments];
    let out = &mut output[..room.bytes];
    let answer = printer::print(text, indent, nodes, comments, out);
    let printing = Printing {
        answer,
        nodes,
        comments,
        out,
    };
    printing.write(to)
}

// The edge that prints 38 bytes at indent 2.
fn try_field(to: Stdout, indent: u32, bytes: usize) -> io::Result<()>
    requires { bytes ≤ 50 }
{
    let room = Room {
        nodes: 77,
        comments: 20,
        bytes,
    };
    try_small(to, b"struct A{1:required i32 a=5;}", indent, room)
}

// So many blanks.
fn try_blanks(to: Stdout, count: usize, indent: u32) -> io::Result<()>
    requires { count ≤ 65537 }
{
    let space = [b' '; 65537];
    try_small(to, &space[..count], indent, ALL)
}

// An enum with a comment: 2 nodes, 1 comment, 14 bytes.
fn try_note(to: Stdout, nodes: usize, comments: usize, bytes: usize) -> io::Result<()>
    requires { (nodes ≤ 77) × (comments ≤ 20) × (bytes ≤ 50) }
{
    let room = Room {
        nodes,
        comments,
        bytes,
    };
    try_small(to, b"#c\nenum A{}", 2, room)
}

fn main(rt: HostRuntime) -> io::Result<()> {
    let to = rt.stdout();
    try_field(to, 2, 37)?;
    try_field(to, 2, 38)?;
    try_field(to, 2, 50)?;
    try_field(to, 8, 50)?;
    try_field(to, 9, 50)?;
    try_blanks(to, 65537, 9)?;
    try_blanks(to, 65536, 9)?;
    try_blanks(to, 65536, 8)?;
    try_small(to, b"\xff", 9, ALL)?;
    try_small(to, b"\xff", 8, ALL)?;
    try_note(to, 19, 8, 13)?;
    try_note(to, 20, 8, 13)?;
    try_note(to, 20, 9, 13)?;
    try_note(to, 20, 9, 14)?;
    try_small(
        to,
        b"enum A{",
        2,
        Room {
            nodes: 19,
            comments: 8,
            bytes: 0,
        },
    )?;
    try_small(to, b"", 2, ALL)?;
    try_small(
        to,
        b"",
        2,
        Room {
            nodes: 0,
            comments: 0,
            bytes: 0,
        },
    )
}

// Document 01's edges that need long texts or small tables: each case is a line, the answer and then both tables afterwards.
// The tables are lent full of sevens.
#![tactic(auto)]

ghost use Rattle.std.specs.Prelude.{◌+◌, ◌≤◌, length};

use parser::{Answer, Counts};
use std::io::Stdout;
use std::{fmt, io};

// Numbers, a blank before each.
#[derive(Clone, Copy)]
struct Numbers<'a>(&'a [u32]);

impl fmt::Display for Numbers<'_> {
    ghost use Rattle.std.specs.Prelude.{Some, codes, flat_map, ◌++◌};
    ghost use Rattle.std.specs.Fmt.{decimal};

    ghost output = { λ numbers. Some (flat_map (λ number. codes " " ++ decimal number) numbers.0.now) };

    fn fmt<W: fmt::Write>(&self, f: &mut fmt::Formatter<W>) -> fmt::Result {
        for number in self.0 {
            write!(f, " {number}")?;
        }
        Ok(())
    }
}

// Writes an answer: A and the counts, or R, number, place and length. It is a `Result`, std's, so it has no `Display` of ours.
fn write_answer(out: Stdout, answer: Answer) -> io::Result<()> {
    match answer {
        Ok(Counts { nodes, comments }) => print!(out; "A {nodes} {comments}"),
        Err(refusal) => print!(out; "R {refusal}"),
    }
}

// Reads a text with tables of so many numbers.
fn try_tables(out: Stdout, text: &[u8], nodes: &mut [u32], comments: &mut [u32]) -> io::Result<()> {
    write_answer(out, reader::read(text, nodes, comments))?;
    println!(out; " |{} |{}", Numbers(nodes), Numbers(comments))
}

fn try_small(out: Stdout, text: &[u8], nodes: usize, comments: usize) -> io::Result<()>
    requires { (nodes ≤ 22) × (comments ≤ 20) }
{
    let mut node_table: [u32; 22] = [7; 22];
    let mut comment_table: [u32; 20] = [7; 20];
    try_tables(
        out,
        text,
        &mut node_table[..nodes],
        &mut comment_table[..comments],
    )
}

// Reads a text with room for 400 nodes, and writes the answer alone.
fn try_long(out: Stdout, text: &[u8]) -> io::Result<()> {
    let mut nodes: [u32; 4000] = [7; 4000];
    let mut comments: [u32; 0] = [];
    write_answer(out, reader::read(text, &mut nodes, &mut comments))?;
    println!(out)
}

// Puts a part at `at`.
fn put(text: &mut [u8], at: usize, part: &[u8])
    requires { at + length part.now ≤ length text.old }
{
    let end = at + part.len();
    text[at..end].copy_from_slice(part);
}

// `const i8 X=` and so many list values inside one another.
fn try_values(out: Stdout, depth: usize) -> io::Result<()>
    requires { depth ≤ 33 }
{
    let mut text = [b' '; 100];
    put(&mut text, 0, b"const i8 X=");
    let middle = 11 + depth;
    let end = middle + depth;
    text[11..middle].fill(b'[');
    text[middle..end].fill(b']');
    try_long(out, &text)
}

// `typedef`, so many list types inside one another, i8, and a name.
fn try_types(out: Stdout, depth: usize) -> io::Result<()>
    requires { depth ≤ 33 }
{
    let mut text = [b' '; 300];
    put(&mut text, 0, b"typedef ");
    for i in 0..depth {
        put(&mut text, 8 + 5 * i, b"list<");
    }
    let inner = 8 + 5 * depth;
    put(&mut text, inner, b"i8");
    let marks = inner + 2;
    let end = marks + depth;
    text[marks..end].fill(b'>');
    text[end + 1] = b'A';
    try_long(out, &text)
}

// So many blanks.
fn try_blanks(out: Stdout, count: usize) -> io::Result<()>
    requires { count ≤ 65537 }
{
    let space = [b' '; 65537];
    try_long(out, &space[..count])
}

fn main(rt: HostRuntime) -> io::Result<()> {
    let out = rt.stdout();
    try_values(out, 32)?;
    try_values(out, 33)?;
    try_types(out, 32)?;
    try_types(out, 33)?;
    try_blanks(out, 65536)?;
    try_blanks(out, 65537)?;
    try_small(out, b"enum A{}", 22, 3)?;
    try_small(out, b"enum A{}", 20, 0)?;
    try_small(out, b"enum A{}", 19, 0)?;
    try_small(out, b"#c\nenum A{}", 22, 9)?;
    try_small(out, b"#c\nenum A{}", 20, 8)?;
    try_small(out, b"#c\nenum A{}", 19, 8)?;
    try_small(out, b"enum A{", 0, 0)
}

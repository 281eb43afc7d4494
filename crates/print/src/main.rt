// Prints the text on standard input, at the indent that the argument gives, 2 if there is none; a refusal is a line on standard error.
// A refusal ends with status 0 too: what is on standard error tells that nothing was printed, or not all.
#![tactic(auto)]

use lexer::error::Refusal;
use std::env::{Env, FillError};
use std::io;
use std::io::{Read, Stdin};

// One byte more than the longest text.
const TEXT: usize = 65537;

// Tables that hold every text: at most two nodes a byte, ten numbers each, and nine numbers for each comment that a node owns.
// Such a comment has two bytes at least, as `#` and its line's end. The stack holds all of this, and has 8 MB as a rule.
const NODES: usize = 1310720;

const COMMENTS: usize = 294912;

// Six bytes for each of the longest text: an enum member of a letter and a comma takes 11 at indent 8.
const PRINT: usize = 393216;

// The number that a word spells, digits and nothing else; no more of it than a number holds.
// `str::parse` takes a sign too, and no number past the largest.
fn spelled(word: &[u8]) -> Option<u32> {
    if word.is_empty() {
        return None;
    }
    word.iter().try_fold(0u32, |number, &byte| {
        let digit = (byte as char).to_digit(10)?;
        Some(number.saturating_mul(10).saturating_add(digit))
    })
}

// Whether there is an argument so far behind the program's name.
fn has_argument(rt: &HostRuntime, i: usize) -> bool {
    let mut word = [0u8; 1];
    !matches!(rt.arg(i, &mut word), Err(FillError::NotPresent))
}

// The indent that the arguments give.
fn read_indent(rt: &HostRuntime) -> Option<u32> {
    if !has_argument(rt, 1) {
        return Some(2);
    }
    if has_argument(rt, 2) {
        return None;
    }
    let mut word = [0u8; 20];
    let length = rt.arg(1, &mut word).ok()?;
    spelled(&word[..length])
}

// Whether standard input is at its end: a read that fails ends a text too, and part of a text may not pass for it.
fn is_at_end(mut input: Stdin) -> bool {
    let mut byte = [0u8; 1];
    matches!(input.read(&mut byte), Ok(0))
}

fn write_print(rt: &HostRuntime, out: &[u8], bytes: usize) -> io::Result<()> {
    let Some(print) = out.get(..bytes) else {
        return Ok(());
    };
    if rt.stdout().write_all(print).is_err() {
        return eprintln!(rt; "print: standard output didn't take the whole print");
    }
    Ok(())
}

// Writes the line of a text's refusal: its number, where it is, and what is wrong; line and column are the text's, so it is no `Display`.
fn write_refusal(rt: &HostRuntime, text: &[u8], refusal: Refusal) -> io::Result<()> {
    let Refusal { kind, place, .. } = refusal;
    let at = place::find(text, place);
    eprintln!(rt;
        "refused {} at {}:{}: {kind}",
        u32::from(kind),
        at.line,
        at.column
    )
}

// Prints with these tables and this output.
fn print_with(
    rt: &HostRuntime,
    text: &[u8],
    indent: u32,
    nodes: &mut [u32],
    comments: &mut [u32],
    out: &mut [u8],
) -> io::Result<()> {
    match printer::print(text, indent, nodes, comments, out) {
        Ok(print) => write_print(rt, out, print.bytes),
        Err(refusal) => write_refusal(rt, text, refusal),
    }
}

fn print_text(rt: &HostRuntime, text: &[u8], indent: u32) -> io::Result<()> {
    let mut nodes: [u32; NODES] = [0; NODES];
    let mut comments: [u32; COMMENTS] = [0; COMMENTS];
    let mut out: [u8; PRINT] = [0; PRINT];
    print_with(rt, text, indent, &mut nodes, &mut comments, &mut out)
}

fn print_input(rt: &HostRuntime, indent: u32) -> io::Result<()> {
    let mut text: [u8; TEXT] = [0; TEXT];
    let mut input = rt.stdin();
    match input::read_full(&mut input, &mut text) {
        Ok(n) if n == TEXT || is_at_end(input) => print_text(rt, &text[..n], indent),
        _ => eprintln!(rt; "print: standard input can't be read to its end"),
    }
}

fn main(rt: HostRuntime) -> io::Result<()> {
    match read_indent(&rt) {
        Some(indent) => print_input(&rt, indent),
        None => eprintln!(rt;
            "usage: print [INDENT] <TEXT; INDENT is the spaces a level, 0 to 8, 2 if not given"
        ),
    }
}

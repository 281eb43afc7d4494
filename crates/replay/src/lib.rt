// What the replay programs share: they read the kept answers, a list on standard input, compare, and write what differs.
//
// A list holds little-endian numbers of 4 bytes. That of answers (oracle/answers.list) has the count of texts, then for each text:
//     its length, and its bytes
//     the refusal's number (0: accepted), place and length
//     if accepted, the counts of nodes and of comments, ten numbers for each node, then nine for each comment;
//     three prints, each its length and its bytes
#![tactic(auto)]

ghost use Rattle.std.specs.Prelude.{◌≡◌, Bool, true, cond, not, ◌==◌, ℕ, ◌+◌, ◌*◌, ◌≤◌, List, length, take, replicate, IfOk, OnOk};
ghost use Rattle.std.specs.Io.{ReadsAtMost};
ghost use Rattle.std.specs.List.{FoldsTo};
ghost use Rattle.input.specs.Known.{Passes};
ghost use Rattle.replay.specs.List.{number_at, ZeroFrom, ReadsNumber, ReadsAnswer, ReadsPart, PassesPart, PassesParts};
ghost use Rattle.replay.specs.Findings.{WithText};
ghost use Rattle.ast.specs.Largest.{bump};
ghost use Rattle.lexer.specs.Location.{has_pair};
ghost use Rattle.replay.specs.Pair.{pair_at};

use std::io::{Read, Stdout};
use std::{fmt, io};

// Longer than each text and each print of the list.
pub const SPACE: usize = 66560;

// Longer than both tables of each text of the list, and no whole number of records.
pub const NODES: usize = 10005;

pub const COMMENTS: usize = 1804;

// The prints of a text, at 0, 2 and 8.
const PRINTS: u32 = 3;

// What a program finds in the texts of the list, and writes behind their count. What of it is a difference is each program's own.
pub trait Findings: Copy + Default + fmt::Display {
    // Whether a text more differs, by what is found with it and what was found before.
    ghost differs: { Self → Self → Bool };

    // Whether a text more differs than before.
    fn has_more(&self, before: &Self) -> bool
        ensures { result ≡ differs self.now before.now };
}

// Goes through all texts of the list; writes the index of each that differs, then what was found.
// `compare` is given the text, its index and what was found before; the input goes on with the text's answers.
// Answers how many texts there are, and what was found in them.
pub fn replay<R: Read, T: Findings, F: Fn(&mut R, &[u8], u32, T) -> io::Result<T>>(
    input: &mut R,
    out: Stdout,
    compare: F,
) -> io::Result<(u32, T)>
    requires { F.IsAlwaysCallable compare }
    ensures { IfOk result (λ found. (first : R) × (start : T) × (texts : List (List ℕ)) × ReadsNumber found.0 (R.remaining input.old) (R.remaining first) × T.is_default start × FoldsTo (WithText R.remaining (F.post compare)) (0, start, first) texts (found.0, found.1, input.new)) }
{
    let texts = read_number(input)?;
    let mut space: [u8; SPACE] = [0; SPACE];
    let mut found = T::default();
    for index in 0..texts {
        let length = read_part(input, &mut space)?;
        let now = compare(input, &space[..length], index, found)?;
        if now.has_more(&found) {
            println!(out; "text {index} differs")?;
        }
        found = now;
    }
    println!(out; "{texts} texts, {found}")?;
    Ok((texts, found))
}

// Both tables of a text, lent full of sevens, so that what a call leaves as it was is seen.
#[derive(Clone, Copy, PartialEq, Eq)]
pub struct Tables {
    pub nodes: [u32; NODES],
    pub comments: [u32; COMMENTS],
}

impl Tables {
    pub fn new() -> Tables
        ensures { (result.nodes ≡ replicate 10005 7) × (result.comments ≡ replicate 1804 7) }
    {
        Tables {
            nodes: [7; NODES],
            comments: [7; COMMENTS],
        }
    }

    // Whether both are 0 behind so many numbers.
    pub fn zero_from(&self, nodes: usize, comments: usize) -> bool
        ensures { (result ≡ true → ZeroFrom self.now.nodes nodes × ZeroFrom self.now.comments comments) × (ZeroFrom self.now.nodes nodes × ZeroFrom self.now.comments comments → result ≡ true) }
    {
        zero_from(&self.nodes, nodes) && zero_from(&self.comments, comments)
    }
}

// A count, and one more of it if so.
pub fn one_more_if(so: bool, n: u32) -> u32
    ensures { result ≡ cond so (bump n) n }
{
    if so { ast::bump(n) } else { n }
}

// What was found in the texts so far: how many differ, and how many have CR LF.
#[derive(Clone, Copy, Default)]
pub struct Tally {
    pub differing: u32,
    pub paired: u32,
}

impl Tally {
    pub fn new() -> Tally
        ensures { (result.differing ≡ 0) × (result.paired ≡ 0) }
    {
        Tally::default()
    }

    // With a text more, which is as the list has it or differs, and has CR LF or not.
    pub fn with(self, same: bool, paired: bool) -> Tally
        ensures { (result.differing ≡ cond (not same) (bump self.differing) self.differing) × (result.paired ≡ cond paired (bump self.paired) self.paired) }
    {
        Tally {
            differing: one_more_if(!same, self.differing),
            paired: one_more_if(paired, self.paired),
        }
    }
}

impl Findings for Tally {
    ghost differs = { λ found before. not (found.differing == before.differing) };

    fn has_more(&self, before: &Tally) -> bool {
        self.differing != before.differing
    }
}

impl fmt::Display for Tally {
    ghost use Rattle.std.specs.Prelude.{Some, codes, ◌++◌};
    ghost use Rattle.std.specs.Fmt.{decimal};

    ghost output = { λ tally. Some (decimal tally.differing ++ (codes " differ; " ++ (decimal tally.paired ++ codes " with CR LF"))) };

    fn fmt<W: fmt::Write>(&self, f: &mut fmt::Formatter<W>) -> fmt::Result {
        let Tally { differing, paired } = *self;
        write!(f, "{differing} differ; {paired} with CR LF")
    }
}

// The number at an offset.
#[tactic(auto, unfolding(crate::specs::List::number_at))]
pub fn number(list: &[u8], at: usize) -> u32
    requires { at + 4 ≤ length list.now }
    ensures { result ≡ number_at list.now at }
{
    u32::from_le_bytes([list[at], list[at + 1], list[at + 2], list[at + 3]])
}

// The next number of the list.
pub fn read_number<R: Read>(input: &mut R) -> io::Result<u32>
    ensures { IfOk result (λ n. ReadsNumber n (R.remaining input.old) (R.remaining input.new)) }
{
    let mut bytes = [0u8; 4];
    input::read_full(input, &mut bytes)?;
    Ok(number(&bytes, 0))
}

// Reads the next part of the list, its length and its bytes, to the start of a space; answers the length, 0 if the space is too short: the programs then differ, and go on.
pub fn read_part<R: Read>(input: &mut R, space: &mut [u8]) -> io::Result<usize>
    ensures bound { ReadsAtMost result space.new }
    ensures part { IfOk result (λ n. ReadsPart (length space.new) (take n space.new) (R.remaining input.old) (R.remaining input.new)) }
{
    let length = read_number(input)? as usize;
    if space.len() < length {
        return Ok(0);
    }
    input::read_full(input, &mut space[..length])
}

// What the list has for a text, its numbers as they are kept: the counts of nodes and of comments, or the refusal's number, place and length.
pub type Listed = Result<[u32; 2], [u32; 3]>;

// The answer of the next text.
pub fn read_answer<R: Read>(input: &mut R) -> io::Result<Listed>
    ensures { IfOk result (λ answer. ReadsAnswer answer (R.remaining input.old) (R.remaining input.new)) }
{
    let refusal = [
        read_number(input)?,
        read_number(input)?,
        read_number(input)?,
    ];
    if refusal[0] != 0 {
        return Ok(Err(refusal));
    }
    Ok(Ok([read_number(input)?, read_number(input)?]))
}

// Passes over so many bytes of the list.
fn pass_bytes<R: Read>(input: &mut R, count: usize) -> io::Result<()>
    ensures { OnOk result (Passes count (R.remaining input.old) (R.remaining input.new)) }
{
    let mut bytes = [0u8; 4096];
    for _ in 0..count / bytes.len() {
        input::read_full(input, &mut bytes)?;
    }
    let rest = count % bytes.len();
    input::read_full(input, &mut bytes[..rest])?;
    Ok(())
}

// Passes over the next part of the list.
pub fn pass_part<R: Read>(input: &mut R) -> io::Result<()>
    ensures { OnOk result (PassesPart (R.remaining input.old) (R.remaining input.new)) }
{
    let length = read_number(input)?;
    pass_bytes(input, length as usize)
}

// Passes over the three prints of a text.
pub fn pass_prints<R: Read>(input: &mut R) -> io::Result<()>
    ensures { OnOk result (PassesParts 3 (R.remaining input.old) (R.remaining input.new)) }
{
    for _ in 0..PRINTS {
        pass_part(input)?;
    }
    Ok(())
}

// Passes over the records of so many nodes and of so many comments, numbers of 4 bytes.
pub fn pass_records<R: Read>(input: &mut R, nodes: u32, comments: u32) -> io::Result<()>
    ensures { OnOk result (Passes (nodes * 40 + comments * 36) (R.remaining input.old) (R.remaining input.new)) }
{
    pass_bytes(input, nodes as usize * ast::NODE_WIDTH * 4)?;
    pass_bytes(input, comments as usize * ast::COMMENT_WIDTH * 4)
}

// Whether a table is 0 from an index on.
pub fn zero_from(table: &[u32], start: usize) -> bool
    ensures { (result ≡ true → ZeroFrom table.now start) × (ZeroFrom table.now start → result ≡ true) }
{
    table.iter().skip(start).all(|&number| number == 0)
}

// Whether `\r` stands at an offset, and `\n` directly behind it.
pub fn is_pair(text: &[u8], at: usize) -> bool
    ensures { result ≡ pair_at text.now at }
{
    let Some(rest) = text.get(at..) else {
        return false;
    };
    rest.starts_with(b"\r\n")
}

// Whether `\r` stands directly before `\n` anywhere in a text, strings and comments too.
// Rico counts such a pair between tokens for two lines, the port for one.
pub fn has_pair(text: &[u8]) -> bool
    ensures { result ≡ has_pair text.now }
{
    (0..text.len()).any(|at| is_pair(text, at))
}

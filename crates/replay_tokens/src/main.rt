// Cuts each text of the list on standard input, and compares every token with rico's.
// Rico counts CR LF between tokens for two lines, the port for one (docs/DIFFERENCES.md): a line is rico's less the pairs between the tokens before it.
//
// The list holds little-endian numbers of 4 bytes. First the count of texts, then for each text:
//     its length, and its bytes
//     rico's verdict (0 fine, 21 no UTF-8, 22 no token), and its place
//     the count of its tokens, and seven numbers for each: the kind, then index, line and column of the start and of the end
#![tactic(auto)]

ghost use Rattle.std.specs.Prelude.{◌≡◌, ◌+◌, ◌≤◌, ◌<◌, false, length};
ghost use Rattle.lexer.specs.Limit.{limit};

use lexer::error::ErrorKind;
use lexer::location::{Lexer, Next, ParserToken, Span};
use replay::{Findings, Tally};
use std::error::Error;
use std::io::Stdout;
use std::{fmt, io};

// The bytes of a token in the list.
const ROW: usize = 28;

// A text of the list, rico's verdict and its place, as the list has them, and the rows of its tokens. What is compared with it is compared by hand: the rows are bytes.
#[derive(Clone, Copy)]
struct Entry<'a> {
    text: &'a [u8],
    verdict: u32,
    place: u32,
    rows: &'a [u8],
}

impl Entry<'_> {
    // Whether the verdict is this refusal, at this place.
    fn is_refused(self, kind: ErrorKind, place: u32) -> bool {
        self.verdict == u32::from(kind) && self.place == place
    }
}

// Why a list is not the texts that it counts.
#[derive(Clone, Copy, Debug, PartialEq, Eq)]
enum ListError {
    // it is cut short
    Short,
    // bytes are left behind the last text
    Long,
}

impl fmt::Display for ListError {
    ghost use Rattle.std.specs.Prelude.{Some};
    ghost use Rattle.replay_tokens.specs.Message.{message};

    ghost output = { λ error. Some (message error) };

    fn fmt<W: fmt::Write>(&self, f: &mut fmt::Formatter<W>) -> fmt::Result {
        f.write_str(match self {
            ListError::Short => "the list ends early",
            ListError::Long => "the list goes on",
        })
    }
}

impl Error for ListError {}

// What is left of the list.
#[derive(Clone, Copy)]
struct List<'a> {
    rest: &'a [u8],
}

impl<'a> List<'a> {
    // Takes a number.
    fn number(&mut self) -> Result<u32, ListError> {
        let (number, rest) = self.rest.split_first_chunk::<4>().ok_or(ListError::Short)?;
        self.rest = rest;
        Ok(u32::from_le_bytes(*number))
    }

    // Takes so many bytes.
    fn part(&mut self, length: usize) -> Result<&'a [u8], ListError> {
        let (part, rest) = self.rest.split_at_checked(length).ok_or(ListError::Short)?;
        self.rest = rest;
        Ok(part)
    }

    // Takes a text.
    fn entry(&mut self) -> Result<Entry<'a>, ListError> {
        let length = self.number()?;
        let text = self.part(length as usize)?;
        let verdict = self.number()?;
        let place = self.number()?;
        let count = self.number()?;
        let rows = self.part(count as usize * ROW)?;
        Ok(Entry {
            text,
            verdict,
            place,
            rows,
        })
    }

    // Nothing may be left.
    fn end(self) -> Result<(), ListError> {
        if self.rest.is_empty() {
            Ok(())
        } else {
            Err(ListError::Long)
        }
    }
}

// Whether index, line and column of a place stand at an offset; the line is rico's less so many pairs of CR LF.
fn same_span(row: &[u8], at: usize, span: Span, pairs: u32) -> bool
    requires { at + 12 ≤ length row.now }
{
    let line = replay::number(row, at + 4);
    replay::number(row, at) == span.index
        && span.line.checked_add(pairs) == Some(line)
        && replay::number(row, at + 8) == span.column
}

// Whether a row is this token.
fn same_token(row: &[u8; ROW], token: ParserToken, pairs: u32) -> bool {
    let ParserToken { token, loc } = token;
    replay::number(row, 0) == u32::from(token)
        && same_span(row, 4, loc.start, pairs)
        && same_span(row, 16, loc.end, pairs)
}

// So many pairs of CR LF, and those from an offset up to a token.
fn add_pairs(text: &[u8], from: u32, token: ParserToken, pairs: u32) -> u32 {
    (from..token.loc.start.index)
        .filter(|&at| replay::is_pair(text, at as usize))
        .fold(pairs, |count, _| ast::bump(count))
}

// Whether the tokens of a text are those of the rows, and end as the verdict says.
fn same_tokens(entry: Entry) -> bool
    requires { length entry.text.now ≤ limit }
{
    let text = entry.text;
    let mut from = Lexer::new();
    let mut pairs = 0;
    let (rows, _) = entry.rows.as_chunks::<ROW>();
    for row in rows {
        let Next::On(token, behind) = lexer::next_token(text, from) else {
            return false;
        };
        pairs = add_pairs(text, from.at, token, pairs);
        if !same_token(row, token, pairs) {
            return false;
        }
        from = behind;
    }
    match lexer::next_token(text, from) {
        Next::On(_, _) => false,
        Next::End => entry.verdict == 0,
        Next::Unrecognized(at) => entry.is_refused(ErrorKind::NoToken, at),
    }
}

// Whether the check of a text answers as the verdict says, and its tokens are rico's. There are no tokens to compare where it is no UTF-8.
// Rico has no bound on a text, so one over it always differs, whatever its verdict.
fn same_text(entry: Entry) -> bool
    ensures { limit < length entry.entry.text.now → result ≡ false }
{
    match lexer::check(entry.text) {
        Ok(()) => entry.verdict == 0 && same_tokens(entry),
        Err(refusal) => {
            entry.is_refused(refusal.kind, refusal.place)
                && match refusal.kind {
                    ErrorKind::NotUtf8 => true,
                    ErrorKind::NoToken => same_tokens(entry),
                    _ => false,
                }
        }
    }
}

// Compares the next text of the list.
fn compare_next(list: &mut List, tally: Tally) -> Result<Tally, ListError> {
    let entry = list.entry()?;
    Ok(tally.with(same_text(entry), replay::has_pair(entry.text)))
}

// Compares so many texts, writes the index of each that differs, and tells what was found.
// Not by `replay::replay`, which reads a stream: this list is a slice in memory, with an error of its own.
fn compare(out: Stdout, mut list: List, texts: u32) -> io::Result<Result<Tally, ListError>> {
    let mut tally = Tally::new();
    for index in 0..texts {
        let now = match compare_next(&mut list, tally) {
            Ok(now) => now,
            Err(error) => return Ok(Err(error)),
        };
        if now.has_more(&tally) {
            println!(out; "text {index} differs")?;
        }
        tally = now;
    }
    Ok(list.end().map(|()| tally))
}

// Compares all texts of the list and says what was found.
fn compare_list(out: Stdout, mut list: List) -> io::Result<()> {
    let texts = match list.number() {
        Ok(texts) => texts,
        Err(error) => return println!(out; "{error}"),
    };
    match compare(out, list, texts)? {
        Ok(tally) => println!(out; "{texts} texts, {tally}"),
        Err(error) => println!(out; "{error}"),
    }
}

// So many zeros. At a number that is left open the length is plain, and no proof counts the bytes.
fn zeros<const N: usize>() -> [u8; N]
    ensures { N ≡ length result }
{
    [0; N]
}

// A place for the list; of a longer one the end is missing.
fn space() -> [u8; 524288]
    ensures { 524288 ≡ length result }
{
    zeros()
}

fn main(rt: HostRuntime) -> io::Result<()> {
    let mut space = space();
    let n = input::read_full(&mut rt.stdin(), &mut space)?;
    compare_list(rt.stdout(), List { rest: &space[..n] })
}

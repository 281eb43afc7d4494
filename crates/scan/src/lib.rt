// Which token starts a text, and how long it is: branches over the classes of its bytes. A byte is looked at once, but for those before a block comment's slashes and two bytes at most behind a token.
#![tactic(auto)]

pub mod table;
mod words;

ghost use Rattle.std.specs.Prelude.{◌≡◌, ◌&&◌, ◌||◌, eqb, leb, ltb, ◌+◌, ◌<◌, ◌≤◌, length, drop, get_or};
ghost use Rattle.std.specs.Bool.{MatchBool};
ghost use Rattle.token.specs.Scan.{scan};
ghost use Rattle.token.specs.Run.{class_of, before};
ghost use Rattle.token.specs.Automaton.{State, Reached, longest, opened, quote, stop};
ghost use Rattle.token.specs.WordNumber.{start, no_keyword, numbers, word_from};
ghost use Rattle.token.specs.declared.Token.TheVariants as T;
ghost use Rattle.scan.specs.First.{First};

use table::CLASSES;
use token::{Scan, Token};

// The classes, in the order of their numbers: the digits are those below E, the letters go on to the dot.
// Numbers, and no enum: it is their order that the branches test.
const E: u8 = 8;

const HEX: u8 = 10;

const X: u8 = 16;

const NO_X: u8 = 18;

const DOT: u8 = 36;

const STAR: u8 = 37;

const SLASH: u8 = 38;

const LINE_FEED: u8 = 39;

const RETURN: u8 = 40;

const DOUBLE_QUOTE: u8 = 41;

const BACKSLASH: u8 = 42;

const SINGLE_QUOTE: u8 = 43;

const HASH: u8 = 44;

const SIGN: u8 = 45;

// From here on a class is that of a token of one byte, but for the last two: the bytes that start no token, and the blanks.
pub const MARK: u8 = 46;

pub const NONE: u8 = 58;

pub const BLANK: u8 = 59;

// Past the last class.
const ALL: u8 = 60;

// Whether a byte of this class is a line end: `\n`, or `\r` and `\f`.
pub fn is_line_end(k: u8) -> bool
    ensures { result ≡ (eqb k 39 || eqb k 40) }
{
    if k == LINE_FEED {
        return true;
    }
    k == RETURN
}

// Whether a byte of this class starts a word.
pub fn is_letter(k: u8) -> bool
    ensures { result ≡ (leb 8 k && ltb k 36) }
{
    if k < E {
        return false;
    }
    k < DOT
}

// The class of a byte.
pub fn class_of(byte: u8) -> u8
    ensures { result ≡ class_of byte }
{
    CLASSES[byte as usize]
}

// The class of a byte of the text.
pub fn class_at(text: &[u8], i: usize) -> u8
    requires { i < length text.now }
    ensures { result ≡ class_of (get_or text.now i 0) }
{
    class_of(text[i])
}

// The first place from `at` on whose byte passes the test; the end if there is none.
#[inline(always)]
fn find<F: Fn(u8) -> bool>(text: &[u8], at: usize, test: F) -> usize
    requires within { at ≤ length text.now }
    requires callable { F.IsAlwaysCallable test }
    ensures { First (F.post test) text.now at result }
{
    for i in at..text.len() {
        if test(text[i]) {
            return i;
        }
    }
    text.len()
}

// The first place from `at` on whose byte has a class from `from` on and below `to`; the end if there is none.
fn run(text: &[u8], at: usize, from: u8, to: u8) -> usize
    requires { at ≤ length text.now }
    ensures { result ≡ at + before from to (drop at text.now) }
{
    find(text, at, |byte| {
        let k = class_of(byte);
        from <= k && k < to
    })
}

// The same of all classes from `from` on. By its own test, and called: with the two of `run`, or inlined where it starts at a known place, a long number took twice the time.
#[inline(never)]
fn run_above(text: &[u8], at: usize, from: u8) -> usize
    requires { at ≤ length text.now }
    ensures { result ≡ at + before from 60 (drop at text.now) }
{
    find(text, at, |byte| from <= class_of(byte))
}

// The first place from `at` on where a line feed stands; the end if there is none.
fn find_line_feed(text: &[u8], at: usize) -> usize
    requires { at ≤ length text.now }
    ensures { result ≡ at + before 39 40 (drop at text.now) }
{
    find(text, at, |byte| byte == b'\n')
}

// What answers a Scan is inlined: called, it would answer through memory, and each caller would copy the answer. Each asks where the scan stands (`Reached`), each of another state.

// The number whose exponent's digits are to start at `at`; without one it ends at `end` as `kind`.
#[inline(always)]
fn exponent_digits(text: &[u8], at: usize, end: usize, kind: Token) -> Scan
    requires { Reached text.now State.exponent_sign at (Some (kind, end)) }
    ensures { result ≡ longest text.now }
{
    if text.len() <= at {
        return Some((kind, end));
    }
    if class_at(text, at) < E {
        return Some((Token::DoubleLiteral, run_above(text, at + 1, E)));
    }
    Some((kind, end))
}

// The number whose `e` stands at `end`, where it ends as `kind` if no exponent follows.
#[inline(always)]
fn exponent_of(text: &[u8], end: usize, kind: Token) -> Scan
    requires { Reached text.now State.exponent_mark (end + 1) (Some (kind, end)) }
    ensures { result ≡ longest text.now }
{
    let at = end + 1;
    if text.len() <= at {
        return Some((kind, end));
    }
    if class_at(text, at) == SIGN {
        return exponent_digits(text, at + 1, end, kind);
    }
    exponent_digits(text, at, end, kind)
}

// The number whose digits behind the point go on at `at`.
#[inline(always)]
fn fraction_of(text: &[u8], at: usize) -> Scan
    requires { Reached text.now State.fraction at (Some (T.DoubleLiteral, at)) }
    ensures { result ≡ longest text.now }
{
    let end = run_above(text, at, E);
    if text.len() <= end {
        return Some((Token::DoubleLiteral, end));
    }
    if class_at(text, end) < HEX {
        return exponent_of(text, end, Token::DoubleLiteral);
    }
    Some((Token::DoubleLiteral, end))
}

// The number whose digits go on at `at`.
#[inline(always)]
fn whole_of(text: &[u8], at: usize) -> Scan
    requires { Reached text.now State.whole at (Some (T.IntegerLiteral, at)) }
    ensures { result ≡ longest text.now }
{
    let end = run_above(text, at, E);
    if text.len() <= end {
        return Some((Token::IntegerLiteral, end));
    }
    let k = class_at(text, end);
    if k < HEX {
        return exponent_of(text, end, Token::IntegerLiteral);
    }
    if k == DOT {
        return fraction_of(text, end + 1);
    }
    Some((Token::IntegerLiteral, end))
}

// The number that starts with 0.
#[inline(always)]
fn zero_of(text: &[u8]) -> Scan
    requires { Reached text.now State.zero 1 (Some (T.IntegerLiteral, 1)) }
    ensures { result ≡ longest text.now }
{
    if text.len() <= 1 {
        return Some((Token::IntegerLiteral, 1));
    }
    let k = class_at(text, 1);
    if k < X {
        return whole_of(text, 1);
    }
    if NO_X <= k {
        return whole_of(text, 1);
    }
    if text.len() <= 2 {
        return Some((Token::IntegerLiteral, 1));
    }
    if class_at(text, 2) < X {
        return Some((Token::HexLiteral, run(text, 3, X, ALL)));
    }
    Some((Token::IntegerLiteral, 1))
}

// The token that starts with a dot.
#[inline(always)]
fn dot_of(text: &[u8]) -> Scan
    requires { Reached text.now State.dot 1 (Some (T.Dot, 1)) }
    ensures { result ≡ longest text.now }
{
    if text.len() <= 1 {
        return Some((Token::Dot, 1));
    }
    if class_at(text, 1) < E {
        return fraction_of(text, 2);
    }
    Some((Token::Dot, 1))
}

// The number that starts with a sign.
#[inline(always)]
fn signed_of(text: &[u8]) -> Scan
    requires { Reached text.now State.signed 1 None }
    ensures { result ≡ longest text.now }
{
    if text.len() <= 1 {
        return None;
    }
    let k = class_at(text, 1);
    if k < E {
        return whole_of(text, 2);
    }
    if k != DOT {
        return None;
    }
    if text.len() <= 2 {
        return None;
    }
    if class_at(text, 2) < E {
        return fraction_of(text, 3);
    }
    None
}

// The class of the quote, and the first of the two classes, that quote's and the backslash's, at which the run of a string stops.
fn quote_of(double: bool) -> u8
    ensures { result ≡ quote double }
{
    if double { DOUBLE_QUOTE } else { SINGLE_QUOTE }
}

fn stop_of(double: bool) -> u8
    ensures { result ≡ stop double }
{
    if double { DOUBLE_QUOTE } else { BACKSLASH }
}

// The string that starts with `"` or `'`; which quote it is is the state of the scan's definition.
// It goes on from mark to mark by `run`, so no iterator over bytes fits.
#[inline(always)]
fn string_of(text: &[u8], double: bool) -> Scan
    requires { Reached text.now (State.in_string double) 1 None }
    ensures { result ≡ longest text.now }
{
    let quote = quote_of(double);
    let stop = stop_of(double);
    let mut i: usize = 1;
    // a step is a run of bytes, and a backslash with what it escapes
    loop {
        let j = run(text, i, stop, stop + 2);
        if text.len() <= j {
            return None;
        }
        if class_at(text, j) == quote {
            return Some((Token::StringLiteral, j + 1));
        }
        if text.len() <= j + 1 {
            return None;
        }
        if class_at(text, j + 1) == LINE_FEED {
            return None;
        }
        i = j + 2;
    }
}

// The block comment, its `/*` read: it ends with the first slash behind a star that is not the one read.
#[inline(always)]
fn block_of(text: &[u8]) -> Scan
    requires { Reached text.now State.block 2 None }
    ensures { result ≡ longest text.now }
{
    for i in 3..text.len() {
        if text[i] == b'/' && text[i - 1] == b'*' {
            return Some((Token::BlockComment, i + 1));
        }
    }
    None
}

// The comment that starts with a slash.
#[inline(always)]
fn slash_of(text: &[u8]) -> Scan
    requires { Reached text.now State.slash 1 None }
    ensures { result ≡ longest text.now }
{
    if text.len() <= 1 {
        return None;
    }
    let k = class_at(text, 1);
    if k == SLASH {
        return Some((Token::LineComment, find_line_feed(text, 2)));
    }
    if k == STAR {
        return block_of(text);
    }
    None
}

// Whether the word goes on behind its piece that ends at `i`: a dot and a letter stand there.
#[inline(always)]
fn goes_on(text: &[u8], i: usize) -> bool
    requires { (i < length text.now) × (36 ≤ class_of (get_or text.now i 0)) × Reached text.now State.named i (Some (T.Identifier, i)) }
    ensures { MatchBool result ((i + 1 < length text.now) × Reached text.now State.named (i + 2) (Some (T.Identifier, i + 2))) (longest text.now ≡ Some (T.Identifier, i)) }
{
    class_at(text, i) == DOT && i + 1 < text.len() && is_letter(class_at(text, i + 1))
}

// Where the identifier that goes on at `at` ends, a keyword or not.
// It goes on from dot to dot by `run`.
#[inline(always)]
fn name_end(text: &[u8], at: usize) -> usize
    requires { Reached text.now State.named at (Some (T.Identifier, at)) }
    ensures { (longest text.now ≡ Some (T.Identifier, result)) × (at ≤ result) }
{
    let mut i = run(text, at, DOT, ALL);
    // a step is a part between dots
    while i < text.len() && goes_on(text, i) {
        i = run(text, i + 2, DOT, ALL);
    }
    i
}

// The word that goes on at `at`, where no keyword begins with its bytes so far: none does with more.
#[inline(always)]
fn name_of(text: &[u8], at: usize) -> Scan
    requires { Reached text.now State.named at (Some (T.Identifier, at)) }
    ensures { result ≡ word_from no_keyword at text.now (longest text.now) }
{
    let end = name_end(text, at);
    Some((words::kind_of(words::NO_KEYWORD), end))
}

// How long the word at an offset is, a keyword or not; a letter stands there.
pub fn word_extent(text: &[u8], at: usize) -> usize
    requires { (at < length text.now) × (8 ≤ class_of (get_or text.now at 0)) × (class_of (get_or text.now at 0) < 36) }
    ensures { longest (drop at text.now) ≡ Some (T.Identifier, result) }
{
    name_end(&text[at..], 1)
}

// The word whose first piece ends at `i`, with this number: with a dot and a letter behind it it goes on.
#[inline(always)]
fn word_end(text: &[u8], i: usize, number: u8) -> Scan
    requires { (i < length text.now) × (36 ≤ class_of (get_or text.now i 0)) × Reached text.now State.named i (Some (T.Identifier, i)) × (number < numbers) }
    ensures { result ≡ word_from number i text.now (longest text.now) }
{
    if goes_on(text, i) {
        return name_of(text, i + 2);
    }
    Some((words::kind_of(number), i))
}

// The word that goes on at `at`, its bytes so far known by their number alone: any number, whatever they were.
#[inline(always)]
fn word_from(text: &[u8], at: usize, number: u8) -> Scan
    requires { Reached text.now State.named at (Some (T.Identifier, at)) × (number < numbers) }
    ensures { result ≡ word_from number at text.now (longest text.now) }
{
    if number == words::NO_KEYWORD {
        return name_of(text, at);
    }
    let mut now = number;
    for i in at..text.len() {
        let k = class_at(text, i);
        if DOT <= k {
            return word_end(text, i, now);
        }
        now = words::step(now, k);
        if now == words::NO_KEYWORD {
            return name_of(text, i + 1);
        }
    }
    Some((words::kind_of(now), text.len()))
}

// The identifier or keyword that starts with a letter of the class `first`.
#[inline(always)]
fn word_of(text: &[u8], first: u8) -> Scan
    requires { (0 < length text.now) × (first ≡ class_of (get_or text.now 0 0)) × (8 ≤ first) × (first < 36) × Reached text.now State.start 0 None }
    ensures { result ≡ word_from start 0 text.now (longest text.now) }
{
    let number = words::step(words::START, first);
    word_from(text, 1, number)
}

// The token of one byte, by its class: the classes from `MARK` on are told apart here alone.
#[inline(always)]
pub fn mark_of(k: u8) -> Scan
    ensures { result ≡ opened k }
{
    match k {
        37 => Some((Token::Star, 1)),
        39 => Some((Token::Newline, 1)),
        40 => Some((Token::Newline, 1)),
        46 => Some((Token::LeftParen, 1)),
        47 => Some((Token::RightParen, 1)),
        48 => Some((Token::Comma, 1)),
        49 => Some((Token::Colon, 1)),
        50 => Some((Token::Semicolon, 1)),
        51 => Some((Token::LeftAngle, 1)),
        52 => Some((Token::Equals, 1)),
        53 => Some((Token::RightAngle, 1)),
        54 => Some((Token::LeftBracket, 1)),
        55 => Some((Token::RightBracket, 1)),
        56 => Some((Token::LeftBrace, 1)),
        57 => Some((Token::RightBrace, 1)),
        _ => None,
    }
}

// The token that starts with a byte of the class k, which is no letter and no digit.
#[inline(always)]
fn sign_of(text: &[u8], k: u8) -> Scan
    requires { (0 < length text.now) × (k ≡ class_of (get_or text.now 0 0)) × (36 ≤ k) × Reached text.now State.start 0 None }
    ensures { result ≡ longest text.now }
{
    match k {
        BLANK => Some((Token::Blank, run(text, 1, 0, BLANK))),
        DOUBLE_QUOTE => string_of(text, true),
        SINGLE_QUOTE => string_of(text, false),
        HASH => Some((Token::LineComment, find_line_feed(text, 1))),
        SLASH => slash_of(text),
        SIGN => signed_of(text),
        DOT => dot_of(text),
        _ => mark_of(k),
    }
}

// The token that starts a text.
#[inline(always)]
fn token_of(text: &[u8]) -> Scan
    ensures { result ≡ scan text.now }
{
    if text.len() == 0 {
        return None;
    }
    let k = class_at(text, 0);
    if DOT <= k {
        return sign_of(text, k);
    }
    if E <= k {
        return word_of(text, k);
    }
    if k == 0 {
        return zero_of(text);
    }
    whole_of(text, 1)
}

// The token at an offset: the part of the text from there on is handed on.
#[inline(always)]
pub fn scan_token(text: &[u8], at: usize) -> Scan
    requires { at ≤ length text.now }
    ensures { result ≡ scan (drop at text.now) }
{
    token_of(&text[at..])
}

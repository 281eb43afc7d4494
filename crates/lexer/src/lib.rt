// The lexer: from any byte string to its tokens, proved.
#![tactic(auto)]

pub mod error;
pub mod location;

ghost use Rattle.std.specs.Prelude.{◌≡◌, ◌<◌, ◌≤◌, length, drop};
ghost use Rattle.lexer.specs.Limit.{limit};
ghost use Rattle.lexer.specs.Cuts.{cuts, unrecognized};
ghost use Rattle.lexer.specs.Location.{Placed};
ghost use Rattle.lexer.specs.Tokens.{skipped, next};
ghost use Rattle.lexer.specs.Check.{checked, found};
ghost use Rattle.lexer.specs.Extent.{Extent};
ghost use Rattle.lexer.specs.Marked.{marked};
ghost use Rattle.token.specs.Automaton.{opened};

use error::{ErrorKind, Refusal};
use location::{Lexer, Next, ParserToken};
use token::Token;

// The longest text that is read.
pub const LIMIT: usize = 65536;

// Blanks and line ends are no tokens for the parser.
pub fn skipped(token: Token) -> bool
    ensures { result ≡ skipped token }
{
    matches!(token, Token::Blank | Token::Newline)
}

// The token of one byte that stands at the lexer's offset, by the byte's class.
fn mark(k: u8, from: Lexer) -> Next
    requires { Placed from × (from.at < limit) }
    ensures { result ≡ marked (opened k) from }
{
    let Some((token, _)) = scan::mark_of(k) else {
        return Next::Unrecognized(from.at);
    };
    let behind = location::behind(from, false);
    let loc = from.until(behind);
    Next::On(ParserToken { token, loc }, behind)
}

// The next token of the text behind the lexer's offset: rico's create_parser_token. That the text passed 20 is asked for here and by its three callers, which have just seen it; a struct of the text alone, as `reader` makes one for a call, would be made at each token here.
pub fn next_token(text: &[u8], lexer: Lexer) -> Next
    requires { (length text.now ≤ limit) × Placed lexer }
    ensures { result ≡ next text.now lexer }
{
    let mut from = lexer;
    // a step is a token, a blank or a line end; its lexer is the state
    loop {
        let at = from.at as usize;
        if text.len() <= at {
            return Next::End;
        }
        let k = scan::class_at(text, at);
        if scan::MARK <= k {
            if k != scan::BLANK {
                return mark(k, from);
            }
            from = location::behind(from, false);
        } else if scan::is_line_end(k) {
            from = location::behind(from, location::ends_line(text, at));
        } else {
            let found = scan::scan_token(text, at);
            let Some((token, n)) = found else {
                return Next::Unrecognized(from.at);
            };
            let end = at + n;
            let behind = location::pass_lexeme(token, &text[at..end], from);
            if skipped(token) {
                from = behind;
            } else {
                let loc = from.until(behind);
                return Next::On(ParserToken { token, loc }, behind);
            }
        }
    }
}

// How many bytes at an offset can be passed at once: one of a mark and of blanks, all of any other token. No token may start there.
fn extent(text: &[u8], at: usize) -> Option<usize>
    requires { at < length text.now }
    ensures { Extent text.now at result }
{
    let k = scan::class_at(text, at);
    if k == scan::NONE {
        return None;
    }
    if scan::MARK <= k {
        return Some(1);
    }
    if scan::is_letter(k) {
        return Some(scan::word_extent(text, at));
    }
    let (_, n) = scan::scan_token(text, at)?;
    Some(n)
}

// The first offset where no token starts, the text cut from an offset on.
pub fn unrecognized(text: &[u8], from: usize) -> Option<usize>
    ensures { result ≡ unrecognized (cuts (drop from text.now)) from }
{
    let mut at = from;
    // a step is an extent
    while at < text.len() {
        let Some(n) = extent(text, at) else {
            return Some(at);
        };
        at += n;
    }
    None
}

// The checks of a whole text that come before the grammar: 20, 21, 22.
pub fn check(text: &[u8]) -> Result<(), Refusal>
    ensures { found result ≡ checked text.now }
{
    if LIMIT < text.len() {
        return Err(Refusal::at(ErrorKind::TextTooLong, 0));
    }
    if let Some(at) = utf8::ill_formed(text) {
        return Err(Refusal::at(ErrorKind::NotUtf8, at as u32));
    }
    if let Some(at) = unrecognized(text, 0) {
        return Err(Refusal::at(ErrorKind::NoToken, at as u32));
    }
    Ok(())
}

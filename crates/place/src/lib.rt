// The line and the column of a place, by the lexer's rule.
#![tactic(auto)]

ghost use Rattle.std.specs.Prelude.{◌≡◌, ◌+◌, ◌<◌, ◌≤◌, min, length};
ghost use Rattle.lexer.specs.Limit.{limit};
ghost use Rattle.token.specs.Scan.{scan};
ghost use Rattle.token.specs.declared.Token.TheVariants as T;
ghost use Rattle.lexer.specs.Location.{Placed, span_of, opening};
ghost use Rattle.place.specs.Place.{kind_of, length_of, walk, place_of, step};

use lexer::location;
use lexer::location::{Lexer, Span};
use token::Token;

// The token that a text starts with, and how many of its bytes are passed, at most so many; a byte that starts no token ends no line.
fn first(text: &[u8], most: usize) -> (Token, usize)
    ensures { (result.0 ≡ kind_of (scan text.now)) × (result.1 ≡ min (length_of (scan text.now)) most) }
{
    let (token, n) = scan::scan_token(text, 0).unwrap_or((Token::Blank, 1));
    (token, n.min(most))
}

// The lexer behind the first token of the text that lies ahead, passing at most so many bytes.
fn pass_first(text: &[u8], most: usize, from: Lexer) -> Lexer
    requires { (0 < most) × (most ≤ length text.now) × Placed from × (from.at + most ≤ limit) }
    ensures { result ≡ step text.now most from }
{
    let (token, n) = first(text, most);
    if let Token::Newline = token {
        return location::behind(from, location::ends_line(text, 0));
    }
    location::pass_lexeme(token, &text[..n], from)
}

// The place at an offset, which may lie in a token.
fn reached(text: &[u8], place: usize) -> Span
    requires { (place ≤ length text.now) × (place ≤ limit) }
    ensures { result ≡ span_of (walk text.now T.Blank 0 place opening) }
{
    let mut from = Lexer::new();
    // a step is a token
    loop {
        let at = from.at as usize;
        if place <= at {
            return from.span();
        }
        from = pass_first(&text[at..], place - at, from);
    }
}

// The place at an offset of the text, which may be any.
pub fn find(text: &[u8], offset: u32) -> Span
    ensures { result ≡ place_of text.now offset }
{
    let end = text.len().min(lexer::LIMIT);
    reached(text, (offset as usize).min(end))
}

// What the readers above share: the parser and its steps (rico's parser/token.rs), the tokens ahead, records in a lent table, places in 64 bits, ids.
// Every step holds for any state and any table: none has to be well formed, and what does not fit is counted, not written.
#![tactic(auto)]

pub mod id;
pub mod packed;
pub mod state;
pub mod table;

ghost use Rattle.std.specs.Prelude.{◌≡◌, ◌≤◌, length};
ghost use Rattle.lexer.specs.Limit.{limit};
ghost use Rattle.steps.specs.Into.{lexer_at, found_at, is_comment, is_separator};
ghost use Rattle.steps.specs.Packed.{unpacked};

use crate::state::Ahead;
use lexer::location::{Lexer, Next};
use token::Token;

// The lexer that stands at a place.
#[tactic(auto, unfolding(crate::specs::Into::lexer_at))]
fn lexer_at(place: u64) -> Lexer
    ensures { result ≡ lexer_at (unpacked place) }
{
    let at = packed::index_of(place);
    Lexer {
        at,
        line: packed::line_of(place).saturating_sub(1),
        origin: at.saturating_sub(packed::column_of(place).saturating_sub(1)),
    }
}

// The token behind a place; none where the place is in no text.
pub fn look(text: &[u8], place: u64) -> Option<Ahead>
    requires { length text.now ≤ limit }
    ensures { result ≡ found_at text.now place }
{
    let from = lexer_at(place);
    if lexer::LIMIT < from.at as usize || from.at < from.line {
        return None;
    }
    match lexer::next_token(text, from) {
        Next::On(token, _) => Some(Ahead {
            token: token.token,
            loc: packed::pack_loc(token.loc),
        }),
        _ => None,
    }
}

// Whether a number is a separator's; or a comment's. `Parser` tells both of the token ahead, which has no number to look up.
#[tactic(auto, unfolding(crate::specs::Into::is_separator, token::specs::Code::code))]
pub fn is_separator(kind: u32) -> bool
    ensures { result ≡ is_separator kind }
{
    kind == u32::from(Token::Comma) || kind == u32::from(Token::Semicolon)
}

#[tactic(auto, unfolding(crate::specs::Into::is_comment, token::specs::Code::code))]
pub fn is_comment(kind: u32) -> bool
    ensures { result ≡ is_comment kind }
{
    kind == u32::from(Token::LineComment) || kind == u32::from(Token::BlockComment)
}

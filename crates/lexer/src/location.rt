// Places in a text: rico's ast/types.rs, and the position that its lexer keeps.
ghost use Rattle.std.specs.Prelude.{◌≡◌, ◌+◌, ◌<◌, ◌≤◌, false, [], length, get_or, drop};
ghost use Rattle.token.specs.Code.{is};
ghost use Rattle.token.specs.declared.Token.TheVariants as T;
ghost use Rattle.lexer.specs.Limit.{limit};
ghost use Rattle.lexer.specs.Location.{Placed, ends_line, behind, pass, span_of, between, opening};

use token::Token;

// A place: line and column from 1, byte offset from 0.
#[derive(Clone, Copy, Debug, PartialEq, Eq)]
pub struct Span {
    pub line: u32,
    pub column: u32,
    pub index: u32,
}

// From the first byte to one past the last.
#[derive(Clone, Copy, Debug, PartialEq, Eq)]
pub struct LOC {
    pub start: Span,
    pub end: Span,
}

// A token and where it stands.
#[derive(Clone, Copy, Debug, PartialEq, Eq)]
pub struct ParserToken {
    pub token: Token,
    pub loc: LOC,
}

// The lexer by value: its offset, the lines passed, the offset where the line starts. That it may stand in a text (`Placed`) is asked where a place is made of it: the definitions make any.
#[derive(Clone, Copy, Debug, PartialEq, Eq)]
pub struct Lexer {
    pub at: u32,
    pub line: u32,
    pub origin: u32,
}

// What stands behind the lexer's offset, blanks passed. An enum of its own: a Result of an Option would say the same three answers in two layers.
#[derive(Clone, Copy, Debug, PartialEq, Eq)]
pub enum Next {
    On(ParserToken, Lexer),
    End,
    Unrecognized(u32),
}

impl Lexer {
    // The lexer at the start of a text.
    pub fn new() -> Lexer
        ensures { result ≡ opening }
    {
        Lexer {
            at: 0,
            line: 0,
            origin: 0,
        }
    }

    // Its place.
    pub fn span(self) -> Span
        requires { Placed self }
        ensures { result ≡ span_of self }
    {
        Span {
            line: self.line + 1,
            column: self.at - self.origin + 1,
            index: self.at,
        }
    }

    // The range from here to a later place.
    pub fn until(self, end: Lexer) -> LOC
        requires { Placed self × Placed end }
        ensures { result ≡ between self end }
    {
        let start = self.span();
        let end = end.span();
        LOC { start, end }
    }
}

// The lexer behind one byte, which ends a line or not.
pub fn behind(lexer: Lexer, ends: bool) -> Lexer
    requires { Placed lexer × (lexer.at < limit) }
    ensures { result ≡ behind ends lexer }
{
    let at = lexer.at + 1;
    if ends {
        return Lexer {
            at,
            line: lexer.line + 1,
            origin: at,
        };
    }
    Lexer {
        at,
        line: lexer.line,
        origin: lexer.origin,
    }
}

// Whether the line end at an offset ends a line: a `\r` directly before `\n` does not.
pub fn ends_line(text: &[u8], at: usize) -> bool
    requires { at < length text.now }
    ensures { result ≡ ends_line T.Newline (get_or text.now at 0) (drop (at + 1) text.now) }
{
    if text[at] != b'\r' {
        return true;
    }
    let next = at + 1;
    if text.len() <= next {
        return true;
    }
    text[next] != b'\n'
}

// The lexer behind a block comment: each `\n` in it ends a line.
fn pass_block(comment: &[u8], lexer: Lexer) -> Lexer
    requires { Placed lexer × (lexer.at + length comment.now ≤ limit) }
    ensures { result ≡ pass comment.now T.BlockComment [] lexer }
{
    let mut now = lexer;
    for &byte in comment {
        now = behind(now, byte == b'\n');
    }
    now
}

// The lexer behind a lexeme that is no line end.
pub fn pass_lexeme(token: Token, bytes: &[u8], lexer: Lexer) -> Lexer
    requires { Placed lexer × (lexer.at + length bytes.now ≤ limit) × (is token T.Newline ≡ false) }
    ensures { result ≡ pass bytes.now token [] lexer }
{
    if let Token::BlockComment = token {
        return pass_block(bytes, lexer);
    }
    Lexer {
        at: lexer.at + bytes.len() as u32,
        line: lexer.line,
        origin: lexer.origin,
    }
}

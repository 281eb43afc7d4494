// The thin reader: it keeps a text with its offset, and gives one token a call.
#![tactic(auto)]

ghost use Rattle.std.specs.Prelude.{◌≡◌};
ghost use Rattle.scanner.specs.Piece.{piece_at};
ghost use Rattle.scanner.specs.Reader.{opened, read, behind};

use token::Token;

// A text, and the offset behind what was read of it.
#[derive(Clone, Copy)]
pub struct Reader<'a> {
    pub text: &'a [u8],
    pub at: usize,
}

// What stands behind an offset, blanks and line ends passed over. An enum of its own: a Result of an Option would say the same three answers in two layers.
#[derive(Clone, Copy, Debug, PartialEq, Eq)]
pub enum What {
    Token(Token),
    // nothing is left
    End,
    // no token starts there
    Unrecognized,
}

// It with its bytes: from `start` on and below `end`. There are none where there is no token: both are the place then, which is asked for there too.
#[derive(Clone, Copy, Debug, PartialEq, Eq)]
pub struct Piece {
    pub what: What,
    pub start: usize,
    pub end: usize,
}

// The first piece of the text from `at` on, one scan after the other.
fn piece_at(text: &[u8], at: usize) -> Piece
    ensures { result ≡ piece_at text.now at }
{
    let mut from = at;
    // a step is a token
    while from < text.len() {
        let found = scan::scan_token(text, from);
        let Some((token, n)) = found else {
            return Piece {
                what: What::Unrecognized,
                start: from,
                end: from,
            };
        };
        let end = from + n;
        if lexer::skipped(token) {
            from = end;
        } else {
            return Piece {
                what: What::Token(token),
                start: from,
                end,
            };
        }
    }
    Piece {
        what: What::End,
        start: from,
        end: from,
    }
}

impl<'a> Reader<'a> {
    // The reader at the start of a text.
    pub fn new(text: &'a [u8]) -> Reader<'a>
        ensures { result ≡ opened text.entry }
    {
        Reader { text, at: 0 }
    }

    // The next token; the reader then stands behind it. At the end, and where no token starts, it stays there.
    pub fn next(&mut self) -> Piece
        ensures { (result ≡ read self.old) × (self.new ≡ behind self.old) }
    {
        let piece = piece_at(self.text, self.at);
        self.at = piece.end;
        piece
    }
}

// The token at an offset or behind it: a function with plain parameters, for every other caller.
pub fn token_at(text: &[u8], at: usize) -> Piece
    ensures { result ≡ piece_at text.now at }
{
    let mut reader = Reader { text, at };
    reader.next()
}

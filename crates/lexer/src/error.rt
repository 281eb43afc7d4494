// The refusals.
ghost use Rattle.std.specs.Prelude.{◌≡◌, [], ◌∷◌};

use std::error::Error;
use std::fmt;

// Why a call refuses, by the papers' numbers: rico's ParseErrorKind in its order, then the refusals that rico does not have.
// 5 and 7 are left out: rico raises them only with no token left, where the end rule gives 3 or 1.
#[derive(Clone, Copy, Debug, PartialEq, Eq)]
pub enum ErrorKind {
    UnrecognizedToken = 1,
    UnexpectedToken = 2,
    UnexpectedEOF = 3,
    UnsupportedType = 4,
    InvalidValueDeclaration = 6,
    InvalidFieldName = 8,
    InvalidFieldId = 9,
    MissingNamespaceIdentifier = 10,
    MissingNamespaceScope = 11,
    MissingIncludeIdentifier = 12,
    MissingConstIdentifier = 13,
    MissingTypedefIdentifier = 14,
    MissingEnumIdentifier = 15,
    MissingStructIdentifier = 16,
    MissingServiceIdentifier = 17,
    MissingServiceExtends = 18,
    InvalidEnumMemberName = 19,
    // Those that rico does not have.
    TextTooLong = 20,
    NotUtf8 = 21,
    NoToken = 22,
    TooDeep = 23,
    NodesFull = 24,
    CommentsFull = 25,
    IndentTooWide = 26,
    OutputFull = 27,
    // An enum member's number outside 32 bits.
    EnumNumberOutside = 28,
    // A stored table that can't be moved.
    NotMovable = 33,
}

// The papers' number.
impl From<ErrorKind> for u32 {
    ghost use Rattle.lexer.specs.Refusal.{number_of};

    ghost from_gives = { λ kind number. number ≡ number_of kind };

    fn from(kind: ErrorKind) -> u32 {
        kind as u32
    }
}

// A refusal: why, at which byte, and how many bytes long.
#[derive(Clone, Copy, Debug, PartialEq, Eq)]
pub struct Refusal {
    pub kind: ErrorKind,
    pub place: u32,
    pub length: u32,
}

impl Refusal {
    ghost use Rattle.lexer.specs.Refusal.{number_of};

    // A refusal without a length.
    pub fn at(kind: ErrorKind, place: u32) -> Refusal
        ensures { result ≡ record { kind = kind; place = place; length = 0 } }
    {
        Refusal {
            kind,
            place,
            length: 0,
        }
    }

    // The papers' number, the place and the length.
    pub fn numbers(self) -> [u32; 3]
        ensures { result ≡ number_of self.kind ∷ self.place ∷ self.length ∷ [] }
    {
        [u32::from(self.kind), self.place, self.length]
    }
}

// The papers' number, the place and the length, with a blank between two.
impl fmt::Display for Refusal {
    ghost use Rattle.std.specs.Prelude.{Some};
    ghost use Rattle.lexer.specs.Message.{refusal_text};

    ghost output = { λ refusal. Some (refusal_text refusal) };

    fn fmt<W: fmt::Write>(&self, f: &mut fmt::Formatter<W>) -> fmt::Result {
        let number = u32::from(self.kind);
        write!(f, "{number} {} {}", self.place, self.length)
    }
}

// What is wrong, and what to do where that is plain.
impl fmt::Display for ErrorKind {
    ghost use Rattle.std.specs.Prelude.{Some};
    ghost use Rattle.lexer.specs.Message.{message};

    ghost output = { λ kind. Some (message kind) };

    fn fmt<W: fmt::Write>(&self, f: &mut fmt::Formatter<W>) -> fmt::Result {
        f.write_str(match self {
            ErrorKind::UnrecognizedToken => {
                "only blanks are left behind this token, and more has to follow"
            }
            ErrorKind::UnexpectedToken => "this token can't stand here",
            ErrorKind::UnexpectedEOF => "the text ends with this token, and more has to follow",
            ErrorKind::UnsupportedType => "a type has to stand here",
            ErrorKind::InvalidValueDeclaration => {
                "a value has to stand here; an enum member's is an integer"
            }
            ErrorKind::InvalidFieldName => {
                "a field's name has to stand here; a field starts with its number, as in `1: i32 a`"
            }
            ErrorKind::InvalidFieldId => "a field's number goes from 0 to 18446744073709551615",
            ErrorKind::MissingNamespaceIdentifier => "the namespace's name has to stand here",
            ErrorKind::MissingNamespaceScope => {
                "the namespace's scope has to stand here, a name or `*`"
            }
            ErrorKind::MissingIncludeIdentifier => "a path in quotes has to stand here",
            ErrorKind::MissingConstIdentifier => "the constant's name has to stand here",
            ErrorKind::MissingTypedefIdentifier => "the typedef's name has to stand here",
            ErrorKind::MissingEnumIdentifier => "the enum's name has to stand here",
            ErrorKind::MissingStructIdentifier => {
                "the name of the struct, union or exception has to stand here"
            }
            ErrorKind::MissingServiceIdentifier => "the service's name has to stand here",
            ErrorKind::MissingServiceExtends => {
                "the name of the extended service has to stand here"
            }
            ErrorKind::InvalidEnumMemberName => {
                "an enum member's name has to stand here, and no keyword"
            }
            ErrorKind::TextTooLong => "the text has more than 65536 bytes; split it",
            ErrorKind::NotUtf8 => "this isn't UTF-8; save the text as UTF-8",
            ErrorKind::NoToken => {
                "no token starts here; perhaps a string or a comment isn't closed"
            }
            ErrorKind::TooDeep => "32 containers stand around this one; no more can",
            ErrorKind::NodesFull => "the text has more nodes than this program holds; split it",
            ErrorKind::CommentsFull => {
                "the text has more comments than this program holds; split it"
            }
            ErrorKind::IndentTooWide => "the indent is over 8; give 0 to 8",
            ErrorKind::OutputFull => "the print is longer than this program holds; split the text",
            ErrorKind::EnumNumberOutside => {
                "the enum member's number doesn't fit 32 bits; give it a smaller one"
            }
            ErrorKind::NotMovable => "these tables can't be moved; read the text again",
        })
    }
}

impl Error for ErrorKind {}

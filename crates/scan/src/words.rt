// Keywords, told by the number that a word's bytes lead to. Neither function is lent the text.
ghost use Rattle.std.specs.Prelude.{◌≡◌, ◌<◌};
ghost use Rattle.token.specs.WordNumber.{step_by, kind_of};

use crate::table::TRIE;
use token::Token;

// The number at the start of a word, and the one where no keyword begins with the bytes so far.
// The second is a state of the table like any other, so no `None` stands for it.
pub const START: u8 = 1;

pub const NO_KEYWORD: u8 = 0;

// The number behind a byte of the class k.
pub fn step(number: u8, k: u8) -> u8
    requires { k < 36 }
    ensures { result ≡ step_by number k }
{
    let next = TRIE[number as usize] as usize + k as usize;
    if TRIE[256 + next] == number {
        next as u8
    } else {
        NO_KEYWORD
    }
}

// The kind of the word with this number: the numbers are the table's own, each used here alone.
#[inline(always)]
pub fn kind_of(number: u8) -> Token
    ensures { result ≡ kind_of number }
{
    match number {
        146 => Token::Namespace,
        150 => Token::CppInclude,
        134 => Token::Include,
        135 => Token::Typedef,
        101 => Token::Const,
        82 => Token::Enum,
        124 => Token::Struct,
        110 => Token::Union,
        148 => Token::Exception,
        138 => Token::Service,
        137 => Token::Extends,
        121 => Token::Throws,
        144 => Token::Required,
        145 => Token::Optional,
        91 => Token::Void,
        92 => Token::Bool,
        93 => Token::Byte,
        37 => Token::I8,
        5 => Token::I16,
        2 => Token::I32,
        4 => Token::I64,
        131 => Token::Double,
        125 => Token::String,
        130 => Token::Binary,
        71 => Token::Map,
        97 => Token::List,
        63 => Token::Set,
        81 => Token::BooleanLiteral,
        116 => Token::BooleanLiteral,
        129 => Token::Oneway,
        _ => Token::Identifier,
    }
}

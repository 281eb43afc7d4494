// Types: rico's parser/types.rs.
ghost use Rattle.std.specs.Prelude.{◌≡◌};
ghost use Rattle.token.specs.Code.{code};
ghost use Rattle.ast.specs.KindNumber.{number_of, number_or_none};
ghost use Rattle.steps.specs.Reads.{Reads};
ghost use Rattle.parse_values.specs.Into.{leaf_type, container_type, contained_in, angles_in, complex_in, type_in};

use ast::kind::Kind;
use lexer::error::ErrorKind;
use steps::state::{Parsed, Parser};
use token::Token;

// The record of a type that is one token, a keyword or a name.
fn leaf_type(token: Token) -> Option<Kind>
    ensures { number_or_none result ≡ leaf_type (code token) }
{
    match token {
        Token::Bool
        | Token::Byte
        | Token::I8
        | Token::I16
        | Token::I32
        | Token::I64
        | Token::Double
        | Token::String
        | Token::Binary => Some(Kind::KeywordType),
        Token::Identifier => Some(Kind::NamedType),
        _ => None,
    }
}

// The record of a container.
fn container_type(token: Token) -> Option<Kind>
    ensures { number_or_none result ≡ container_type (code token) }
{
    match token {
        Token::Map => Some(Kind::Map),
        Token::List => Some(Kind::List),
        Token::Set => Some(Kind::Set),
        _ => None,
    }
}

// parse_field_type with `depth` containers left: the next one inside is 23 at its keyword.
// Type ::= keyword | name | ('list' | 'set') '<' Type '>' | 'map' '<' Type ',' Type '>'
#[cycle(types)]
pub fn parse_type(p: &mut Parser, depth: u32, parent: u32) -> Parsed
    ensures { Reads (λ x. type_in x.text depth x.base parent) p.old p.new result }
{
    let Some(token) = p.state.token else {
        return Err(p.error(ErrorKind::UnexpectedEOF));
    };
    if let Some(kind) = leaf_type(token) {
        p.advance();
        p.put_leaf(kind, parent);
        return Ok(());
    }
    let Some(kind) = container_type(token) else {
        return Err(p.error(ErrorKind::UnsupportedType));
    };
    if depth == 0 {
        return Err(p.error(ErrorKind::TooDeep));
    }
    p.advance();
    parse_complex_type(p, kind, depth - 1, parent)
}

// parse_complex_type, parse_map_type: behind the container's keyword.
#[cycle(types)]
fn parse_complex_type(p: &mut Parser, kind: Kind, depth: u32, parent: u32) -> Parsed
    ensures { Reads (λ x. complex_in x.text (number_of kind) (λ q. type_in x.text depth x.base q) x.base parent) p.old p.new result }
{
    let start = p.state.last.start;
    p.enclose(
        start,
        kind,
        parent,
        |p: &mut Parser, node: u32| -> Parsed
            ensures { Reads (λ x. angles_in x.text (number_of kind) (type_in x.text depth x.base node)) p.entry.now p.exit.now result }
        { parse_angles(p, kind, depth, node) },
    )
}

// The contained type in angle brackets.
#[cycle(types)]
fn parse_angles(p: &mut Parser, kind: Kind, depth: u32, parent: u32) -> Parsed
    ensures { Reads (λ x. angles_in x.text (number_of kind) (type_in x.text depth x.base parent)) p.old p.new result }
{
    p.expect(Token::LeftAngle, ErrorKind::UnexpectedToken)?;
    parse_contained(p, kind, depth, parent)?;
    p.expect(Token::RightAngle, ErrorKind::UnexpectedToken)
}

// The contained type; of a map both, with the comma between.
#[cycle(types)]
fn parse_contained(p: &mut Parser, kind: Kind, depth: u32, parent: u32) -> Parsed
    ensures { Reads (λ x. contained_in x.text (number_of kind) (type_in x.text depth x.base parent)) p.old p.new result }
{
    match kind {
        Kind::Map => {
            parse_type(p, depth, parent)?;
            p.expect(Token::Comma, ErrorKind::UnexpectedToken)?;
            parse_type(p, depth, parent)
        }
        _ => parse_type(p, depth, parent),
    }
}

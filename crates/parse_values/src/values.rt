// Constant values: rico's parser/values.rs.
ghost use Rattle.std.specs.Prelude.{◌≡◌};
ghost use Rattle.token.specs.Code.{code};
ghost use Rattle.ast.specs.KindNumber.{number_or_none};
ghost use Rattle.steps.specs.Reads.{Reads, Does};
ghost use Rattle.parse_values.specs.Into.{leaf_value, is_opener, elements_in, list_in, pair_in, property_in, properties_in, map_in, skip_both_in, value_in};

use ast::kind::Kind;
use lexer::error::ErrorKind;
use steps::state::{Parsed, Parser};
use token::Token;

// The record of a value that is one token.
fn leaf_value(token: Token) -> Option<Kind>
    ensures { number_or_none result ≡ leaf_value (code token) }
{
    match token {
        Token::Identifier => Some(Kind::NameValue),
        Token::StringLiteral => Some(Kind::String),
        Token::DoubleLiteral => Some(Kind::Double),
        Token::HexLiteral => Some(Kind::Hex),
        Token::IntegerLiteral => Some(Kind::Integer),
        Token::BooleanLiteral => Some(Kind::Boolean),
        _ => None,
    }
}

// A bracket or brace that opens a value.
fn is_opener(token: Token) -> bool
    ensures { result ≡ is_opener (code token) }
{
    match token {
        Token::LeftBracket | Token::LeftBrace => true,
        _ => false,
    }
}

// parse_field_value with `depth` containers left: the next one inside is 23 at its bracket.
// Value ::= string | integer | double | boolean | hex | name | List | Map
#[cycle(values)]
pub fn parse_value(p: &mut Parser, depth: u32, parent: u32) -> Parsed
    ensures { Reads (λ x. value_in x.text depth x.base parent) p.old p.new result }
{
    let Some(token) = p.state.token else {
        return Err(p.error(ErrorKind::UnexpectedEOF));
    };
    if let Some(kind) = leaf_value(token) {
        p.advance();
        p.put_leaf(kind, parent);
        return Ok(());
    }
    if !is_opener(token) {
        return Err(p.error(ErrorKind::InvalidValueDeclaration));
    }
    if depth == 0 {
        return Err(p.error(ErrorKind::TooDeep));
    }
    p.advance();
    match token {
        Token::LeftBracket => parse_list_value(p, depth - 1, parent),
        _ => parse_map_value(p, depth - 1, parent),
    }
}

// parse_list_value: behind the bracket. Lists and maps have a reader each, which calls `parse_value` back (document 01).
#[cycle(values)]
fn parse_list_value(p: &mut Parser, depth: u32, parent: u32) -> Parsed
    ensures { Reads (λ x. list_in x.text (λ q. value_in x.text depth x.base q) x.base parent) p.old p.new result }
{
    let start = p.state.last.start;
    p.enclose(
        start,
        Kind::ListValue,
        parent,
        |p: &mut Parser, node: u32| -> Parsed
            ensures { Reads (λ x. elements_in x.text (value_in x.text depth x.base node)) p.entry.now p.exit.now result }
        { parse_elements(p, depth, node) },
    )
}

// parse_map_value: behind the brace; apart from parse_list_value for the same reason.
#[cycle(values)]
fn parse_map_value(p: &mut Parser, depth: u32, parent: u32) -> Parsed
    ensures { Reads (λ x. map_in x.text (λ q. value_in x.text depth x.base q) x.base parent) p.old p.new result }
{
    let start = p.state.last.start;
    p.enclose(
        start,
        Kind::MapValue,
        parent,
        |p: &mut Parser, node: u32| -> Parsed
            ensures { Reads (λ x. properties_in x.text (property_in x.text (λ q. value_in x.text depth x.base q) x.base node)) p.entry.now p.exit.now result }
        { parse_properties(p, depth, node) },
    )
}

// Separators and comments before an element or a property.
fn skip_both(p: &mut Parser)
    ensures { Does (λ x. skip_both_in x.text) p.old p.new }
{
    p.skip_separators();
    p.skip_comments_discard();
}

// The elements up to the closing bracket, and that; apart from the properties as the list's reader is from the map's.
// List ::= '[' (Separator* Comment* Value)* Separator* Comment* ']'
#[cycle(values)]
fn parse_elements(p: &mut Parser, depth: u32, parent: u32) -> Parsed
    ensures { Reads (λ x. elements_in x.text (value_in x.text depth x.base parent)) p.old p.new result }
{
    p.parse_members(
        Token::RightBracket,
        skip_both,
        |p: &mut Parser| -> Parsed
            ensures { Reads (λ x. value_in x.text depth x.base parent) p.entry.now p.exit.now result }
        { parse_value(p, depth, parent) },
    )
}

// The properties up to the closing brace, and that.
// Map ::= '{' (Separator* Comment* Property)* Separator* Comment* '}'
#[cycle(values)]
fn parse_properties(p: &mut Parser, depth: u32, parent: u32) -> Parsed
    ensures { Reads (λ x. properties_in x.text (property_in x.text (λ q. value_in x.text depth x.base q) x.base parent)) p.old p.new result }
{
    p.parse_members(
        Token::RightBrace,
        skip_both,
        |p: &mut Parser| -> Parsed
            ensures { Reads (λ x. property_in x.text (λ q. value_in x.text depth x.base q) x.base parent) p.entry.now p.exit.now result }
        { parse_property(p, depth, parent) },
    )
}

// A property: two values with a colon between.
// Property ::= Value ':' Value
#[cycle(values)]
fn parse_property(p: &mut Parser, depth: u32, parent: u32) -> Parsed
    ensures { Reads (λ x. property_in x.text (λ q. value_in x.text depth x.base q) x.base parent) p.old p.new result }
{
    let start = p.state.start();
    p.enclose(
        start,
        Kind::Property,
        parent,
        |p: &mut Parser, node: u32| -> Parsed
            ensures { Reads (λ x. pair_in x.text (value_in x.text depth x.base node)) p.entry.now p.exit.now result }
        { parse_pair(p, depth, node) },
    )
}

#[cycle(values)]
fn parse_pair(p: &mut Parser, depth: u32, parent: u32) -> Parsed
    ensures { Reads (λ x. pair_in x.text (value_in x.text depth x.base parent)) p.old p.new result }
{
    parse_value(p, depth, parent)?;
    p.expect(Token::Colon, ErrorKind::UnexpectedToken)?;
    parse_value(p, depth, parent)
}

// Enum members.
ghost use Rattle.steps.specs.Reads.{Reads};
ghost use Rattle.parse_members.specs.Into.{initializer_in, member_in, enum_members_in};

use ast::kind::Kind;
use lexer::error::ErrorKind;
use parse_fields::{Leaf, annotations, fields};
use steps::state::{Node, Parsed, Parser};
use token::Token;

// The two numbers that a member may have.
const HEX: Leaf = Leaf {
    token: Token::HexLiteral,
    error: ErrorKind::InvalidValueDeclaration,
    kind: Kind::Hex,
};

const INTEGER: Leaf = Leaf {
    token: Token::IntegerLiteral,
    error: ErrorKind::InvalidValueDeclaration,
    kind: Kind::Integer,
};

// The number of a member, if it is written.
// Initializer ::= '=' (hex | integer)
fn parse_initializer(p: &mut Parser, parent: u32) -> Parsed
    ensures { Reads (λ x. initializer_in x.text x.base parent) p.old p.new result }
{
    if !p.accept(Token::Equals) {
        return Ok(());
    }
    if p.is(Token::HexLiteral) {
        return parse_fields::parse_leaf(p, HEX, parent);
    }
    parse_fields::parse_leaf(p, INTEGER, parent)
}

// parse_enum_member
// EnumMember ::= name Initializer? Annotations?
fn parse_enum_member(p: &mut Parser, parent: u32) -> Parsed
    ensures { Reads (λ x. member_in x.text x.base parent) p.old p.new result }
{
    let number = p.state.next;
    p.begin_node();
    parse_fields::parse_name(p, ErrorKind::InvalidEnumMemberName, number)?;
    let member = Node {
        number,
        start: p.state.last.start,
    };
    parse_initializer(p, number)?;
    annotations::parse_annotations(p, number)?;
    p.put_node(member, Kind::EnumMember, 0, parent);
    Ok(())
}

// The members of an enum, in braces. A function of its own, as the next production has one: what they share is `parse_between`, and a closure apart says no more.
pub fn parse_enum_members(p: &mut Parser, parent: u32) -> Parsed
    ensures { Reads (λ x. enum_members_in x.text x.base parent) p.old p.new result }
{
    fields::parse_between(
        p,
        Token::LeftBrace,
        Token::RightBrace,
        |p: &mut Parser| -> Parsed
            ensures { Reads (λ x. member_in x.text x.base parent) p.entry.now p.exit.now result }
        { parse_enum_member(p, parent) },
    )
}

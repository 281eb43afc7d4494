// Fields.
ghost use Rattle.std.specs.Prelude.{◌≡◌};
ghost use Rattle.token.specs.Code.{code};
ghost use Rattle.steps.specs.Into.{Falls, M, code_of};
ghost use Rattle.steps.specs.Reads.{Source, Does, Reads, Shortens};
ghost use Rattle.parse_fields.specs.Into.{field_id_in, required_of, skip_required_in, is_field_name, field_name_in, default_in, field_head_in, field_tail_in, field_in, skip_member_in, members_in, fields_in};

use crate::annotations;
use ast::flag;
use ast::kind::Kind;
use lexer::error::ErrorKind;
use parse_values::{types, values};
use parser::NESTING;
use steps::state::{Node, Parsed, Parser};
use steps::{id, table};
use token::Token;

// parse_field_id; without an id no token is taken.
// FieldId ::= (integer ':')?
fn parse_field_id(p: &mut Parser, parent: u32) -> Parsed
    ensures { Reads (λ x. field_id_in x.text x.base parent) p.old p.new result }
{
    if !p.is(Token::IntegerLiteral) {
        return Ok(());
    }
    if !id::is_id_at(p.text, p.state.loc) {
        return Err(p.error(ErrorKind::InvalidFieldId));
    }
    p.advance();
    p.put_leaf(Kind::FieldId, parent);
    p.expect(Token::Colon, ErrorKind::UnexpectedToken)
}

// The flag of a requiredness; else 0.
fn required_flag(p: &Parser) -> u32
    ensures { result ≡ required_of (code_of p.now.state) }
{
    let Some(token) = p.state.token else {
        return 0;
    };
    match token {
        Token::Required => flag::REQUIRED,
        Token::Optional => flag::OPTIONAL,
        _ => 0,
    }
}

// Past a requiredness, if it is there.
// Required ::= 'required' | 'optional'
fn skip_required(p: &mut Parser)
    ensures { Does (λ x. skip_required_in x.text) p.old p.new }
{
    if required_flag(p) != 0 {
        p.advance();
    }
}

// parse_field_name: the tokens that may name a field.
fn is_field_name(token: Token) -> bool
    ensures { result ≡ is_field_name (code token) }
{
    match token {
        Token::Namespace
        | Token::Include
        | Token::Enum
        | Token::Struct
        | Token::Service
        | Token::Extends
        | Token::Throws
        | Token::Required
        | Token::Optional
        | Token::Bool
        | Token::Byte
        | Token::I8
        | Token::I16
        | Token::I32
        | Token::I64
        | Token::Double
        | Token::String
        | Token::Binary
        | Token::Map
        | Token::List
        | Token::Set
        | Token::Identifier
        | Token::Oneway => true,
        _ => false,
    }
}

fn parse_field_name(p: &mut Parser, parent: u32) -> Parsed
    ensures { Reads (λ x. field_name_in x.text x.base parent) p.old p.new result }
{
    match p.state.token {
        Some(token) if is_field_name(token) => {
            p.advance();
            p.put_leaf(Kind::Name, parent);
            Ok(())
        }
        _ => Err(p.error(ErrorKind::InvalidFieldName)),
    }
}

// The default value, if there is one.
// Default ::= '=' Value
fn parse_default(p: &mut Parser, parent: u32) -> Parsed
    ensures { Reads (λ x. default_in x.text x.base parent) p.old p.new result }
{
    if !p.accept(Token::Equals) {
        return Ok(());
    }
    values::parse_value(p, NESTING, parent)
}

// The type and the name of a field, behind its id.
fn parse_field_head(p: &mut Parser, parent: u32) -> Parsed
    ensures { Reads (λ x. field_head_in x.text x.base parent) p.old p.new result }
{
    skip_required(p);
    types::parse_type(p, NESTING, parent)?;
    parse_field_name(p, parent)
}

// The default value and the annotations of a field.
fn parse_field_tail(p: &mut Parser, parent: u32) -> Parsed
    ensures { Reads (λ x. field_tail_in x.text x.base parent) p.old p.new result }
{
    parse_default(p, parent)?;
    annotations::parse_annotations(p, parent)
}

// parse_field; `flag` is THROWN for a thrown field, else 0.
// Field ::= FieldId Required? Type FieldName Default? Annotations?
fn parse_field(p: &mut Parser, flag: u32, parent: u32) -> Parsed
    ensures { Reads (λ x. field_in x.text flag x.base parent) p.old p.new result }
{
    let field = Node {
        number: p.state.next,
        start: p.state.start(),
    };
    p.begin_node();
    parse_field_id(p, field.number)?;
    let flags = table::sum(required_flag(p), flag);
    parse_field_head(p, field.number)?;
    parse_field_tail(p, field.number)?;
    p.put_node(field, Kind::Field, flags, parent);
    Ok(())
}

// Separators and comments before a member; the comments wait.
pub fn skip_member(p: &mut Parser)
    ensures { Does (λ x. skip_member_in x.text) p.old p.new }
{
    p.skip_separators();
    p.skip_comments();
}

// Members from one bracket to another.
// Members ::= open (Separator* Comment* Member)* Separator* Comment* close
pub fn parse_between<F: Fn(&mut Parser) -> Parsed>(
    p: &mut Parser,
    opener: Token,
    closer: Token,
    member: F,
) -> Parsed
    requires callable { F.IsAlwaysCallable member }
    requires falls { (s : _) (r : _) (t : _) → F.post member s r t → Shortens s.now t.now r }
    ensures { (m : Source → M) → ((x : Source) → Falls x.text (m x)) → ((s : _) (r : _) (t : _) → F.post member s r t → Reads m s.now t.now r) → Reads (λ x. members_in x.text (code opener) (code closer) (m x)) p.old p.new result }
{
    p.expect(opener, ErrorKind::UnexpectedToken)?;
    p.parse_members(closer, skip_member, member)
}

// A list of fields: its brackets, and the flag of each field.
#[derive(Clone, Copy, Debug, PartialEq, Eq)]
pub struct FieldList {
    pub opener: Token,
    pub closer: Token,
    pub flag: u32,
}

// The fields of a structure; the parameters of a function; what it throws.
pub const MEMBERS: FieldList = FieldList {
    opener: Token::LeftBrace,
    closer: Token::RightBrace,
    flag: 0,
};

pub const PARAMETERS: FieldList = FieldList {
    opener: Token::LeftParen,
    closer: Token::RightParen,
    flag: 0,
};

pub const THROWN: FieldList = FieldList {
    opener: Token::LeftParen,
    closer: Token::RightParen,
    flag: flag::THROWN,
};

// parse_members and parse_parameters over fields.
pub fn parse_fields(p: &mut Parser, list: FieldList, parent: u32) -> Parsed
    ensures { Reads (λ x. fields_in x.text (code list.opener) (code list.closer) list.flag x.base parent) p.old p.new result }
{
    let flag = list.flag;
    parse_between(
        p,
        list.opener,
        list.closer,
        |p: &mut Parser| -> Parsed
            ensures { Reads (λ x. field_in x.text flag x.base parent) p.entry.now p.exit.now result }
        { parse_field(p, flag, parent) },
    )
}

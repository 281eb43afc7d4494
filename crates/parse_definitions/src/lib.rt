// Definitions, the keyword ahead (rico's parser/definitions.rs).
#![tactic(auto)]

ghost use Rattle.std.specs.Prelude.{ℕ};
ghost use Rattle.ast.specs.KindNumber.{number_of};
ghost use Rattle.lexer.specs.Error.{MissingTypedefIdentifier};
ghost use Rattle.lexer.specs.Refusal.{number_of as error_number};
ghost use Rattle.steps.specs.Into.{M};
ghost use Rattle.steps.specs.Reads.{Source, Reads};
ghost use Rattle.parse_definitions.specs.Into.{define_in, included_in, include_in, scope_in, scoped_name_in, namespace_in, typed_name_in, constant_in, const_in, typedef_in, enum_body_in, enum_in, structure_body_in, structure_in, extends_in, service_head_in, service_body_in, service_in, definition_in};

use ast::kind::Kind;
use lexer::error::ErrorKind;
use parse_fields::{Leaf, annotations, fields};
use parse_members::{enums, functions};
use parse_values::{types, values};
use parser::NESTING;
use steps::state::{Node, Parsed, Parser};
use token::Token;

// The file that is included; the scope `*`.
const INCLUDED: Leaf = Leaf {
    token: Token::StringLiteral,
    error: ErrorKind::MissingIncludeIdentifier,
    kind: Kind::Name,
};

const EVERY_SCOPE: Leaf = Leaf {
    token: Token::Star,
    error: ErrorKind::MissingNamespaceScope,
    kind: Kind::Name,
};

// A definition from its keyword on, the comments that wait its own; behind the keyword `inside` reads what stands below the node with the number that it is given.
fn define<F: Fn(&mut Parser, u32) -> Parsed>(p: &mut Parser, kind: Kind, inside: F) -> Parsed
    requires { F.IsAlwaysCallable inside }
    ensures { (m : ℕ → Source → M) → ((s : _) (n : ℕ) (r : _) (t : _) → F.post inside s n r t → Reads (m n) s.now t.now r) → Reads (λ x. define_in x.text x.base (number_of kind) (λ n. m n x)) p.old p.new result }
{
    let node = Node {
        number: p.state.next,
        start: p.state.loc.start,
    };
    p.begin_node();
    p.advance();
    inside(p, node.number)?;
    p.put_node(node, kind, 0, ast::NO_PARENT);
    Ok(())
}

fn parse_included(p: &mut Parser, parent: u32) -> Parsed
    ensures { Reads (λ x. included_in x.text x.base parent) p.old p.new result }
{
    parse_fields::parse_leaf(p, INCLUDED, parent)
}

// parse_include, parse_cpp_include
// Include ::= ('include' | 'cpp_include') string
fn parse_include(p: &mut Parser, kind: Kind) -> Parsed
    ensures { Reads (λ x. include_in x.text x.base (number_of kind)) p.old p.new result }
{
    define(p, kind, parse_included)
}

// The scope of a namespace: a name or `*`.
fn parse_scope(p: &mut Parser, parent: u32) -> Parsed
    ensures { Reads (λ x. scope_in x.text x.base parent) p.old p.new result }
{
    if p.is(Token::Star) {
        return parse_fields::parse_leaf(p, EVERY_SCOPE, parent);
    }
    parse_fields::parse_name(p, ErrorKind::MissingNamespaceScope, parent)
}

fn parse_scoped_name(p: &mut Parser, parent: u32) -> Parsed
    ensures { Reads (λ x. scoped_name_in x.text x.base parent) p.old p.new result }
{
    parse_scope(p, parent)?;
    parse_fields::parse_name(p, ErrorKind::MissingNamespaceIdentifier, parent)
}

// parse_namespace
// Namespace ::= 'namespace' (name | '*') name
fn parse_namespace(p: &mut Parser) -> Parsed
    ensures { Reads (λ x. namespace_in x.text x.base) p.old p.new result }
{
    define(p, Kind::Namespace, parse_scoped_name)
}

// A type and a name.
fn parse_typed_name(p: &mut Parser, error: ErrorKind, parent: u32) -> Parsed
    ensures { Reads (λ x. typed_name_in x.text (error_number error) x.base parent) p.old p.new result }
{
    types::parse_type(p, NESTING, parent)?;
    parse_fields::parse_name(p, error, parent)
}

fn parse_constant(p: &mut Parser, parent: u32) -> Parsed
    ensures { Reads (λ x. constant_in x.text x.base parent) p.old p.new result }
{
    parse_typed_name(p, ErrorKind::MissingConstIdentifier, parent)?;
    p.expect(Token::Equals, ErrorKind::UnexpectedToken)?;
    values::parse_value(p, NESTING, parent)
}

// parse_const: separators and comments behind the value are taken, and lie outside its range.
// Const ::= 'const' Type name '=' Value (Separator | Comment)*
fn parse_const(p: &mut Parser) -> Parsed
    ensures { Reads (λ x. const_in x.text x.base) p.old p.new result }
{
    define(p, Kind::Const, parse_constant)?;
    p.skip_trivia();
    Ok(())
}

fn parse_alias(p: &mut Parser, parent: u32) -> Parsed
    ensures { Reads (λ x. typed_name_in x.text MissingTypedefIdentifier x.base parent) p.old p.new result }
{
    parse_typed_name(p, ErrorKind::MissingTypedefIdentifier, parent)
}

// parse_typedef
// Typedef ::= 'typedef' Type name
fn parse_typedef(p: &mut Parser) -> Parsed
    ensures { Reads (λ x. typedef_in x.text x.base) p.old p.new result }
{
    define(p, Kind::Typedef, parse_alias)
}

// The bodies of enums, structures and services: a name, members, annotations. Each is its production in rico's order; one for all would take the name's error and the members' reader, and say no more.
fn parse_enum_body(p: &mut Parser, parent: u32) -> Parsed
    ensures { Reads (λ x. enum_body_in x.text x.base parent) p.old p.new result }
{
    parse_fields::parse_name(p, ErrorKind::MissingEnumIdentifier, parent)?;
    enums::parse_enum_members(p, parent)?;
    annotations::parse_annotations(p, parent)
}

// parse_enum
// Enum ::= 'enum' name '{' EnumMember* '}' Annotations?
fn parse_enum(p: &mut Parser) -> Parsed
    ensures { Reads (λ x. enum_in x.text x.base) p.old p.new result }
{
    define(p, Kind::Enum, parse_enum_body)
}

fn parse_structure_body(p: &mut Parser, parent: u32) -> Parsed
    ensures { Reads (λ x. structure_body_in x.text x.base parent) p.old p.new result }
{
    parse_fields::parse_name(p, ErrorKind::MissingStructIdentifier, parent)?;
    fields::parse_fields(p, fields::MEMBERS, parent)?;
    annotations::parse_annotations(p, parent)
}

// parse_struct, parse_union, parse_exception
// Structure ::= ('struct' | 'union' | 'exception') name '{' Field* '}' Annotations?
fn parse_structure(p: &mut Parser, kind: Kind) -> Parsed
    ensures { Reads (λ x. structure_in x.text x.base (number_of kind)) p.old p.new result }
{
    define(p, kind, parse_structure_body)
}

// The service that another extends, if it names one.
// Extends ::= 'extends' name
fn parse_extends(p: &mut Parser, parent: u32) -> Parsed
    ensures { Reads (λ x. extends_in x.text x.base parent) p.old p.new result }
{
    if !p.accept(Token::Extends) {
        return Ok(());
    }
    parse_fields::parse_name(p, ErrorKind::MissingServiceExtends, parent)
}

// The name of a service, and what it extends.
fn parse_service_head(p: &mut Parser, parent: u32) -> Parsed
    ensures { Reads (λ x. service_head_in x.text x.base parent) p.old p.new result }
{
    parse_fields::parse_name(p, ErrorKind::MissingServiceIdentifier, parent)?;
    parse_extends(p, parent)
}

fn parse_service_body(p: &mut Parser, parent: u32) -> Parsed
    ensures { Reads (λ x. service_body_in x.text x.base parent) p.old p.new result }
{
    parse_service_head(p, parent)?;
    functions::parse_functions(p, parent)?;
    annotations::parse_annotations(p, parent)
}

// parse_service
// Service ::= 'service' name Extends? '{' Function* '}' Annotations?
fn parse_service(p: &mut Parser) -> Parsed
    ensures { Reads (λ x. service_in x.text x.base) p.old p.new result }
{
    define(p, Kind::Service, parse_service_body)
}

// The definition whose keyword is ahead.
// Definition ::= Include | Namespace | Const | Typedef | Enum | Structure | Service
pub fn parse_definition(p: &mut Parser) -> Parsed
    ensures { Reads (λ x. definition_in x.text x.base) p.old p.new result }
{
    let Some(token) = p.state.token else {
        return Err(p.error(ErrorKind::UnexpectedToken));
    };
    match token {
        Token::Namespace => parse_namespace(p),
        Token::CppInclude => parse_include(p, Kind::CppInclude),
        Token::Include => parse_include(p, Kind::Include),
        Token::Typedef => parse_typedef(p),
        Token::Const => parse_const(p),
        Token::Enum => parse_enum(p),
        Token::Struct => parse_structure(p, Kind::Struct),
        Token::Union => parse_structure(p, Kind::Union),
        Token::Exception => parse_structure(p, Kind::Exception),
        Token::Service => parse_service(p),
        _ => Err(p.error(ErrorKind::UnexpectedToken)),
    }
}

// Functions.
ghost use Rattle.std.specs.Prelude.{◌≡◌};
ghost use Rattle.token.specs.Code.{code};
ghost use Rattle.steps.specs.Into.{code_of};
ghost use Rattle.steps.specs.Reads.{Does, Reads};
ghost use Rattle.parse_members.specs.Into.{throws_in, return_type_in, flag_if, function_head_in, function_tail_in, function_in, functions_in};

use ast::flag;
use ast::kind::Kind;
use lexer::error::ErrorKind;
use parse_fields::{annotations, fields};
use parse_values::types;
use parser::NESTING;
use steps::state::{Node, Parsed, Parser};
use steps::table;
use token::Token;

// The thrown fields, if `throws` is written.
// Throws ::= 'throws' '(' Field* ')'
fn parse_throws(p: &mut Parser, parent: u32) -> Parsed
    ensures { Reads (λ x. throws_in x.text x.base parent) p.old p.new result }
{
    if !p.accept(Token::Throws) {
        return Ok(());
    }
    fields::parse_fields(p, fields::THROWN, parent)
}

// `void`, or a type.
// ReturnType ::= 'void' | Type
fn parse_return_type(p: &mut Parser, parent: u32) -> Parsed
    ensures { Reads (λ x. return_type_in x.text x.base parent) p.old p.new result }
{
    if !p.accept(Token::Void) {
        return types::parse_type(p, NESTING, parent);
    }
    p.put_leaf(Kind::KeywordType, parent);
    Ok(())
}

// The flag of a kind, if the token ahead is of it.
fn flag_if(p: &Parser, token: Token, flag: u32) -> u32
    ensures { result ≡ flag_if (code_of p.now.state) (code token) flag }
{
    if p.is(token) { flag } else { 0 }
}

// The return type and the name of a function.
fn parse_function_head(p: &mut Parser, parent: u32) -> Parsed
    ensures { Reads (λ x. function_head_in x.text x.base parent) p.old p.new result }
{
    p.accept(Token::Oneway);
    parse_return_type(p, parent)?;
    parse_fields::parse_name(p, ErrorKind::UnexpectedToken, parent)
}

// What stands behind the parameters: thrown fields; separators and comments; annotations.
fn parse_function_tail(p: &mut Parser, parent: u32) -> Parsed
    ensures { Reads (λ x. function_tail_in x.text x.base parent) p.old p.new result }
{
    parse_throws(p, parent)?;
    p.skip_trivia();
    annotations::parse_annotations(p, parent)
}

// parse_function: its range starts at its name.
// Function ::= 'oneway'? ReturnType name '(' Field* ')' Throws? (Separator | Comment)* Annotations?
fn parse_function(p: &mut Parser, parent: u32) -> Parsed
    ensures { Reads (λ x. function_in x.text x.base parent) p.old p.new result }
{
    let number = p.state.next;
    let oneway = flag_if(p, Token::Oneway, flag::ONEWAY);
    p.begin_node();
    parse_function_head(p, number)?;
    let function = Node {
        number,
        start: p.state.last.start,
    };
    fields::parse_fields(p, fields::PARAMETERS, number)?;
    let throws = flag_if(p, Token::Throws, flag::THROWS);
    parse_function_tail(p, number)?;
    p.put_node(function, Kind::Function, table::sum(oneway, throws), parent);
    Ok(())
}

// The functions of a service, in braces: another member reader in `parse_between`, as for an enum's members.
pub fn parse_functions(p: &mut Parser, parent: u32) -> Parsed
    ensures { Reads (λ x. functions_in x.text x.base parent) p.old p.new result }
{
    fields::parse_between(
        p,
        Token::LeftBrace,
        Token::RightBrace,
        |p: &mut Parser| -> Parsed
            ensures { Reads (λ x. function_in x.text x.base parent) p.entry.now p.exit.now result }
        { parse_function(p, parent) },
    )
}

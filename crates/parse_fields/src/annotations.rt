// Annotations.
ghost use Rattle.std.specs.Prelude.{false};
ghost use Rattle.steps.specs.Into.{skip_in};
ghost use Rattle.steps.specs.Reads.{Does, Reads};
ghost use Rattle.parse_fields.specs.Into.{assignment_in, annotation_in, annotation_list_in, bracketed_in, annotations_in};

use crate::Leaf;
use ast::kind::Kind;
use lexer::error::ErrorKind;
use steps::state::{Parsed, Parser};
use token::Token;

// What an annotation says.
const VALUE: Leaf = Leaf {
    token: Token::StringLiteral,
    error: ErrorKind::UnexpectedToken,
    kind: Kind::String,
};

// A name, `=`, a string.
fn parse_assignment(p: &mut Parser, parent: u32) -> Parsed
    ensures { Reads (λ x. assignment_in x.text x.base parent) p.old p.new result }
{
    crate::parse_name(p, ErrorKind::UnexpectedToken, parent)?;
    p.expect(Token::Equals, ErrorKind::UnexpectedToken)?;
    crate::parse_leaf(p, VALUE, parent)
}

// That, and at most one separator.
// Annotation ::= name '=' string Separator?
fn parse_annotation(p: &mut Parser, parent: u32) -> Parsed
    ensures { Reads (λ x. annotation_in x.text x.base parent) p.old p.new result }
{
    let start = p.state.loc.start;
    p.enclose(start, Kind::Annotation, parent, parse_assignment)?;
    if p.is_separator() {
        p.advance();
    }
    Ok(())
}

// Annotations up to the closing bracket, and that; comments among them are dropped.
// Annotations ::= '(' (Comment* Annotation)* Comment* ')'
fn parse_annotation_list(p: &mut Parser, parent: u32) -> Parsed
    ensures { Reads (λ x. annotation_list_in x.text x.base parent) p.old p.new result }
{
    p.parse_members(
        Token::RightParen,
        |p: &mut Parser|
            ensures { Does (λ x. skip_in x.text false) p.entry.now p.exit.now }
        { p.skip_comments_discard() },
        |p: &mut Parser| -> Parsed
            ensures { Reads (λ x. annotation_in x.text x.base parent) p.entry.now p.exit.now result }
        { parse_annotation(p, parent) },
    )
}

// The bracket, which is ahead, and what follows it.
fn parse_bracketed(p: &mut Parser, parent: u32) -> Parsed
    ensures { Reads (λ x. bracketed_in x.text x.base parent) p.old p.new result }
{
    p.advance();
    parse_annotation_list(p, parent)
}

// parse_annotations, if there are any. They start at the token before the bracket.
pub fn parse_annotations(p: &mut Parser, parent: u32) -> Parsed
    ensures { Reads (λ x. annotations_in x.text x.base parent) p.old p.new result }
{
    if !p.is(Token::LeftParen) {
        return Ok(());
    }
    let start = p.state.last.start;
    p.enclose(start, Kind::Annotations, parent, parse_bracketed)
}

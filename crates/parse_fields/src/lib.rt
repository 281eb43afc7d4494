// Names, annotations and fields (rico's parser/definitions.rs).
#![tactic(auto)]

pub mod annotations;
pub mod fields;

ghost use Rattle.token.specs.Code.{code};
ghost use Rattle.ast.specs.KindNumber.{number_of};
ghost use Rattle.lexer.specs.Refusal.{number_of as error_number};
ghost use Rattle.steps.specs.Reads.{Reads};
ghost use Rattle.parse_fields.specs.Into.{token_in, name_in};

use ast::kind::Kind;
use lexer::error::ErrorKind;
use steps::state::{Parsed, Parser};
use token::Token;

// A token that is read as a node: its kind, the refusal of any other, the node's kind.
#[derive(Clone, Copy, Debug, PartialEq, Eq)]
pub struct Leaf {
    pub token: Token,
    pub error: ErrorKind,
    pub kind: Kind,
}

// A token of one kind, as a node.
pub fn parse_leaf(p: &mut Parser, leaf: Leaf, parent: u32) -> Parsed
    ensures { Reads (λ x. token_in x.text (code leaf.token) (error_number leaf.error) (number_of leaf.kind) x.base parent) p.old p.new result }
{
    p.expect(leaf.token, leaf.error)?;
    p.put_leaf(leaf.kind, parent);
    Ok(())
}

// An identifier, as a name.
pub fn parse_name(p: &mut Parser, error: ErrorKind, parent: u32) -> Parsed
    ensures { Reads (λ x. name_in x.text (error_number error) x.base parent) p.old p.new result }
{
    let name = Leaf {
        token: Token::Identifier,
        error,
        kind: Kind::Name,
    };
    parse_leaf(p, name, parent)
}

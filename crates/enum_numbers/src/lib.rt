// The number behind each enum member of a text.
#![tactic(auto)]

ghost use Rattle.std.specs.Prelude.{◌≡◌};
ghost use Rattle.enum_numbers.specs.Numbering.{told, numbering};
ghost use Rattle.enum_numbers.specs.Whole.{judged};

use lexer::error::Refusal;
use reader::Lent;

// The numbers; at a refusal nothing is wiped yet. In parts: parts of what a struct holds can't yet be lent together with its list.
fn try_number(
    text: &[u8],
    nodes: &mut [u32],
    comments: &mut [u32],
    list: &mut [i32],
) -> Result<u32, Refusal>
    ensures { judged result nodes.new comments.new list.new ≡ numbering text.now nodes.old comments.old list.old }
{
    let counts = reader::read(text, nodes, comments)?;
    enum_members::number_members(text, nodes, counts.nodes, list)
}

// Reads a text into both tables, and gives every enum member's number, enum by enum in text order. Answers how many members there are. The parameters are document 02's, and C's.
pub fn numbers(
    text: &[u8],
    nodes: &mut [u32],
    comments: &mut [u32],
    list: &mut [i32],
) -> Result<u32, Refusal>
    ensures { told result nodes.new comments.new list.new ≡ numbering text.now nodes.old comments.old list.old }
{
    match try_number(text, nodes, comments, list) {
        Ok(members) => Ok(members),
        Err(refusal) => {
            let mut lent = Lent {
                nodes,
                comments,
                out: list,
            };
            lent.refuse(refusal)
        }
    }
}

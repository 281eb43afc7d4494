// From a text and its tables to its print.
#![tactic(auto)]

ghost use Rattle.std.specs.Prelude.{◌≡◌};
ghost use Rattle.writer.specs.Write.{told, printing};
ghost use Rattle.printer.specs.Onto.{judged, fits, writing};

use cursor::{Cursor, Writer};
use lexer::error::{ErrorKind, Refusal};
use parser::Counts;
use reader::Lent;
use steps::table;
use writer::{Print, Printed};

// Writes the definitions of both tables; how many bytes they take, one more than the output holds where they did not fit, as the writer's cursor has it. In parts: see `try_print`.
fn write(
    text: &[u8],
    indent: u32,
    counts: Counts,
    nodes: &[u32],
    comments: &[u32],
    out: &mut [u8],
) -> usize
    ensures { fits counts.nodes counts.comments result nodes.now comments.now out.new ≡ writing text.now indent counts.nodes counts.comments nodes.now comments.now out.old }
{
    let last = table::rest_at(counts.nodes as usize * ast::NODE_WIDTH, nodes.len());
    let end = table::rest_at(
        counts.comments as usize * ast::COMMENT_WIDTH,
        comments.len(),
    );
    let mut writer = Writer {
        text,
        nodes: &nodes[..last],
        comments: &comments[..end],
        indent,
        out,
        at: Cursor {
            node: 0,
            comment: 0,
            length: 0,
        },
    };
    write_definitions::write_document(&mut writer);
    writer.at.length
}

// The print; at a refusal nothing is wiped yet. In parts, as `write`: parts of what a struct holds can't yet be lent together with its output.
fn try_print(
    text: &[u8],
    indent: u32,
    nodes: &mut [u32],
    comments: &mut [u32],
    out: &mut [u8],
) -> Printed
    ensures { judged result nodes.new comments.new out.new ≡ printing text.now indent nodes.old comments.old out.old }
{
    if lexer::LIMIT < text.len() {
        return Err(Refusal::at(ErrorKind::TextTooLong, 0));
    }
    if writer::WIDEST < indent {
        return Err(Refusal::at(ErrorKind::IndentTooWide, 0));
    }
    let counts = reader::read(text, nodes, comments)?;
    let bytes = write(text, indent, counts, nodes, comments, out);
    if out.len() < bytes {
        return Err(Refusal::at(ErrorKind::OutputFull, 0));
    }
    ast::clear(out, bytes);
    Ok(Print {
        nodes: counts.nodes,
        comments: counts.comments,
        bytes,
    })
}

// Prints a text at an indent: reads it into both tables, then writes its definitions. The parameters are document 01's, and C's.
pub fn print(
    text: &[u8],
    indent: u32,
    nodes: &mut [u32],
    comments: &mut [u32],
    out: &mut [u8],
) -> Printed
    ensures { told result nodes.new comments.new out.new ≡ printing text.now indent nodes.old comments.old out.old }
{
    match try_print(text, indent, nodes, comments, out) {
        Ok(print) => Ok(print),
        Err(refusal) => {
            let mut lent = Lent {
                nodes,
                comments,
                out,
            };
            lent.refuse(refusal)
        }
    }
}

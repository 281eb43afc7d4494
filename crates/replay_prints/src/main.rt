// Prints each text of the list on standard input at 0, 2 and 8, and compares with rico's prints and refusals; then prints each print again.
//
// The crate replay says what the list holds. Tables and output are lent full of sevens; what lies past the answer must be 0 afterwards.
// A print has to be its own print, whether its fields are numbered or not.
#![tactic(auto)]

use lexer::error::{ErrorKind, Refusal};
use replay::{COMMENTS, Findings, NODES, SPACE};
use std::io::Stdin;
use std::{fmt, io};

// Whether all bytes are 0.
fn is_zero(bytes: &[u8]) -> bool {
    bytes.iter().all(|&byte| byte == 0)
}

// The tables are arrays of their own and no `replay::Tables`, which would be copied where it is made.

// Whether printing into this output gives this print, and what lies past the answer is 0.
fn is_printed(text: &[u8], indent: u32, out: &mut [u8], print: &[u8]) -> bool {
    let mut nodes: [u32; NODES] = [7; NODES];
    let mut comments: [u32; COMMENTS] = [7; COMMENTS];
    let Ok(printed) = printer::print(text, indent, &mut nodes, &mut comments, out) else {
        return false;
    };
    let nodes_end = printed.nodes as usize * ast::NODE_WIDTH;
    let comments_end = printed.comments as usize * ast::COMMENT_WIDTH;
    printed.bytes == print.len()
        && replay::zero_from(&nodes, nodes_end)
        && replay::zero_from(&comments, comments_end)
        && out.strip_prefix(print).is_some_and(is_zero)
}

// Whether the text's print is this one; the output has nine bytes more.
fn same_print(text: &[u8], indent: u32, print: &[u8]) -> bool {
    let mut space: [u8; SPACE] = [7; SPACE];
    match space.get_mut(..print.len() + 9) {
        Some(out) => is_printed(text, indent, out, print),
        None => false,
    }
}

// Whether printing at 2 into this output is so refused, and all that was lent is 0.
fn is_refused(text: &[u8], out: &mut [u8], numbers: [u32; 3]) -> bool {
    let mut nodes: [u32; NODES] = [7; NODES];
    let mut comments: [u32; COMMENTS] = [7; COMMENTS];
    match printer::print(text, 2, &mut nodes, &mut comments, out) {
        Ok(_) => false,
        Err(refusal) => {
            refusal.numbers() == numbers
                && replay::zero_from(&nodes, 0)
                && replay::zero_from(&comments, 0)
                && is_zero(out)
        }
    }
}

// Whether the text is refused as the list has it.
fn is_refused_alike(text: &[u8], numbers: [u32; 3]) -> bool {
    let mut out: [u8; 99] = [7; 99];
    is_refused(text, &mut out, numbers)
}

// Whether 27 is given for an output one byte short of the print.
fn is_short(text: &[u8], print: &[u8]) -> bool {
    let Some((_, shorter)) = print.split_last() else {
        return true;
    };
    let mut space: [u8; SPACE] = [7; SPACE];
    match space.get_mut(..shorter.len()) {
        Some(out) => is_refused(text, out, Refusal::at(ErrorKind::OutputFull, 0).numbers()),
        None => false,
    }
}

// What was printed and compared.
#[derive(Clone, Copy, Default)]
struct Tally {
    prints: u32,
    differing: u32,
    again: u32,
    altered: u32,
}

impl Tally {
    // With an answer that is the list's, or differs.
    fn compared(mut self, same: bool) -> Tally {
        self.differing = replay::one_more_if(!same, self.differing);
        self
    }

    // With a print that is the list's, or differs.
    fn printed(mut self, same: bool) -> Tally {
        self.prints = ast::bump(self.prints);
        self.compared(same)
    }

    // With a print that was printed again.
    fn printed_again(mut self, same: bool) -> Tally {
        self.again = ast::bump(self.again);
        self.altered = replay::one_more_if(!same, self.altered);
        self
    }
}

impl Findings for Tally {
    ghost use Rattle.std.specs.Prelude.{not, ◌&&◌, ◌==◌};

    ghost differs = { λ found before. not ((found.differing == before.differing) && (found.altered == before.altered)) };

    fn has_more(&self, before: &Tally) -> bool {
        (self.differing, self.altered) != (before.differing, before.altered)
    }
}

impl fmt::Display for Tally {
    ghost use Rattle.std.specs.Prelude.{Some, codes, ◌++◌};
    ghost use Rattle.std.specs.Fmt.{decimal};

    ghost output = { λ t. Some (decimal t.prints ++ (codes " prints, " ++ (decimal t.differing ++ (codes " differ; " ++ (decimal t.again ++ (codes " printed again, " ++ (decimal t.altered ++ codes " altered"))))))) };

    fn fmt<W: fmt::Write>(&self, f: &mut fmt::Formatter<W>) -> fmt::Result {
        let Tally {
            prints,
            differing,
            again,
            altered,
        } = *self;
        write!(
            f,
            "{prints} prints, {differing} differ; {again} printed again, {altered} altered"
        )
    }
}

// Compares a text's print with this one, and this one with its own print.
fn compare_print(text: &[u8], indent: u32, print: &[u8], tally: Tally) -> Tally {
    let now = tally
        .printed(same_print(text, indent, print))
        .printed_again(same_print(print, indent, print));
    if indent == 2 {
        now.compared(is_short(text, print))
    } else {
        now
    }
}

// Compares the three prints of an accepted text with those of the list.
fn compare_prints(input: &mut Stdin, text: &[u8], mut tally: Tally) -> io::Result<Tally> {
    let mut space: [u8; SPACE] = [0; SPACE];
    for indent in [0, 2, 8] {
        let length = replay::read_part(input, &mut space)?;
        tally = compare_print(text, indent, &space[..length], tally);
    }
    Ok(tally)
}

// Compares what is answered for a text.
fn compare(input: &mut Stdin, text: &[u8], _index: u32, tally: Tally) -> io::Result<Tally> {
    match replay::read_answer(input)? {
        Ok(counts) => {
            let [nodes, comments] = counts;
            replay::pass_records(input, nodes, comments)?;
            compare_prints(input, text, tally)
        }
        Err(numbers) => Ok(tally.compared(is_refused_alike(text, numbers))),
    }
}

fn main(rt: HostRuntime) -> io::Result<()> {
    replay::replay(&mut rt.stdin(), rt.stdout(), compare)?;
    Ok(())
}

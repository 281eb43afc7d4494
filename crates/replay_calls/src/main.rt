// Makes lists of readings and printings of each text of the list on standard input, by `file::run` and one by one, and compares the file, its space and all that was lent.
// The lists of a text are the first call, the first two, and so on, so that what each call leaves is seen.
//
// The crate replay says what the list holds. Space, tables and output are full of sevens at first.
// If a printing of a list was kept, it makes that list again: a file once printed must stay.
#![tactic(auto)]

ghost use Rattle.std.specs.Prelude.{◌≤◌};

use reader::Lent;
use replay::{COMMENTS, Findings, NODES, SPACE};
use std::io::Stdin;
use std::{fmt, io};
use writer::{Print, Printed};

// How many requests are made of a text.
const CALLS: usize = 12;

// The first number of a request; any but 0 asks for a printing. `file::run` takes numbers, as C hands them over.
const READING: u32 = 0;

const PRINTING: u32 = 1;

// More than is there.
const ALL: u32 = u32::MAX;

// A text of the list and its index, by which its calls differ.
#[derive(Clone, Copy)]
struct Text<'a> {
    bytes: &'a [u8],
    index: u32,
}

impl Text<'_> {
    fn indent(self) -> u32 {
        self.index % 10
    }

    // The length of the file that is handed over: for some texts more than its space holds.
    fn handed(self) -> usize {
        if self.index % 4 == 0 {
            SPACE * 2
        } else {
            self.bytes.len()
        }
    }

    // The length of the file's space: for some texts that of the text, or little more.
    fn room(self) -> usize
        ensures { result ≤ 66560 }
    {
        let length = self.bytes.len().min(SPACE);
        match self.index % 4 {
            0 => length,
            1 => (length + 20).min(SPACE),
            _ => (length * 4 + 200).min(SPACE),
        }
    }
}

// How much of both tables and of the output a printing of a text takes.
#[derive(Clone, Copy)]
struct Needs {
    nodes: u32,
    comments: u32,
    bytes: u32,
}

// What a printing of a text takes; if it is refused, some numbers of each.
fn needs_of(text: Text) -> Needs {
    let mut nodes: [u32; NODES] = [7; NODES];
    let mut comments: [u32; COMMENTS] = [7; COMMENTS];
    let mut out: [u8; SPACE] = [7; SPACE];
    match printer::print(
        text.bytes,
        text.indent(),
        &mut nodes,
        &mut comments,
        &mut out,
    ) {
        Ok(
            Print {
                nodes,
                comments,
                bytes,
            },
        ) => Needs {
            nodes: nodes.saturating_mul(ast::NODE_WIDTH as u32),
            comments: comments.saturating_mul(ast::COMMENT_WIDTH as u32),
            bytes: short(bytes),
        },
        Err(_) => Needs {
            nodes: 30,
            comments: 18,
            bytes: 40,
        },
    }
}

// A length, or as much of it as a number holds.
fn short(length: usize) -> u32 {
    u32::try_from(length).unwrap_or(ALL)
}

// The requests: all that is there, as much as it takes, one less, nothing.
fn requests_for(needs: Needs) -> [[u32; 4]; CALLS] {
    let Needs {
        nodes: n,
        comments: c,
        bytes: b,
    } = needs;
    let less = |count: u32| count.saturating_sub(1);
    [
        [READING, n, c, 0],
        [PRINTING, less(n), c, b],
        [PRINTING, n, less(c), b],
        [PRINTING, n, c, less(b)],
        [PRINTING, 0, 0, 0],
        [READING, ALL, ALL, 0],
        [PRINTING, n, c, b],
        [READING, less(n), c, b],
        [READING, n, c, ALL],
        [PRINTING, ALL, ALL, less(b)],
        [PRINTING, ALL, ALL, ALL],
        [READING, 0, 0, 0],
    ]
}

// So many of what is there, or all.
fn lend<T>(there: &mut [T], count: u32) -> &mut [T] {
    let end = there.len().min(count as usize);
    &mut there[..end]
}

// The file's length after some calls, what the printings among them came to, and whether `file::run` leaves the same.
#[derive(Clone, Copy)]
struct Steps {
    length: usize,
    accepted: u32,
    refused: u32,
    kept: u32,
    same: bool,
}

impl Steps {
    // Before the first call.
    fn new(length: usize) -> Steps {
        Steps {
            length,
            accepted: 0,
            refused: 0,
            kept: 0,
            same: true,
        }
    }

    // With what was found the same, or not.
    fn compared(self, same: bool) -> Steps {
        Steps {
            same: self.same && same,
            ..self
        }
    }

    // After a printing: the file is what it wrote if it is accepted, and its space holds that.
    fn printed(self, space: &mut [u8], out: &[u8], printed: Printed) -> Steps {
        let Ok(Print { bytes, .. }) = printed else {
            return Steps {
                refused: ast::bump(self.refused),
                ..self
            };
        };
        let accepted = ast::bump(self.accepted);
        if space.len() < bytes {
            return Steps { accepted, ..self };
        }
        let end = bytes.min(out.len());
        ast::lay(space, &out[..end], 0);
        Steps {
            length: bytes,
            accepted,
            kept: ast::bump(self.kept),
            ..self
        }
    }

    // After one call of the reader or the printer.
    fn called(
        self,
        space: &mut [u8],
        indent: u32,
        request: [u32; 4],
        lent: &mut Lent<u8>,
    ) -> Steps {
        let [kind, nodes, comments, out] = request;
        let end = self.length.min(space.len());
        let text = &space[..end];
        let nodes = lend(lent.nodes, nodes);
        let comments = lend(lent.comments, comments);
        if kind == READING {
            let _ = reader::read(text, nodes, comments);
            return self;
        }
        let printed = printer::print(text, indent, nodes, comments, lend(lent.out, out));
        self.printed(space, lent.out, printed)
    }
}

// The calls of a list of requests, one by one.
fn make_calls(space: &mut [u8], text: Text, requests: &[[u32; 4]], lent: &mut Lent<u8>) -> Steps {
    let mut steps = Steps::new(text.bytes.len());
    for &request in requests {
        steps = steps.called(space, text.indent(), request, lent);
    }
    steps
}

// The same calls by `file::run`, of a file so long; its length afterwards.
fn run(
    space: &mut [u8],
    length: usize,
    indent: u32,
    requests: &[[u32; 4]],
    lent: &mut Lent<u8>,
) -> usize {
    file::run(
        space,
        length,
        indent,
        requests.as_flattened(),
        lent.nodes,
        lent.comments,
        lent.out,
    )
}

// What was called and compared.
#[derive(Clone, Copy, Default)]
struct Tally {
    calls: u32,
    accepted: u32,
    refused: u32,
    altered: u32,
    differing: u32,
}

impl Tally {
    // With so many calls.
    fn called(mut self, steps: Steps, calls: u32) -> Tally {
        self.calls = self.calls.saturating_add(calls);
        self.accepted = self.accepted.saturating_add(steps.accepted);
        self.refused = self.refused.saturating_add(steps.refused);
        self.differing = replay::one_more_if(!steps.same, self.differing);
        self
    }

    // With a file that stays, or does not.
    fn stayed(mut self, same: bool) -> Tally {
        self.altered = replay::one_more_if(!same, self.altered);
        self
    }
}

impl Findings for Tally {
    ghost use Rattle.std.specs.Prelude.{not, ◌&&◌, ◌==◌};

    ghost differs = { λ found before. not ((found.differing == before.differing) && (found.altered == before.altered)) };

    fn has_more(&self, before: &Tally) -> bool {
        (self.differing, self.altered) != (before.differing, before.altered)
    }
}

impl fmt::Display for Tally {
    ghost use Rattle.std.specs.Prelude.{Some, codes, ◌++◌};
    ghost use Rattle.std.specs.Fmt.{decimal};

    ghost output = { λ t. Some (decimal t.calls ++ (codes " calls; printings: " ++ (decimal t.accepted ++ (codes " accepted, " ++ (decimal t.refused
        ++ (codes " refused; " ++ (decimal t.altered ++ (codes " files altered after a print, " ++ (decimal t.differing ++ codes " differences"))))))))) };

    fn fmt<W: fmt::Write>(&self, f: &mut fmt::Formatter<W>) -> fmt::Result {
        let Tally {
            calls,
            accepted,
            refused,
            altered,
            differing,
        } = *self;
        write!(
            f,
            "{calls} calls; printings: {accepted} accepted, {refused} refused; {altered} files altered after a print, {differing} differences"
        )
    }
}

// Whether the calls by `file::run`, made again, leave the file, which is that in the other space.
fn stays(
    space: &mut [u8],
    other: &[u8],
    length: usize,
    indent: u32,
    requests: &[[u32; 4]],
) -> bool {
    let mut nodes: [u32; NODES] = [7; NODES];
    let mut comments: [u32; COMMENTS] = [7; COMMENTS];
    let mut out: [u8; SPACE] = [7; SPACE];
    let mut lent = Lent {
        nodes: &mut nodes,
        comments: &mut comments,
        out: &mut out,
    };
    let again = run(space, length, indent, requests, &mut lent);
    again == length && &*space == other
}

// Makes the calls of a text in two spaces, by `file::run` and one by one, and compares.
fn compare_in(space: &mut [u8], spare: &mut [u8], text: Text, requests: &[[u32; 4]]) -> Steps {
    let mut nodes: [u32; NODES] = [7; NODES];
    let mut comments: [u32; COMMENTS] = [7; COMMENTS];
    let mut out: [u8; SPACE] = [7; SPACE];
    let mut lent = Lent {
        nodes: &mut nodes,
        comments: &mut comments,
        out: &mut out,
    };
    let length = run(space, text.handed(), text.indent(), requests, &mut lent);
    let mut spare_nodes: [u32; NODES] = [7; NODES];
    let mut spare_comments: [u32; COMMENTS] = [7; COMMENTS];
    let mut spare_out: [u8; SPACE] = [7; SPACE];
    let mut spare_lent = Lent {
        nodes: &mut spare_nodes,
        comments: &mut spare_comments,
        out: &mut spare_out,
    };
    let steps = make_calls(spare, text, requests, &mut spare_lent);
    steps
        .compared(nodes.as_slice() == spare_nodes.as_slice())
        .compared(comments.as_slice() == spare_comments.as_slice())
        .compared(out.as_slice() == spare_out.as_slice())
        .compared(length == steps.length)
        .compared(&*space == &*spare)
}

// Makes a list of calls of a text, compares, and makes them again if a printing was kept: then the file must stay.
fn compare_list(
    space: &mut [u8],
    spare: &mut [u8],
    text: Text,
    requests: &[[u32; 4]],
    tally: Tally,
) -> Tally {
    ast::lay(space, text.bytes, 7);
    ast::lay(spare, text.bytes, 7);
    let steps = compare_in(space, spare, text, requests);
    let now = tally.called(steps, short(requests.len()));
    if 0 < steps.kept {
        return now.stayed(stays(space, spare, steps.length, text.indent(), requests));
    }
    now
}

// Makes the first calls of a text, one, two and so on up to all, in spaces of their own.
fn compare_lists(text: Text, mut tally: Tally) -> Tally {
    let mut space: [u8; SPACE] = [7; SPACE];
    let mut spare: [u8; SPACE] = [7; SPACE];
    let room = text.room();
    let requests = requests_for(needs_of(text));
    for end in 1..=CALLS {
        tally = compare_list(
            &mut space[..room],
            &mut spare[..room],
            text,
            &requests[..end],
            tally,
        );
    }
    tally
}

// Passes over what the list has for a text.
fn pass_answer(input: &mut Stdin) -> io::Result<()> {
    let Ok(counts) = replay::read_answer(input)? else {
        return Ok(());
    };
    let [nodes, comments] = counts;
    replay::pass_records(input, nodes, comments)?;
    replay::pass_prints(input)
}

// Makes the calls of a text.
fn compare(input: &mut Stdin, bytes: &[u8], index: u32, tally: Tally) -> io::Result<Tally> {
    pass_answer(input)?;
    Ok(compare_lists(Text { bytes, index }, tally))
}

fn main(rt: HostRuntime) -> io::Result<()> {
    replay::replay(&mut rt.stdin(), rt.stdout(), compare)?;
    Ok(())
}

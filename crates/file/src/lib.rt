// Demand 3: any list of readings and printings of one file.
#![tactic(auto)]

ghost use Rattle.std.specs.Prelude.{◌≡◌, ◌≤◌, min, length, take};
ghost use Rattle.file.specs.Run.{requests_of, memory, runs, Unaltered};

use reader::Lent;
use writer::Printed;

// A reading or a printing, and how many numbers of each table and bytes of the output it is lent: as C hands it over.
#[derive(Clone, Copy)]
struct Request {
    prints: bool,
    nodes: usize,
    comments: usize,
    out: usize,
}

// The request that four numbers make.
impl From<[u32; 4]> for Request {
    ghost use Rattle.file.specs.Calls.{Asks};

    ghost from_gives = { Asks };

    fn from(numbers: [u32; 4]) -> Self {
        let [prints, nodes, comments, out] = numbers;
        Request {
            prints: prints != 0,
            nodes: nodes as usize,
            comments: comments as usize,
            out: out as usize,
        }
    }
}

// The file: the first bytes of its space.
#[derive(Drop)]
struct File<'a> {
    space: &'a mut [u8],
    size: usize,
    ghost inside: { size ≤ length space.now },
}

// What a call is lent of both tables and of the output is asked for by a request.
impl File<'_> {
    ghost use Rattle.std.specs.Prelude.{true, false, ℕ, Ok};
    ghost use Rattle.writer.specs.declared.Print.{Print};
    ghost use Rattle.writer.specs.Write.{said};
    ghost use Rattle.file.specs.Run.{ask, after};
    ghost use Rattle.file.specs.Calls.{asked, held, Stores, Leaves};

    fn bytes(&self) -> &[u8]
        ensures { result.now ≡ take self.now.size self.now.space.now }
    {
        &self.space[..self.size]
    }

    // A reading of the file.
    fn read(&self, request: Request, lent: &mut Lent<u8>)
        ensures { (indent : ℕ) → Leaves (after indent (ask false request.nodes request.comments request.out) (held self.now lent.old)) self.now self.now lent.old lent.new }
    {
        let a = request.nodes.min(lent.nodes.len());
        let b = request.comments.min(lent.comments.len());
        let _ = reader::read(self.bytes(), &mut lent.nodes[..a], &mut lent.comments[..b]);
    }

    // Makes printed bytes the file, with 0 behind them, if its space holds them.
    fn store(&mut self, printed: Printed, lent: &Lent<u8>)
        requires { (p : Print) → printed ≡ Ok p → p.bytes ≤ length lent.now.out.now }
        ensures { Stores (said printed) lent.now.out.now self.old self.new }
    {
        let Ok(print) = printed else {
            return; // a refused printing leaves the file
        };
        let bytes = print.bytes;
        if self.space.len() < bytes {
            return;
        }
        cursor::copy(self.space, &lent.out[..bytes]);
        ast::clear(self.space, bytes);
        self.size = bytes;
    }

    // A printing of the file.
    fn print(&mut self, indent: u32, request: Request, lent: &mut Lent<u8>)
        ensures { Leaves (after indent (ask true request.nodes request.comments request.out) (held self.old lent.old)) self.old self.new lent.old lent.new }
    {
        let a = request.nodes.min(lent.nodes.len());
        let b = request.comments.min(lent.comments.len());
        let c = request.out.min(lent.out.len());
        let printed = printer::print(
            self.bytes(),
            indent,
            &mut lent.nodes[..a],
            &mut lent.comments[..b],
            &mut lent.out[..c],
        );
        self.store(printed, lent);
    }

    // One call; which one it is is the request's to say, and C's.
    fn call(&mut self, indent: u32, request: Request, lent: &mut Lent<u8>)
        ensures { Leaves (after indent (asked request) (held self.old lent.old)) self.old self.new lent.old lent.new }
    {
        if request.prints {
            self.print(indent, request, lent);
        } else {
            self.read(request, lent);
        }
    }

    // One call after another.
    fn run(&mut self, indent: u32, requests: &[u32], lent: &mut Lent<u8>)
        ensures { Leaves (runs indent (requests_of requests.now) (held self.old lent.old)) self.old self.new lent.old lent.new }
    {
        let mut left = requests;
        while let Some((numbers, rest)) = left.split_first_chunk::<4>() {
            self.call(indent, Request::from(*numbers), lent);
            left = rest;
        }
    }
}

// Readings and printings of the file in the first bytes of its space, one after another; the length of the file afterwards. The parameters are C's.
// A request is four numbers: 0 for a reading, else a printing; how much of both tables and of the output the call is lent.
pub fn run(
    space: &mut [u8],
    file: usize,
    indent: u32,
    requests: &[u32],
    nodes: &mut [u32],
    comments: &mut [u32],
    out: &mut [u8],
) -> usize
    ensures { (memory result space.new nodes.new comments.new out.new
        ≡ runs indent (requests_of requests.now) (memory (min file (length space.old)) space.old nodes.old comments.old out.old))
        × Unaltered indent (requests_of requests.now) (memory (min file (length space.old)) space.old nodes.old comments.old out.old) (take result space.new) }
{
    let size = file.min(space.len());
    let mut held = File { space, size };
    let mut lent = Lent {
        nodes,
        comments,
        out,
    };
    held.run(indent, requests, &mut lent);
    held.size
}

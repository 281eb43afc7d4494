// Where the printer stands, the records that it prints from, and the output.
#![tactic(auto)]

ghost use Rattle.std.specs.Prelude.{◌≡◌, ◌++◌, ◌≤◌, Bool, ℕ, length, drop, eqb};
ghost use Rattle.ast.specs.KindNumber.{number_of, kind_of};
ghost use Rattle.ast.specs.Records.{comment_width, node_width, room};
ghost use Rattle.cursor.specs.Onto.{W, reached, then, ◌⨟◌, number_at, kind_at, parent_at, pass_node, pass_comment, put_out, part_out, token_out, spaces_out, comment_out, comments_out, pass_comments, below, pass_below};
ghost use Rattle.cursor.specs.Writes.{Source, source, Turns, Writes};

use ast::kind::Kind;
use ast::{COMMENT_WIDTH, NO_PARENT, NODE_WIDTH};
use records::{Comments, Nodes, Part};

// The next node record, the next comment record, and how many bytes were printed; one more than the output holds where they did not fit, which each `put` and the end tell by the comparison that they make anyway.
#[derive(Clone, Copy)]
pub struct Cursor {
    pub node: u32,
    pub comment: u32,
    pub length: usize,
}

// What the printer prints from, the output that it is lent, and where it stands.
#[derive(Drop)]
pub struct Writer<'a> {
    pub text: &'a [u8],
    pub nodes: &'a [u32],
    pub comments: &'a [u32],
    // spaces a level
    pub indent: u32,
    pub out: &'a mut [u8],
    pub at: Cursor,
}

// Copies bytes to the front of a slice that is as long or longer.
pub fn copy(out: &mut [u8], bytes: &[u8])
    requires { length bytes.now ≤ length out.old }
    ensures { out.new ≡ bytes.now ++ drop (length bytes.now) out.old }
{
    // byte by byte: `copy_from_slice` is a call for each short token, and a print of members took 4 % more instructions by it, of values 6 %
    for (i, &byte) in bytes.iter().enumerate() {
        out[i] = byte;
    }
}

// Spaces from where the printer stands, as many as the slice holds. Where it stands behind them; the first one that does not fit ends it.
fn spaces(out: &mut [u8], at: Cursor, count: u32) -> Cursor
    ensures { reached result out.new ≡ spaces_out count at out.old }
{
    let mut length = at.length;
    for _ in 0..count {
        if out.len() <= length {
            return Cursor {
                length: out.len() + 1,
                ..at
            };
        }
        out[length] = b' ';
        length += 1;
    }
    Cursor { length, ..at }
}

// Whether a node with this parent stands below the owner, or follows it there.
fn is_below(owner: u32, parent: u32) -> bool
    ensures { result ≡ below owner parent }
{
    owner <= parent && parent != NO_PARENT
}

impl Writer<'_> {
    // A number of the node record ahead; 0 where the table does not hold it.
    pub fn number(&self, k: usize) -> u32
        ensures { result ≡ number_at node_width self.now.nodes.now self.now.at.node k }
    {
        Nodes(self.nodes).number(self.at.node, k)
    }

    // The kind's number of the node record ahead, as a lent table may hold any; 0 behind the last one.
    pub fn kind_number(&self) -> u32
        ensures { result ≡ kind_at self.now.nodes.now (room node_width self.now.nodes.now) self.now.at.node }
    {
        Nodes(self.nodes).kind_number(self.at.node)
    }

    // The kind of the node record ahead, if its number is a kind's.
    pub fn kind(&self) -> Option<Kind>
        ensures { result ≡ kind_of (kind_at self.now.nodes.now (room node_width self.now.nodes.now) self.now.at.node) }
    {
        Nodes(self.nodes).kind(self.at.node)
    }

    // Whether the node record ahead is of this kind.
    pub fn is(&self, kind: Kind) -> bool
        ensures { result ≡ eqb (kind_at self.now.nodes.now (room node_width self.now.nodes.now) self.now.at.node) (number_of kind) }
    {
        self.kind_number() == u32::from(kind)
    }

    // The parent of the node record ahead; none behind the last one.
    pub fn parent(&self) -> u32
        ensures { result ≡ parent_at node_width self.now.nodes.now (room node_width self.now.nodes.now) self.now.at.node }
    {
        Nodes(self.nodes).parent(self.at.node)
    }

    // The owner of the comment record ahead; none behind the last one.
    fn owner(&self) -> u32
        ensures { result ≡ parent_at comment_width self.now.comments.now (room comment_width self.now.comments.now) self.now.at.comment }
    {
        Comments(self.comments).owner(self.at.comment)
    }

    // Past a node record.
    pub fn pass_node(&mut self)
        ensures { Writes (λ x. pass_node) self.old self.new }
    {
        self.at.node = ast::bump(self.at.node);
    }

    // Past a comment record.
    pub fn pass_comment(&mut self)
        ensures { Writes (λ x. pass_comment) self.old self.new }
    {
        self.at.comment = ast::bump(self.at.comment);
    }

    // Prints bytes, if the output holds them behind what was printed.
    pub fn put(&mut self, bytes: &[u8])
        ensures { Writes (λ x. put_out bytes.now) self.old self.new }
    {
        let room = self.out.len();
        let length = self.at.length;
        if length <= room && bytes.len() <= room - length {
            copy(&mut self.out[length..], bytes);
            self.at.length = length + bytes.len();
        } else {
            self.at.length = room + 1;
        }
    }

    // Prints a part of the text, if it lies there.
    pub fn put_part(&mut self, part: Part)
        ensures { Writes (λ x. part_out x.text part.start part.end) self.old self.new }
    {
        let text = self.text;
        if let Some(bytes) = text.get(part.start as usize..part.end as usize) {
            self.put(bytes);
        }
    }

    // Prints the bytes of the next node, and passes it.
    pub fn put_token(&mut self)
        ensures { Writes (λ x. token_out x.text x.nodes) self.old self.new }
    {
        let part = Nodes(self.nodes).part(self.at.node);
        self.put_part(part);
        self.pass_node();
    }

    // Prints so many spaces, or as many as the output holds.
    pub fn put_spaces(&mut self, count: u32)
        ensures { Writes (λ x. spaces_out count) self.old self.new }
    {
        self.at = spaces(self.out, self.at, count);
    }

    // A step as long as the test says yes, so many turns at most.
    #[inline(always)]
    pub fn repeat<T: Fn(&Writer) -> bool, S: Fn(&mut Writer)>(
        &mut self,
        turns: usize,
        test: T,
        step: S,
    )
        requires callable { T.IsAlwaysCallable test × S.IsAlwaysCallable step }
        ensures { (b : Source → Cursor → Bool) (k : Source → W) (m : Source → ℕ → W) → ((x : Source) → Turns (b x) (k x) (m x)) → ((s : _) (r : _) → source s.now ≡ source self.old → T.post test s r → r ≡ b (source s.now) s.now.at) → ((s : _) (t : _) → S.post step s tt t → Writes k s.now t.now) → Writes (λ x. m x turns) self.old self.new }
    {
        for _ in 0..turns {
            if !test(self) {
                return;
            }
            step(self);
        }
    }

    // The comment ahead, on a line of its own behind the indent.
    fn put_comment(&mut self, indent: u32)
        ensures { Writes (λ x. comment_out x.text x.comments indent) self.old self.new }
    {
        let note = Comments(self.comments).part(self.at.comment);
        self.put_spaces(indent);
        self.put_part(note);
        self.put(b"\n");
        self.pass_comment();
    }

    // write_comments: those of the next node.
    pub fn put_comments(&mut self, indent: u32)
        ensures { Writes (λ x p. comments_out x.text x.comments x.total p.node indent p) self.old self.new }
    {
        let owner = self.at.node;
        self.repeat(
            self.comments.len() / COMMENT_WIDTH,
            |w: &Writer| -> bool
                ensures { result ≡ eqb (parent_at comment_width w.now.comments.now (room comment_width w.now.comments.now) w.now.at.comment) owner }
            { w.owner() == owner },
            |w: &mut Writer|
                ensures { Writes (λ x. comment_out x.text x.comments indent) w.entry.now w.exit.now }
            { w.put_comment(indent) },
        );
    }

    // A line for the next node: its comments, most have none, then the indent, and past the node.
    pub fn start_line(&mut self)
        ensures { Writes (λ x p o. then (comments_out x.text x.comments x.total p.node x.indent p o) (spaces_out x.indent ⨟ pass_node)) self.old self.new }
    {
        let indent = self.indent;
        if self.owner() == self.at.node {
            self.put_comments(indent);
        }
        self.put_spaces(indent);
        self.pass_node();
    }

    // Past the comments of the next node.
    pub fn pass_comments(&mut self)
        ensures { Writes (λ x p. pass_comments x.comments x.total p.node p) self.old self.new }
    {
        let owner = self.at.node;
        self.repeat(
            self.comments.len() / COMMENT_WIDTH,
            |w: &Writer| -> bool
                ensures { result ≡ eqb (parent_at comment_width w.now.comments.now (room comment_width w.now.comments.now) w.now.at.comment) owner }
            { w.owner() == owner },
            |w: &mut Writer|
                ensures { Writes (λ x. pass_comment) w.entry.now w.exit.now }
            { w.pass_comment() },
        );
    }

    // Past all that stands below a node.
    pub fn pass_below(&mut self, owner: u32)
        ensures { Writes (λ x. pass_below x.nodes x.count owner) self.old self.new }
    {
        self.repeat(
            self.nodes.len() / NODE_WIDTH,
            |w: &Writer| -> bool
                ensures { result ≡ below owner (parent_at node_width w.now.nodes.now (room node_width w.now.nodes.now) w.now.at.node) }
            { is_below(owner, w.parent()) },
            |w: &mut Writer|
                ensures { Writes (λ x. pass_node) w.entry.now w.exit.now }
            { w.pass_node() },
        );
    }
}

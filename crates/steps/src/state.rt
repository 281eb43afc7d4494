// The parser, rico's Parser without its tree: its steps over tokens (parser/token.rs) and over records.
ghost use Rattle.std.specs.Prelude.{◌≤◌, length};
ghost use Rattle.lexer.specs.Limit.{limit};

use crate::packed::Range;
use crate::table::Row;
use crate::{packed, table};
use ast::kind::Kind;
use lexer::error::ErrorKind;
use token::Token;

// A token and where it stands.
#[derive(Clone, Copy, Debug, PartialEq, Eq)]
pub struct Ahead {
    pub token: Token,
    pub loc: Range,
}

// The lexer stands at the end of the token ahead.
#[derive(Clone, Copy, Debug, PartialEq, Eq)]
pub struct State {
    // where the token ahead stands; where none is left, the last one: so it is no field of an `Option<Ahead>`
    pub loc: Range,
    // where the last token taken stands
    pub last: Range,
    // the number of the next node record
    pub next: u32,
    // how many comments have an owner
    pub owned: u32,
    // how many comments wait for one
    pub waiting: u32,
    // the token ahead, if one is left
    pub token: Option<Token>,
}

// What the parser is lent, and where it stands.
#[derive(Drop)]
pub struct Parser<'a> {
    pub text: &'a [u8],
    // the node table, from the record `base` on
    pub nodes: &'a mut [u32],
    pub base: u32,
    pub comments: &'a mut [u32],
    pub state: State,
    // the text passed 20
    pub ghost short: { length text.now ≤ limit },
}

// A refusal, and the place of the token that it is at.
#[derive(Clone, Copy, Debug, PartialEq, Eq)]
pub struct Raised {
    pub kind: ErrorKind,
    pub loc: Range,
}

// What a reader answers: nothing, or a refusal.
pub type Parsed = Result<(), Raised>;

// A node that is read: its number, and where it starts.
#[derive(Clone, Copy, Debug, PartialEq, Eq)]
pub struct Node {
    pub number: u32,
    pub start: u64,
}

impl State {
    ghost use Rattle.std.specs.Prelude.{◌≡◌};
    ghost use Rattle.steps.specs.Into.{start_at};

    // start_pos: where the token ahead starts.
    pub fn start(&self) -> u64
        ensures { result ≡ start_at self.now }
    {
        match self.token {
            Some(_) => self.loc.start,
            None => self.last.start,
        }
    }
}

impl Parser<'_> {
    ghost use Rattle.std.specs.Prelude.{◌≡◌, ◌≤◌, Bool, true, false, List, ℕ, eqb};
    ghost use Rattle.token.specs.Code.{code};
    ghost use Rattle.lexer.specs.Refusal.{number_of as error_number};
    ghost use Rattle.ast.specs.KindNumber.{number_of};
    ghost use Rattle.steps.specs.Into.{M, advance_in, begin_node_in, closes_at, code_of, enclosed_in, expect_in, Falls, is_comment, is_separator, leaf_in, loop_in, no_token, node_in, numbered, open_in, own_in, passes, place_of, refused, Rests, skip_comments_in, skip_in, stop, take_in, wait_in};
    ghost use Rattle.steps.specs.Reads.{Source, Accepts, Reads, Does, left_of, Shortens};

    // Whether the token ahead is of this kind.
    pub fn is(&self, token: Token) -> bool
        ensures { result ≡ eqb (code_of self.now.state) (code token) }
    {
        self.meets(Some(token))
    }

    // Whether it is this one, or none.
    fn meets(&self, token: Option<Token>) -> bool
        ensures { result ≡ eqb (code_of self.now.state) (numbered token) }
    {
        self.state.token == token
    }

    // Whether a separator is ahead; or a comment.
    pub fn is_separator(&self) -> bool
        ensures { result ≡ is_separator (code_of self.now.state) }
    {
        self.is(Token::Comma) || self.is(Token::Semicolon)
    }

    pub fn is_comment(&self) -> bool
        ensures { result ≡ is_comment (code_of self.now.state) }
    {
        self.is(Token::LineComment) || self.is(Token::BlockComment)
    }

    // advance
    pub fn advance(&mut self)
        ensures { Does (λ x. advance_in x.text) self.old self.new }
    {
        let found = crate::look(self.text, self.state.loc.end);
        self.state.last = self.state.loc;
        match found {
            Some(ahead) => {
                self.state.token = Some(ahead.token);
                self.state.loc = ahead.loc;
            }
            None => self.state.token = None,
        }
    }

    // error: a refusal at the token ahead; with none left 3 at the last one, which the end rule makes 3 or 1.
    pub fn error(&self, kind: ErrorKind) -> Raised
        ensures { (t u : List ℕ) → stop (error_number result.kind) result.loc self.now.state t u ≡ refused (error_number kind) self.now.state t u }
    {
        match self.state.token {
            Some(_) => Raised {
                kind,
                loc: self.state.loc,
            },
            None => Raised {
                kind: ErrorKind::UnexpectedEOF,
                loc: self.state.last,
            },
        }
    }

    // The token ahead, whatever it is.
    pub fn take(&mut self) -> Parsed
        ensures { Reads (λ x. take_in x.text) self.old self.new result }
    {
        match self.state.token {
            Some(_) => {
                self.advance();
                Ok(())
            }
            None => Err(self.error(ErrorKind::UnexpectedEOF)),
        }
    }

    // expect_token, consume: a token of one kind, or a refusal.
    pub fn expect(&mut self, token: Token, kind: ErrorKind) -> Parsed
        ensures { Reads (λ x. expect_in x.text (code token) (error_number kind)) self.old self.new result }
    {
        if !self.is(token) {
            return Err(self.error(kind));
        }
        self.advance();
        Ok(())
    }

    // The token ahead, if it is of one kind; whether it was.
    pub fn accept(&mut self, token: Token) -> bool
        ensures { Accepts (code token) self.old self.new result }
    {
        let accepts = self.is(token);
        if accepts {
            self.advance();
        }
        accepts
    }

    // Past the tokens to which `is_passed` says yes. A clause that ties a closure to its meaning is about the method's own type parameter, so each method that takes one has its own.
    fn skip_while<F: Fn(&Parser) -> bool>(&mut self, is_passed: F)
        requires callable { F.IsAlwaysCallable is_passed }
        requires some { (s : _) → F.post is_passed s true → eqb (code_of s.now.state) no_token ≡ false }
        ensures { (b : Bool) → ((s : _) (r : _) → F.post is_passed s r → r ≡ passes (code_of s.now.state) b) → Does (λ x. skip_in x.text b) self.old self.new }
    {
        // a step is a token
        while is_passed(self) {
            self.advance();
        }
    }

    // skip_separator; this and the next are one call each, by rico's two names.
    pub fn skip_separators(&mut self)
        ensures { Does (λ x. skip_in x.text true) self.old self.new }
    {
        self.skip_while(
            |p: &Parser| -> bool
                ensures { result ≡ is_separator (code_of p.now.state) }
            { p.is_separator() },
        )
    }

    // skip_comments_discard
    pub fn skip_comments_discard(&mut self)
        ensures { Does (λ x. skip_in x.text false) self.old self.new }
    {
        self.skip_while(
            |p: &Parser| -> bool
                ensures { result ≡ is_comment (code_of p.now.state) }
            { p.is_comment() },
        )
    }

    // skip_comments: the comments wait.
    pub fn skip_comments(&mut self)
        ensures { Does (λ x. skip_comments_in x.text false) self.old self.new }
    {
        // a step is a token
        while self.is_comment() {
            self.wait();
            self.advance();
        }
    }

    // skip_trivia: separators too. Two loops, as rico has: this one has a case more.
    pub fn skip_trivia(&mut self)
        ensures { Does (λ x. skip_comments_in x.text true) self.old self.new }
    {
        // a step is a token
        loop {
            if self.is_comment() {
                self.wait();
            } else if !self.is_separator() {
                return;
            }
            self.advance();
        }
    }

    // The comment ahead waits: its record stands behind the others, without its owner.
    fn wait(&mut self)
        ensures { Does (λ x. wait_in) self.old self.new }
    {
        let kind = if self.is(Token::LineComment) {
            Kind::LineComment
        } else {
            Kind::BlockComment
        };
        table::put_comment(
            self.comments,
            self.state.owned as usize + self.state.waiting as usize,
            u32::from(kind),
            self.state.loc,
        );
        self.state.waiting = ast::bump(self.state.waiting);
    }

    // take_pending_comments: those that wait go to the node with the number `owner`.
    pub fn own(&mut self, owner: u32)
        ensures { Does (λ x. own_in owner) self.old self.new }
    {
        let first = self.state.owned as usize;
        for i in 0..self.state.waiting as usize {
            table::put_owner(self.comments, first + i, owner);
        }
        self.state.owned = table::sum(self.state.owned, self.state.waiting);
        self.state.waiting = 0;
    }

    // One node more.
    pub fn open(&mut self)
        ensures { Does (λ x. open_in) self.old self.new }
    {
        self.state.next = ast::bump(self.state.next);
    }

    // One node more, which owns the comments that wait.
    pub fn begin_node(&mut self)
        ensures { Does (λ x. begin_node_in) self.old self.new }
    {
        let owner = self.state.next;
        self.open();
        self.own(owner);
    }

    // Where node `number` stands in the table.
    fn place_of(&self, number: u32) -> usize
        ensures { result ≡ place_of self.now.base number }
    {
        number.saturating_sub(self.base) as usize
    }

    // The last token taken, as a node.
    pub fn put_leaf(&mut self, kind: Kind, parent: u32)
        ensures { Does (λ x. leaf_in (number_of kind) x.base parent) self.old self.new }
    {
        let leaf = Node {
            number: self.state.next,
            start: self.state.last.start,
        };
        self.open();
        self.put_node(leaf, kind, 0, parent);
    }

    // A node to the end of the last token taken; all its descendants are read.
    pub fn put_node(&mut self, node: Node, kind: Kind, flags: u32, parent: u32)
        ensures { Does (λ x. node_in node.number (number_of kind) flags node.start x.base parent) self.old self.new }
    {
        let index = self.place_of(node.number);
        let loc = Range {
            start: node.start,
            end: self.state.last.end,
        };
        let row = Row {
            kind: u32::from(kind),
            parent,
            flags,
            loc,
        };
        let past = self.state.next;
        table::put_node(self.nodes, index, row, past);
    }

    // A node from `start` on: below it stands what `inside` reads, which is given its number.
    pub fn enclose<F: Fn(&mut Parser, u32) -> Parsed>(
        &mut self,
        start: u64,
        kind: Kind,
        parent: u32,
        inside: F,
    ) -> Parsed
        requires { F.IsAlwaysCallable inside }
        ensures { (m : ℕ → Source → M) → ((s : _) (n : ℕ) (r : _) (t : _) → F.post inside s n r t → Reads (m n) s.now t.now r) → Reads (λ x. enclosed_in (number_of kind) start x.base parent (λ n. m n x)) self.old self.new result }
    {
        let node = Node {
            number: self.state.next, // before what it encloses
            start,
        };
        self.open();
        inside(self, node.number)?;
        self.put_node(node, kind, 0, parent);
        Ok(())
    }

    // Members until one kind of token is ahead (none at the end of the text), and `end` there; `between` passes what may stand before each. The bytes left fall.
    pub fn parse_until<
        B: Fn(&mut Parser),
        E: Fn(&mut Parser) -> Parsed,
        F: Fn(&mut Parser) -> Parsed,
    >(&mut self, closer: Option<Token>, between: B, end: E, member: F) -> Parsed
        requires callable { B.IsAlwaysCallable between × E.IsAlwaysCallable end × F.IsAlwaysCallable member }
        requires rests { (s : _) (t : _) → B.post between s tt t → left_of t.now ≤ left_of s.now }
        requires falls { (s : _) (r : _) (t : _) → F.post member s r t → Shortens s.now t.now r }
        ensures { (b e m : Source → M) → ((x : Source) → Rests x.text (b x)) → ((x : Source) → Falls x.text (m x)) → ((s : _) (t : _) → B.post between s tt t → Does b s.now t.now) → ((s : _) (r : _) (t : _) → E.post end s r t → Reads e s.now t.now r) → ((s : _) (r : _) (t : _) → F.post member s r t → Reads m s.now t.now r) → Reads (λ x. loop_in x.text (closes_at (numbered closer)) (b x) (e x) (m x)) self.old self.new result }
    {
        // a step is what `between` and `member` take
        loop {
            between(self);
            if self.meets(closer) {
                return end(self);
            }
            member(self)?;
        }
    }

    // The same up to a closing token, and that.
    pub fn parse_members<B: Fn(&mut Parser), F: Fn(&mut Parser) -> Parsed>(
        &mut self,
        closer: Token,
        between: B,
        member: F,
    ) -> Parsed
        requires callable { B.IsAlwaysCallable between × F.IsAlwaysCallable member }
        requires rests { (s : _) (t : _) → B.post between s tt t → left_of t.now ≤ left_of s.now }
        requires falls { (s : _) (r : _) (t : _) → F.post member s r t → Shortens s.now t.now r }
        ensures { (b m : Source → M) → ((x : Source) → Rests x.text (b x)) → ((x : Source) → Falls x.text (m x)) → ((s : _) (t : _) → B.post between s tt t → Does b s.now t.now) → ((s : _) (r : _) (t : _) → F.post member s r t → Reads m s.now t.now r) → Reads (λ x. loop_in x.text (closes_at (code closer)) (b x) (take_in x.text) (m x)) self.old self.new result }
    {
        self.parse_until(
            Some(closer),
            between,
            |p: &mut Parser| -> Parsed
                ensures { Reads (λ x. take_in x.text) p.entry.now p.exit.now result }
            { p.take() },
            member,
        )
    }
}

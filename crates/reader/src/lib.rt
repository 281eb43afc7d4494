// From a text to its definitions and both tables.
#![tactic(auto)]

ghost use Rattle.std.specs.Prelude.{◌≡◌, List, ℕ, ◌≤◌, length};
ghost use Rattle.lexer.specs.Limit.{limit};
ghost use Rattle.lexer.specs.Refusal.{number_of};
ghost use Rattle.parser.specs.Read.{reading, told};
ghost use Rattle.steps.specs.Packed.{unpacked_loc};
ghost use Rattle.steps.specs.Into.{advanced};
ghost use Rattle.steps.specs.Reads.{Does, Reads, tells};
ghost use Rattle.parse_definitions.specs.Into.{definition_in};
ghost use Rattle.reader.specs.Into.{rest_in, over_in, between_in, document_in, unread, beginning, refusing, ended, refusing_at, fits, judged, unscanned, parsing};
ghost use Rattle.reader.specs.Gives.{Wipes, Gives};
ghost use Rattle.reader.specs.Refuses.{Refuses};

use lexer::error::{ErrorKind, Refusal};
use lexer::location::Lexer;
use parser::{Answer, Counts};
use steps::packed::Range;
use steps::state::{Parsed, Parser, Raised, State};
use steps::{packed, table};

// A text that passed 20.
#[derive(Clone, Copy)]
struct Short<'a> {
    text: &'a [u8],
    ghost short: { length text.now ≤ limit },
}

// The definition ahead; the table is lent from its own record on.
// In parts: of a parser, part of one table and the other can't yet be lent together.
fn parse_from(short: Short, state: &mut State, rest: &mut [u32], comments: &mut [u32]) -> Parsed
    ensures { tells result state.new rest.new comments.new ≡ definition_in short.entry.text.now state.old.next state.old rest.old comments.old }
{
    let mut p = Parser {
        text: short.text,
        nodes: rest,
        base: state.next,
        comments,
        state: *state,
    };
    let parsed = parse_definitions::parse_definition(&mut p);
    *state = p.state;
    parsed
}

// The definition, its records in the unused rest of the table.
fn parse_in_rest(p: &mut Parser) -> Parsed
    ensures { Reads (λ x. rest_in x.text) p.old p.new result }
{
    let at = table::rest_at(p.state.next as usize * ast::NODE_WIDTH, p.nodes.len());
    let short = Short { text: p.text };
    parse_from(short, &mut p.state, &mut p.nodes[at..], p.comments)
}

// The end of the text: refused where the last token ends at offset 1.
fn over(p: &mut Parser) -> Parsed
    ensures { Reads (λ x. over_in) p.old p.new result }
{
    if packed::index_of(p.state.last.end) == 1 {
        return Err(p.error(ErrorKind::UnexpectedEOF));
    }
    Ok(())
}

// Between definitions: separators, comments, separators again.
fn between(p: &mut Parser)
    ensures { Does (λ x. between_in x.text) p.old p.new }
{
    p.skip_separators();
    p.skip_comments();
    p.skip_separators();
}

// parse: all definitions.
// Document ::= (Gap Definition)* Gap; Gap ::= Separator* Comment* Separator*
fn parse_document(p: &mut Parser) -> Parsed
    ensures { Reads (λ x. document_in x.text) p.old p.new result }
{
    p.parse_until(None, between, over, parse_in_rest)
}

// Before the first token.
fn unread() -> State
    ensures { result ≡ unread }
{
    let start = packed::pack(Lexer::new().span());
    let loc = Range { start, end: start };
    State {
        token: None,
        loc,
        last: loc,
        next: 0,
        owned: 0,
        waiting: 0,
    }
}

// All of a text, from before its first token.
fn parse_text(short: Short, state: &mut State, nodes: &mut [u32], comments: &mut [u32]) -> Parsed
    ensures { tells result state.new nodes.new comments.new ≡ document_in short.entry.text.now (advanced short.entry.text.now state.old) nodes.old comments.old }
{
    let mut p = Parser {
        text: short.text,
        nodes,
        base: 0,
        comments,
        state: *state,
    };
    p.advance();
    let parsed = parse_document(&mut p);
    *state = p.state;
    parsed
}

// The end rule: with no token left, 3 if the last token ends at the text's length, else 1.
fn end_rule(kind: ErrorKind, end: u32, len: usize) -> ErrorKind
    ensures { number_of result ≡ ended (number_of kind) end len }
{
    let ErrorKind::UnexpectedEOF = kind else {
        return kind;
    };
    if end as usize == len {
        ErrorKind::UnexpectedEOF
    } else {
        ErrorKind::UnrecognizedToken
    }
}

// From where on tokens are still to be looked for: behind what was read; from the start where the grammar refuses.
fn unscanned(parsed: Parsed, state: State) -> usize
    ensures { (result ≤ 4294967295) × ((t u : List ℕ) → result ≡ unscanned (tells parsed state t u)) }
{
    match parsed {
        Err(_) => 0,
        Ok(()) => {
            let loc = state.loc;
            packed::index_of(loc.end) as usize
        }
    }
}

// Both tables that a reading is lent.
#[derive(Drop)]
struct Tables<'a> {
    nodes: &'a mut [u32],
    comments: &'a mut [u32],
}

impl Tables<'_> {
    // Nothing is left in them.
    fn wipe(&mut self)
        ensures { Wipes self.old self.new }
    {
        ast::clear(self.nodes, 0);
        ast::clear(self.comments, 0);
    }

    fn refuse(&mut self, refusal: Refusal) -> Answer
        ensures { Gives (refusing (number_of refusal.kind) refusal.place refusal.length) self.old self.new result }
    {
        self.wipe();
        Err(refusal)
    }

    // A refusal of the grammar.
    fn refuse_at(&mut self, raised: Raised, len: usize) -> Answer
        ensures { Gives (refusing_at (number_of raised.kind) (unpacked_loc raised.loc) len) self.old self.new result }
    {
        let loc = raised.loc;
        let place = packed::index_of(loc.start);
        let end = packed::index_of(loc.end);
        let kind = end_rule(raised.kind, end, len);
        let length = end.saturating_sub(place);
        self.refuse(Refusal {
            kind,
            place,
            length,
        })
    }

    // What was read, if the tables hold it: else 24, then 25.
    fn fit(&mut self, state: State) -> Answer
        ensures { Gives (fits state) self.old self.new result }
    {
        let next = state.next;
        let owned = state.owned;
        if self.nodes.len() / ast::NODE_WIDTH < next as usize {
            return self.refuse(Refusal::at(ErrorKind::NodesFull, 0));
        }
        if self.comments.len() / ast::COMMENT_WIDTH < owned as usize {
            return self.refuse(Refusal::at(ErrorKind::CommentsFull, 0));
        }
        ast::clear(self.nodes, next as usize * ast::NODE_WIDTH);
        ast::clear(self.comments, owned as usize * ast::COMMENT_WIDTH);
        Ok(Counts {
            nodes: next,
            comments: owned,
        })
    }

    // What the grammar finds.
    fn judge(&mut self, parsed: Parsed, state: State, len: usize) -> Answer
        ensures { Gives (λ t u. judged (tells parsed state t u) len t u) self.old self.new result }
    {
        match parsed {
            Err(raised) => self.refuse_at(raised, len),
            Ok(()) => self.fit(state),
        }
    }

    // 22 and the grammar, in one pass where the text is accepted: a text that passed 20 and 21.
    fn parse(&mut self, short: Short) -> Answer
        ensures { Gives (parsing short.entry.text.now) self.old self.new result }
    {
        let text = short.text;
        let mut state = unread();
        let parsed = parse_text(short, &mut state, self.nodes, self.comments);
        let from = unscanned(parsed, state);
        if let Some(at) = lexer::unrecognized(text, from) {
            return self.refuse(Refusal::at(ErrorKind::NoToken, at as u32));
        }
        self.judge(parsed, state, text.len())
    }

    fn read(&mut self, text: &[u8]) -> Answer
        ensures { Gives (reading text.now) self.old self.new result }
    {
        if lexer::LIMIT < text.len() {
            return self.refuse(Refusal::at(ErrorKind::TextTooLong, 0));
        }
        if let Some(at) = utf8::ill_formed(text) {
            return self.refuse(Refusal::at(ErrorKind::NotUtf8, at as u32));
        }
        self.parse(Short { text })
    }
}

// Reads a text into a node table and a comment table; the parameters of each entry are document 01's, and C's.
pub fn read(text: &[u8], nodes: &mut [u32], comments: &mut [u32]) -> Answer
    ensures { told result nodes.new comments.new ≡ reading text.now nodes.old comments.old }
{
    let mut tables = Tables { nodes, comments };
    tables.read(text)
}

// Both tables that a call is lent, and the list that it fills.
#[derive(Drop)]
pub struct Lent<'a, T> {
    pub nodes: &'a mut [u32],
    pub comments: &'a mut [u32],
    pub out: &'a mut [T],
}

impl<T: Copy + Default> Lent<'_, T> {
    // A refusal leaves nothing in either table or the list.
    pub fn refuse<A>(&mut self, refusal: Refusal) -> Result<A, Refusal>
        ensures { Refuses T.is_default refusal self.old self.new result }
    {
        ast::clear(self.out, 0);
        let mut tables = Tables {
            nodes: self.nodes,
            comments: self.comments,
        };
        tables.wipe();
        Err(refusal)
    }
}

// Stored tables moved from nine numbers a record to ten and back.
// A record's ancestors are found by the parents, from the record before it up to its own parent: each record is passed once in a table, however deep.
#![tactic(auto)]

ghost use Rattle.std.specs.Prelude.{◌≡◌, Err, List, [], ◌∷◌, ℕ, suc, ◌<◌, ◌≤◌, ◌*◌, length};
ghost use Rattle.lexer.specs.Outcome.{refused};
ghost use Rattle.lexer.specs.Refusal.{number_of};
ghost use Rattle.ast.specs.Column as C;
ghost use Rattle.ast.specs.Records.{node_width, no_parent, chunks};
ghost use Rattle.move_tables.specs.Moves.{narrow_width, most_records, among, bad_parent, bad_tenth, into, told, widens, narrows};
ghost use Rattle.move_tables.specs.Walk.{parent_in, Holds, Stands, Passes, Good, Carries, Carried, Copies, Copied, Up, parents_from, ends, walk, writes, lower_bad, Checks, Wholes, Lays};

use ast::{NO_PARENT, NODE_WIDTH, column};
use lexer::error::{ErrorKind, Refusal};

// The numbers of a node record without its tenth: as many as a comment's.
const NARROW_WIDTH: usize = ast::COMMENT_WIDTH;

// The most records of a table that is moved.
pub const MOST_RECORDS: usize = 65536;

// What a move answers: how many records, or a refusal at one.
pub type Moved = Result<u32, Refusal>;

// A refusal, which leaves the output all 0; two lines, as `enum_members` has them of its list.
fn refuse(kind: ErrorKind, place: u32, out: &mut [u32]) -> Refusal
    ensures { told (Err result) out.new ≡ into (refused (number_of kind) place 0) out.old }
{
    ast::clear(out, 0);
    Refusal::at(kind, place)
}

// A table of records of so many numbers. Its records are known to be there, and are read without an Option, unlike those of `records::Table`; how many they are is found once, by `movable`, and handed on.
#[derive(Clone, Copy)]
struct Table<'a, const WIDTH: usize>(&'a [u32]);

impl<'a, const WIDTH: usize> Table<'a, WIDTH> {
    // The parent of a record.
    fn parent(self, n: u32) -> u32
        requires { Holds WIDTH self.0.now (suc n) }
        ensures { result ≡ parent_in WIDTH self.entry.0.now n }
    {
        let at = n as usize * WIDTH + column::PARENT;
        self.0[at]
    }

    // Whether p is `at`, an ancestor of `at`, or 4294967295.
    fn reaches(self, at: u32, p: u32) -> bool
        requires { (m : ℕ) × Stands WIDTH self.0.now m at }
        ensures { (m : ℕ) (ancestors : List ℕ) → m ≤ most_records → Up WIDTH self.entry.0.now m at ancestors → result ≡ among p ancestors }
    {
        let table = self;
        let end = NO_PARENT;
        p == NO_PARENT || (Ancestors { table, at, end }).any(|a| a == p)
    }

    // The first record with a bad parent.
    fn bad_parent(self, count: u32) -> Option<u32>
        requires { Holds WIDTH self.0.now count }
        ensures { result ≡ bad_parent 0 (no_parent ∷ []) (parents_from WIDTH self.entry.0.now count 0) }
    {
        let mut at = NO_PARENT;
        for n in 0..count {
            let p = self.parent(n);
            if !self.reaches(at, p) {
                return Some(n);
            }
            at = n;
        }
        None
    }

    // How many records it has, if it is movable; else a refusal at the first record that is not.
    fn movable(self, out: &mut [u32]) -> Moved
        requires { C.Parent < WIDTH }
        ensures { Checks WIDTH self.entry.0.now result out.old out.new }
    {
        let count = self.0.len() / WIDTH;
        if self.0.len() % WIDTH != 0 || MOST_RECORDS < count {
            return Err(refuse(ErrorKind::NotMovable, 0, out));
        }
        let records = count as u32;
        if let Some(bad) = self.bad_parent(records) {
            return Err(refuse(ErrorKind::NotMovable, bad, out));
        }
        Ok(records)
    }
}

// Record `at` and its ancestors, from the nearest to the farthest, before `end`, which is one of them or 4294967295.
#[derive(Drop)]
struct Ancestors<'a, const WIDTH: usize> {
    at: u32,
    // between the two numbers, which are else held in one register and taken apart at each step
    table: Table<'a, WIDTH>,
    end: u32,
}

impl<const WIDTH: usize> Iterator for Ancestors<'_, WIDTH> {
    ghost use Rattle.std.specs.Iterator.{YieldsFirst, item_count};
    ghost use Rattle.move_tables.specs.Ancestors.{Climbs, left};

    type Item = u32;

    ghost can_next = { Climbs };

    ghost next_gives = { YieldsFirst left };

    ghost remaining = { item_count left };

    fn next(&mut self) -> Option<u32> {
        if self.at == self.end {
            return None;
        }
        let a = self.at;
        self.at = self.table.parent(a);
        Some(a)
    }
}

// The lower one of `bad` and a, if a's tenth number is not n; else `bad`. 4294967295 is none: with an Option a climb was measured 6 to 12 % slower, in two forms.
fn lower_bad(table: Table<NODE_WIDTH>, a: u32, n: u32, bad: u32) -> u32
    requires { Holds node_width table.0.now (suc a) }
    ensures { result ≡ lower_bad table.entry.0.now n a bad }
{
    let at = a as usize * NODE_WIDTH + column::PAST;
    if table.0[at] == n { bad } else { a.min(bad) }
}

// These have no descendant from record n on: the lowest of them whose tenth number is not n, or `bad` if that is lower.
fn check_past(ended: Ancestors<NODE_WIDTH>, n: u32, bad: u32) -> u32
    requires { Passes node_width ended.table.0.now n ended.at ended.end }
    ensures { (ancestors : List ℕ) → Up node_width ended.entry.table.0.now n ended.entry.at ancestors → result ≡ ends (lower_bad ended.entry.table.0.now n) ended.entry.end ancestors bad }
{
    let table = ended.table;
    let mut lowest = bad;
    for a in ended {
        lowest = lower_bad(table, a, n, lowest);
    }
    lowest
}

// The first record with a bad tenth number.
// It, `bad_parent` and `write_pasts` each go over the records themselves. A `walk` that is given the step is no plainer: no type parameter stands for the output's `[u32]`, and the contract of `walk` would have to carry what the step asks of an output, its length.
fn bad_tenth(table: Table<NODE_WIDTH>, count: u32) -> Option<u32>
    requires { Good node_width table.0.now count }
    ensures { result ≡ bad_tenth 0 (chunks node_width count table.entry.0.now) }
{
    // 4294967295 is none here too, for speed: see `lower_bad`
    let mut bad = NO_PARENT;
    let mut at = NO_PARENT;
    for n in 0..count {
        let end = table.parent(n);
        bad = check_past(Ancestors { table, at, end }, n, bad);
        at = n;
    }
    let end = NO_PARENT;
    let lowest = check_past(Ancestors { table, at, end }, count, bad);
    if lowest == NO_PARENT {
        None
    } else {
        Some(lowest)
    }
}

// These have no descendant from record n on: n is their tenth number.
fn write_past(ended: Ancestors<NARROW_WIDTH>, n: u32, out: &mut [u32])
    requires { (Passes narrow_width ended.table.0.now n ended.at ended.end) × (n * node_width ≤ length out.old) }
    ensures { (ancestors : List ℕ) → Up narrow_width ended.entry.table.0.now n ended.entry.at ancestors → out.new ≡ ends (writes n) ended.entry.end ancestors out.old }
{
    for a in ended {
        let k = a as usize * NODE_WIDTH + column::PAST;
        out[k] = n;
    }
}

// The tenth number of each record.
fn write_pasts(table: Table<NARROW_WIDTH>, out: &mut [u32], count: u32)
    requires { (Good narrow_width table.0.now count) × (count * node_width ≤ length out.old) }
    ensures { out.new ≡ walk writes 0 (no_parent ∷ []) (parents_from narrow_width table.entry.0.now count 0) out.old }
{
    let mut at = NO_PARENT;
    for n in 0..count {
        let end = table.parent(n);
        write_past(Ancestors { table, at, end }, n, out);
        at = n;
    }
    let end = NO_PARENT;
    write_past(Ancestors { table, at, end }, count, out);
}

// The first nine numbers of a record.
fn copy_record(table: &[u32], from: usize, out: &mut [u32], to: usize)
    requires { Carries table.now from out.old to }
    ensures { Carried table.now from to out.old out.new }
{
    out[to..to + NARROW_WIDTH].copy_from_slice(&table[from..from + NARROW_WIDTH]);
}

// The first nine numbers of each record, from records of OLD numbers to records of NEW.
// By indexes: `chunks_exact` zipped with `chunks_exact_mut` was tried, and the proof did not close: std says of `chunks_exact_mut`, as of `as_chunks_mut`, only what it lends, not what the slice is afterwards.
fn copy<const OLD: usize, const NEW: usize>(table: Table<OLD>, out: &mut [u32], count: usize)
    requires { Copies table.0.now OLD out.old NEW count }
    ensures { Copied table.entry.0.now OLD NEW count out.old out.new }
{
    for n in 0..count {
        copy_record(table.0, n * OLD, out, n * NEW);
    }
}

// The first nine numbers of each record, and 0 behind them, if the output holds so many records; the tenth ones are left.
fn lay<const OLD: usize, const NEW: usize>(
    table: Table<OLD>,
    out: &mut [u32],
    records: u32,
) -> Moved
    requires { Wholes table.0.now OLD NEW records }
    ensures { Lays table.entry.0.now OLD NEW records result out.old out.new }
{
    let count = records as usize;
    let needed = count * NEW;
    if out.len() < needed {
        return Err(refuse(ErrorKind::NodesFull, 0, out));
    }
    copy::<OLD, NEW>(table, out, count);
    ast::clear(out, needed);
    Ok(records)
}

// From nine numbers a record to ten: the tenth is the record number just past the last descendant.
pub fn widen(table: &[u32], out: &mut [u32]) -> Moved
    ensures { told result out.new ≡ widens table.now out.old }
{
    let narrow = Table::<NARROW_WIDTH>(table);
    let records = narrow.movable(out)?;
    lay::<NARROW_WIDTH, NODE_WIDTH>(narrow, out, records)?;
    write_pasts(narrow, out, records);
    Ok(records)
}

// From ten numbers a record to nine.
pub fn narrow(table: &[u32], out: &mut [u32]) -> Moved
    ensures { told result out.new ≡ narrows table.now out.old }
{
    let wide = Table::<NODE_WIDTH>(table);
    let records = wide.movable(out)?;
    if let Some(wrong) = bad_tenth(wide, records) {
        return Err(refuse(ErrorKind::NotMovable, wrong, out));
    }
    lay::<NODE_WIDTH, NARROW_WIDTH>(wide, out, records)
}

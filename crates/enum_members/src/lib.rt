// The number behind each enum member, from a node table.
#![tactic(auto)]

ghost use Rattle.std.specs.Prelude.{◌≡◌, List, set};
ghost use Rattle.lexer.specs.Refusal.{number_of};
ghost use Rattle.ast.specs.Ast.{Definition};
ghost use Rattle.records.specs.Each.{each_in};
ghost use Rattle.records.specs.Table.{File, siblings};
ghost use Rattle.enum_members.specs.Numbers.{told, listing, member_numbers};
ghost use Rattle.enum_members.specs.Walk.{at, shows, value_at, member_at, put_in, child_in, members_in, definition_in, definitions_in, refusing, finished};
ghost use Rattle.enum_members.specs.Walks.{Walks};

use ast::bump;
use ast::kind::Kind;
use lexer::error::{ErrorKind, Refusal};
use records::{Nodes, Part};

// The number that a member without its own gets, and how many members were numbered.
#[derive(Clone, Copy)]
pub struct Walk {
    pub ahead: Option<i32>,
    pub members: u32,
}

// A text and its node table, the list that is lent, and where the walk stands.
#[derive(Drop)]
struct Walker<'a> {
    text: &'a [u8],
    nodes: Nodes<'a>,
    list: &'a mut [i32],
    at: Walk,
}

// A number behind those so far, where the list holds it.
#[tactic(auto, using(crate::proofs::WalkLaws::stores))]
fn store(list: &mut [i32], at: u32, number: i32)
    ensures { list.new ≡ set list.old at number }
{
    // by an index: of a slice after its get_mut the proof knows only the length
    let i = at as usize;
    if i < list.len() {
        list[i] = number;
    }
}

// Each step leads on, or to the name of a member whose number is outside the range.
#[tactic(auto, using(crate::proofs::WalkLaws::steps))]
impl Walker<'_> {
    // The number that is written at a record.
    fn value_at(&self, n: u32) -> Option<i32>
        ensures { result ≡ value_at self.now.text.now self.now.nodes.0.now n }
    {
        let bytes = self.nodes.part(n).bytes(self.text);
        if self.nodes.kind(n) == Some(Kind::Hex) {
            number::hex(bytes)
        } else {
            number::integer(bytes)
        }
    }

    // The number of the member at a record: its own, else the one ahead.
    fn member_at(&self, n: u32) -> Option<i32>
        ensures { result ≡ member_at self.now.text.now self.now.nodes.0.now n self.now.at.ahead }
    {
        let second = self.nodes.past(bump(n));
        if self.nodes.past(n) <= second || self.nodes.kind(second) == Some(Kind::Annotations) {
            return self.at.ahead;
        }
        self.value_at(second)
    }

    // A member's number goes into the list; one outside the range leads to the member's name.
    fn put(&mut self, n: u32, number: Option<i32>) -> Result<(), Part>
        ensures { Walks (λ x w l. put_in x.nodes n number (at w l)) result self.old self.new }
    {
        let Some(number) = number else {
            return Err(self.nodes.part(bump(n)));
        };
        store(self.list, self.at.members, number);
        self.at = Walk {
            ahead: number::successor(number),
            members: bump(self.at.members),
        };
        Ok(())
    }

    // A child of an enum.
    fn number_child(&mut self, n: u32) -> Result<(), Part>
        ensures { Walks (λ x w l. child_in x.text x.nodes n (at w l)) result self.old self.new }
    {
        if self.nodes.kind(n) != Some(Kind::EnumMember) {
            return Ok(());
        }
        let number = self.member_at(n);
        self.put(n, number)
    }

    // The members of the enum at a record, behind those before.
    fn number_enum(&mut self, n: u32) -> Result<(), Part>
        ensures { Walks (λ x w. members_in x.text x.nodes n w.members) result self.old self.new }
    {
        self.at.ahead = Some(0);
        for child in self.nodes.children(n) {
            self.number_child(child)?;
        }
        Ok(())
    }

    // A definition.
    fn number_definition(&mut self, n: u32) -> Result<(), Part>
        ensures { Walks (λ x w l. definition_in x.text x.nodes n (at w l)) result self.old self.new }
    {
        if self.nodes.kind(n) != Some(Kind::Enum) {
            return Ok(());
        }
        self.number_enum(n)
    }

    // So many definitions.
    fn number_definitions(&mut self, count: u32) -> Result<(), Part>
        ensures { Walks (λ x w l. each_in (definition_in x.text x.nodes) (siblings x.nodes count 0) (at w l)) result self.old self.new }
    {
        for n in self.nodes.siblings(0, count) {
            self.number_definition(n)?;
        }
        Ok(())
    }
}

// Nothing is left in the list. Two lines, as `move_tables` has them and `reader` of its tables; what each means is said in its own terms.
#[tactic(auto, using(crate::proofs::WalkLaws::wipe_all), unfolding(lexer::specs::Refusal::said_by, crate::specs::Walk::refusing))]
fn refuse(refusal: Refusal, list: &mut [i32]) -> Result<u32, Refusal>
    ensures { told result list.new ≡ refusing (number_of refusal.kind) refusal.place refusal.length list.old }
{
    ast::clear(list, 0);
    Err(refusal)
}

// What was walked, if the list holds it.
#[tactic(auto, using(crate::proofs::WalkLaws::wipe_part), unfolding(lexer::specs::Refusal::said_by, crate::specs::Walk::finished))]
fn finish(turn: Result<(), Part>, walk: Walk, list: &mut [i32]) -> Result<u32, Refusal>
    ensures { told result list.new ≡ finished (shows turn walk list.old) }
{
    match turn {
        Err(name) => {
            let refusal = Refusal {
                kind: ErrorKind::EnumNumberOutside,
                place: name.start,
                length: name.end.saturating_sub(name.start),
            };
            refuse(refusal, list)
        }
        Ok(()) if list.len() < walk.members as usize => {
            refuse(Refusal::at(ErrorKind::NodesFull, 0), list)
        }
        Ok(()) => {
            ast::clear(list, walk.members as usize);
            Ok(walk.members)
        }
    }
}

// Numbers the members of every enum of a text, from its node table: so many records, the table may be longer. Answers how many members there are.
// On any table it walks as `definitions_in` says; on the table of a text's definitions it answers with their numbers.
pub fn number_members(
    text: &[u8],
    nodes: &[u32],
    count: u32,
    list: &mut [i32],
) -> Result<u32, Refusal>
    ensures walks { told result list.new ≡ finished (definitions_in text.now nodes.now count list.old) }
    ensures means { (ds : List Definition) → File text.now nodes.now count ds → told result list.new ≡ listing (member_numbers ds) list.old }
{
    let mut walker = Walker {
        text,
        nodes: Nodes(nodes),
        list,
        at: Walk {
            ahead: Some(0),
            members: 0,
        },
    };
    let turn = walker.number_definitions(count);
    let walk = walker.at;
    finish(turn, walk, list)
}

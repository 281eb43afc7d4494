// What C and Rust programs link: numbers and lent slices only.
#![tactic(auto)]

ghost use Rattle.std.specs.Prelude.{◌≡◌, min, length, take};
ghost use Rattle.lexer.specs.Outcome.{numbers};
ghost use Rattle.lexer.specs.Check.{checked};
ghost use Rattle.parser.specs.Read.{reading};
ghost use Rattle.writer.specs.Write.{printing};
ghost use Rattle.enum_numbers.specs.Numbering.{numbering};
ghost use Rattle.move_tables.specs.Moves.{widens, narrows};
ghost use Rattle.place.specs.Place.{place_of};
ghost use Rattle.file.specs.Run.{requests_of, memory, runs, Unaltered};
ghost use Rattle.link.specs.Told.{laid, told_numbers, three};

use lexer::error::Refusal;

// Lays the numbers of an accepted answer, or a refusal's number, place and length.
fn tell<const N: usize>(answer: &mut [u32], told: Result<[u32; N], Refusal>)
    ensures { answer.new ≡ laid (told_numbers told.entry) answer.old }
{
    match told {
        Ok(numbers) => ast::lay(answer, &numbers, 0),
        Err(refusal) => ast::lay(answer, &refusal.numbers(), 0),
    }
}

// The checks of a text before the grammar (20, 21, 22). The answer's numbers: 0, or a refusal's number, place and length.
#[unsafe(no_mangle)]
pub extern "C" fn hirvelan_check(text: &[u8], answer: &mut [u32])
    ensures { answer.new ≡ laid (numbers (checked text.now)) answer.old }
{
    let checked = lexer::check(text);
    tell(answer, checked.map(|()| [0]));
}

// Reads a text into both tables. The answer's numbers: 0 and the counts of nodes and of comments, or a refusal's number, place and length.
#[unsafe(no_mangle)]
pub extern "C" fn hirvelan_read(
    text: &[u8],
    nodes: &mut [u32],
    comments: &mut [u32],
    answer: &mut [u32],
)
    ensures { (nodes.new ≡ (reading text.now nodes.old comments.old).nodes)
        × (comments.new ≡ (reading text.now nodes.old comments.old).comments)
        × (answer.new ≡ laid (numbers (reading text.now nodes.old comments.old).says) answer.old) }
{
    let read = reader::read(text, nodes, comments);
    tell(
        answer,
        read.map(|counts| [0, counts.nodes, counts.comments]),
    );
}

// Reads a text into both tables, and lists the number of each enum member. The answer's numbers: 0 and the count of members, or a refusal's number, place and length.
#[unsafe(no_mangle)]
pub extern "C" fn hirvelan_enum_numbers(
    text: &[u8],
    nodes: &mut [u32],
    comments: &mut [u32],
    list: &mut [i32],
    answer: &mut [u32],
)
    ensures { (nodes.new ≡ (numbering text.now nodes.old comments.old list.old).nodes)
        × (comments.new ≡ (numbering text.now nodes.old comments.old list.old).comments)
        × (list.new ≡ (numbering text.now nodes.old comments.old list.old).list)
        × (answer.new ≡ laid (numbers (numbering text.now nodes.old comments.old list.old).says) answer.old) }
{
    let numbered = enum_numbers::numbers(text, nodes, comments, list);
    tell(answer, numbered.map(|members| [0, members]));
}

// Moves a stored node table from nine numbers a record to ten. The answer's numbers: 0 and the count of records, or a refusal's number, place and length.
#[unsafe(no_mangle)]
pub extern "C" fn hirvelan_widen(table: &[u32], out: &mut [u32], answer: &mut [u32])
    ensures { (out.new ≡ (widens table.now out.old).out)
        × (answer.new ≡ laid (numbers (widens table.now out.old).says) answer.old) }
{
    let moved = move_tables::widen(table, out);
    tell(answer, moved.map(|records| [0, records]));
}

// Moves a node table from ten numbers a record to nine. The answer's numbers: as of hirvelan_widen. C has a name for each direction.
#[unsafe(no_mangle)]
pub extern "C" fn hirvelan_narrow(table: &[u32], out: &mut [u32], answer: &mut [u32])
    ensures { (out.new ≡ (narrows table.now out.old).out)
        × (answer.new ≡ laid (numbers (narrows table.now out.old).says) answer.old) }
{
    let moved = move_tables::narrow(table, out);
    tell(answer, moved.map(|records| [0, records]));
}

// Where an offset of a text stands, any offset of any text. The place's numbers: line and column, from 1, and the offset, held to the text's end and to 65,536.
#[unsafe(no_mangle)]
pub extern "C" fn hirvelan_place(text: &[u8], offset: u32, place: &mut [u32])
    ensures { place.new ≡ laid (three (place_of text.now offset)) place.old }
{
    let found = place::find(text, offset);
    ast::lay(place, &[found.line, found.column, found.index], 0);
}

// Prints a text at an indent. The answer's numbers: 0, the counts of nodes and of comments and the bytes written, or a refusal's number, place and length; not by `tell`, as they have 64 bits.
#[unsafe(no_mangle)]
pub extern "C" fn hirvelan_print(
    text: &[u8],
    indent: u32,
    nodes: &mut [u32],
    comments: &mut [u32],
    out: &mut [u8],
    answer: &mut [u64],
)
    ensures { (nodes.new ≡ (printing text.now indent nodes.old comments.old out.old).nodes)
        × (comments.new ≡ (printing text.now indent nodes.old comments.old out.old).comments)
        × (out.new ≡ (printing text.now indent nodes.old comments.old out.old).output)
        × (answer.new ≡ laid (numbers (printing text.now indent nodes.old comments.old out.old).says) answer.old) }
{
    match printer::print(text, indent, nodes, comments, out) {
        Ok(print) => ast::lay(
            answer,
            &[
                0,
                u64::from(print.nodes),
                u64::from(print.comments),
                print.bytes as u64,
            ],
            0,
        ),
        Err(refusal) => {
            let [number, place, length] = refusal.numbers();
            ast::lay(
                answer,
                &[u64::from(number), u64::from(place), u64::from(length)],
                0,
            )
        }
    }
}

// Readings and printings, one after another, of one file: the first bytes of its space. The length of the file afterwards.
// A request is four numbers: 0 for a reading, else a printing; how much of both tables and of the output the call is lent.
#[unsafe(no_mangle)]
pub extern "C" fn hirvelan_run(
    space: &mut [u8],
    file: usize,
    indent: u32,
    requests: &[u32],
    nodes: &mut [u32],
    comments: &mut [u32],
    out: &mut [u8],
) -> usize
    ensures { (memory result space.new nodes.new comments.new out.new
        ≡ runs indent (requests_of requests.now) (memory (min file (length space.old)) space.old nodes.old comments.old out.old))
        × Unaltered indent (requests_of requests.now) (memory (min file (length space.old)) space.old nodes.old comments.old out.old) (take result space.new) }
{
    file::run(space, file, indent, requests, nodes, comments, out)
}

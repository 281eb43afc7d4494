// The print of functions, enum members and definitions: rico's writer/document.rs.
#![tactic(auto)]

ghost use Rattle.std.specs.Prelude.{◌≡◌, List, ℕ, eqb, ltb};
ghost use Rattle.ast.specs.KindNumber.{number_of};
ghost use Rattle.ast.specs.Records.{node_width, room};
ghost use Rattle.cursor.specs.declared.Cursor.{Cursor};
ghost use Rattle.cursor.specs.Onto.{◌⨟◌, kind_at, put_out, say_out, token_out};
ghost use Rattle.cursor.specs.Writes.{Writes};
ghost use Rattle.write_fields.specs.Onto.{typed_name_out};
ghost use Rattle.write_definitions.specs.Onto.{number, throws_out, oneway_out, function_tail_out, function_out, member_out, one_out, members_from, body_out, extends_out, keyword_out, namespace_out, const_out, line_out, block_out, definition_out, document_out};

use ast::kind::Kind;
use ast::{NODE_WIDTH, column, flag};
use cursor::Writer;

// flags stay numbers, as they add up in one of the lent table's: those of a function that is oneway and throws
const ONEWAY_THROWS: u32 = flag::ONEWAY + flag::THROWS;

fn write_throws(w: &mut Writer, flags: u32)
    ensures { Writes (λ x. throws_out x.text x.nodes x.count x.comments x.total flags) w.old w.new }
{
    if flags < flag::THROWS {
        return;
    }
    w.put(b" throws (");
    write_fields::write_params(w, true);
    w.put(b")");
}

fn write_oneway(w: &mut Writer, flags: u32)
    ensures { Writes (λ x. oneway_out flags) w.old w.new }
{
    if flags == flag::ONEWAY || flags == ONEWAY_THROWS {
        w.put(b"oneway ");
    }
}

// behind the name of a function
fn write_function_tail(w: &mut Writer, owner: u32, flags: u32)
    ensures { Writes (λ x. function_tail_out x.text x.nodes x.count x.comments x.total owner flags) w.old w.new }
{
    w.put(b"(");
    write_fields::write_params(w, false);
    w.put(b")");
    write_throws(w, flags);
    write_fields::write_annotations(w, owner);
    w.put(b"\n");
}

// write_function
fn write_function(w: &mut Writer)
    ensures { Writes (λ x. function_out x.text x.nodes x.count x.comments x.total x.indent) w.old w.new }
{
    let owner = w.at.node;
    let flags = w.number(column::FLAGS);
    w.start_line();
    write_oneway(w, flags);
    write_fields::write_typed_name(w);
    write_function_tail(w, owner, flags);
}

// the members of write_enum
fn write_member(w: &mut Writer)
    ensures { Writes (λ x. member_out x.text x.nodes x.count x.comments x.total x.indent) w.old w.new }
{
    let owner = w.at.node;
    w.start_line();
    w.put_token();
    if w.parent() != owner {
        return w.put(b",\n"); // neither a value nor annotations
    }
    write_fields::write_initializer(w, owner);
    write_fields::write_annotations(w, owner);
    w.put(b",\n");
}

// the members of one kind, each written so
fn write_members<F: Fn(&mut Writer)>(w: &mut Writer, kind: Kind, write: F)
    requires { F.IsAlwaysCallable write }
    ensures { ((s : _) (t : _) → F.post write s tt t → Writes (λ x. one_out x.text x.nodes x.count x.comments x.total x.indent (number_of kind)) s.now t.now) → Writes (λ x. members_from x.text x.nodes x.count x.comments x.total x.indent (number_of kind) x.count) w.old w.new }
{
    w.repeat(
        w.nodes.len() / NODE_WIDTH,
        |w: &Writer| -> bool
            ensures { result ≡ eqb (kind_at w.now.nodes.now (room node_width w.now.nodes.now) w.now.at.node) (number_of kind) }
        { w.is(kind) },
        write,
    );
}

// ` {`, the members each on its lines, `}`
fn write_body<F: Fn(&mut Writer)>(w: &mut Writer, kind: Kind, write: F)
    requires { F.IsAlwaysCallable write }
    ensures { ((s : _) (t : _) → F.post write s tt t → Writes (λ x. one_out x.text x.nodes x.count x.comments x.total x.indent (number_of kind)) s.now t.now) → Writes (λ x. body_out x.text x.nodes x.count x.comments x.total x.indent (number_of kind)) w.old w.new }
{
    w.put(b" {\n");
    write_members(w, kind, write);
    w.put(b"}");
}

fn write_extends(w: &mut Writer)
    ensures { Writes (λ x. extends_out x.text x.nodes x.count) w.old w.new }
{
    if w.is(Kind::Name) {
        w.put(b" extends ");
        w.put_token();
    }
}

// the keyword of a definition, and a space
fn keyword(kind: Option<Kind>) -> &'static [u8]
    ensures { (p : Cursor) (o : List ℕ) → keyword_out (number kind) p o ≡ put_out result.now p o }
{
    let Some(kind) = kind else {
        return b"service ";
    };
    match kind {
        Kind::Include => b"include ",
        Kind::CppInclude => b"cpp_include ",
        Kind::Namespace => b"namespace ",
        Kind::Const => b"const ",
        Kind::Typedef => b"typedef ",
        Kind::Enum => b"enum ",
        Kind::Struct => b"struct ",
        Kind::Union => b"union ",
        Kind::Exception => b"exception ",
        _ => b"service ",
    }
}

// namespace, behind its keyword
fn write_namespace(w: &mut Writer)
    ensures { Writes (λ x. namespace_out x.text x.nodes) w.old w.new }
{
    w.put_token();
    w.put(b" ");
    w.put_token();
    w.put(b"\n");
}

// const, behind its keyword
fn write_const(w: &mut Writer)
    ensures { Writes (λ x. const_out x.text x.nodes x.count) w.old w.new }
{
    write_fields::write_typed_name(w);
    w.put(b" = ");
    write_fields::write_value(w, parser::NESTING);
    w.put(b"\n");
}

// include, behind its keyword
fn write_include(w: &mut Writer)
    ensures { Writes (λ x. token_out x.text x.nodes ⨟ say_out "\n") w.old w.new }
{
    w.put_token();
    w.put(b"\n");
}

// typedef, behind its keyword
fn write_typedef(w: &mut Writer)
    ensures { Writes (λ x. typed_name_out x.text x.nodes x.count ⨟ say_out "\n") w.old w.new }
{
    write_fields::write_typed_name(w);
    w.put(b"\n");
}

// a definition of one line, behind its keyword
fn write_line(w: &mut Writer, kind: Option<Kind>)
    ensures { Writes (λ x. line_out x.text x.nodes x.count (number kind)) w.old w.new }
{
    let Some(kind) = kind else {
        return write_include(w);
    };
    match kind {
        Kind::Include => write_include(w),
        Kind::CppInclude => write_include(w),
        Kind::Namespace => write_namespace(w),
        Kind::Const => write_const(w),
        _ => write_typedef(w),
    }
}

// a definition with a body, between its keyword and its annotations
fn write_block(w: &mut Writer, kind: Option<Kind>)
    ensures { Writes (λ x. block_out x.text x.nodes x.count x.comments x.total x.indent (number kind)) w.old w.new }
{
    w.put_token();
    let Some(kind) = kind else {
        return write_body(w, Kind::Field, write_fields::write_field);
    };
    match kind {
        Kind::Enum => write_body(w, Kind::EnumMember, write_member),
        Kind::Service => {
            write_extends(w);
            write_body(w, Kind::Function, write_function);
        }
        _ => write_body(w, Kind::Field, write_fields::write_field),
    }
}

// a definition
fn write_definition(w: &mut Writer)
    ensures { Writes (λ x. definition_out x.text x.nodes x.count x.comments x.total x.indent) w.old w.new }
{
    let owner = w.at.node;
    let number = w.kind_number();
    let kind = w.kind();
    w.put_comments(0);
    w.pass_node();
    w.put(keyword(kind));
    // by the number: what is printed is said of those too that no kind has
    if number < u32::from(Kind::Enum) {
        return write_line(w, kind);
    }
    write_block(w, kind);
    write_fields::write_annotations(w, owner);
    w.put(b"\n");
}

// all definitions
pub fn write_document(w: &mut Writer)
    ensures { Writes (λ x. document_out x.text x.nodes x.count x.comments x.total x.indent) w.old w.new }
{
    let count = w.nodes.len() / NODE_WIDTH;
    w.repeat(
        count,
        |w: &Writer| -> bool
            ensures { result ≡ ltb w.now.at.node count }
        { (w.at.node as usize) < count },
        write_definition,
    );
}

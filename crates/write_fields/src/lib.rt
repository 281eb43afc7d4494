// The print of types, values, annotations, fields and parameters: rico's writer/types.rs, values.rs and common.rs.
#![tactic(auto)]

ghost use Rattle.std.specs.Prelude.{◌≡◌, Bool, true, false, cond, ℕ, eqb};
ghost use Rattle.ast.specs.Column as C;
ghost use Rattle.ast.specs.Kind as K;
ghost use Rattle.ast.specs.Records.{node_width, room};
ghost use Rattle.cursor.specs.Onto.{W, ◌⨟◌, kind_at, number_at, parent_at, pass_node, put_out, token_out};
ghost use Rattle.cursor.specs.Writes.{Source, source, Writes};
ghost use Rattle.cursor.specs.declared.Cursor.{Cursor};
ghost use Rattle.parser.specs.Definitions.{nesting};
ghost use Rattle.write_fields.specs.Onto.{container_out, map_type_out, type_out, comma_out, each_out, Listed, property_out, brackets_out, value_out, annotation_out, annotations_out, id_out, required_out, has_value, assigned_out, typed_name_out, field_head_out, field_out, param_out, is_of, params_out};

use ast::kind::Kind;
use ast::{NODE_WIDTH, column, flag};
use cursor::Writer;
use parser::NESTING;

// list< or set<, the contained type, >
#[cycle(types)]
fn write_container(w: &mut Writer, word: &[u8], depth: u32)
    ensures { Writes (λ x. container_out word.now (type_out x.text x.nodes x.count depth)) w.old w.new }
{
    w.pass_node();
    w.put(word);
    write_type(w, depth);
    w.put(b">");
}

// map<, both types, >
#[cycle(types)]
fn write_map_type(w: &mut Writer, depth: u32)
    ensures { Writes (λ x. map_type_out (type_out x.text x.nodes x.count depth)) w.old w.new }
{
    w.pass_node();
    w.put(b"map<");
    write_type(w, depth);
    w.put(b", "); // behind the key
    write_type(w, depth);
    w.put(b">");
}

// write_field_type, with `depth` containers left
#[cycle(types)]
fn write_type(w: &mut Writer, depth: u32)
    ensures { Writes (λ x. type_out x.text x.nodes x.count depth) w.old w.new }
{
    if depth == 0 {
        return w.put_token();
    }
    let Some(kind) = w.kind() else {
        return w.put_token();
    };
    match kind {
        Kind::List => write_container(w, b"list<", depth - 1),
        Kind::Set => write_container(w, b"set<", depth - 1),
        Kind::Map => write_map_type(w, depth - 1),
        _ => w.put_token(),
    }
}

// `, ` before each but the first
fn put_comma(w: &mut Writer, first: bool)
    ensures { Writes (λ x. comma_out first) w.old w.new }
{
    if !first {
        w.put(b", ");
    }
}

// as long as the test says yes, each written so; not by `Writer::repeat`, as the first turn puts no comma
fn write_each<T: Fn(&Writer) -> bool, F: Fn(&mut Writer)>(w: &mut Writer, test: T, write: F)
    requires callable { T.IsAlwaysCallable test × F.IsAlwaysCallable write }
    ensures { (b : Source → Cursor → Bool) (k : Source → W) (m : Source → Bool → ℕ → W) → ((x : Source) → Listed (b x) (k x) (m x)) → ((s : _) (r : _) → source s.now ≡ source w.old → T.post test s r → r ≡ b (source s.now) s.now.at) → ((s : _) (t : _) → F.post write s tt t → Writes k s.now t.now) → Writes (λ x. m x true x.count) w.old w.new }
{
    let mut first = true;
    for _ in 0..w.nodes.len() / NODE_WIDTH {
        if !test(w) {
            return;
        }
        put_comma(w, first);
        write(w);
        first = false;
    }
}

// a bracket, the children of the node ahead, a bracket
fn write_brackets<F: Fn(&mut Writer)>(w: &mut Writer, opener: &[u8], closer: &[u8], write: F)
    requires { F.IsAlwaysCallable write }
    ensures { (m : Source → W) → ((s : _) (t : _) → F.post write s tt t → Writes m s.now t.now) → Writes (λ x p. (pass_node ⨟ (put_out opener.now ⨟ (each_out x.nodes x.count p.node (m x) true x.count ⨟ put_out closer.now))) p) w.old w.new }
{
    let owner = w.at.node;
    w.pass_node();
    w.put(opener);
    write_each(
        w,
        |w: &Writer| -> bool
            ensures { result ≡ eqb (parent_at node_width w.now.nodes.now (room node_width w.now.nodes.now) w.now.at.node) owner }
        { w.parent() == owner },
        write,
    );
    w.put(closer);
}

// write_field_value, with `depth` containers left
#[cycle(values)]
pub fn write_value(w: &mut Writer, depth: u32)
    ensures { Writes (λ x. value_out x.text x.nodes x.count depth) w.old w.new }
{
    if depth == 0 {
        return w.put_token();
    }
    let Some(kind) = w.kind() else {
        return w.put_token();
    };
    match kind {
        Kind::ListValue => write_list(w, depth - 1),
        Kind::MapValue => write_map(w, depth - 1),
        _ => w.put_token(),
    }
}

// [, the elements, ]: a writer each for lists and maps, as there is a reader each
#[cycle(values)]
fn write_list(w: &mut Writer, depth: u32)
    ensures { Writes (λ x. brackets_out x.nodes x.count "[" "]" (value_out x.text x.nodes x.count depth)) w.old w.new }
{
    write_brackets(
        w,
        b"[",
        b"]",
        |w: &mut Writer|
            ensures { Writes (λ x. value_out x.text x.nodes x.count depth) w.entry.now w.exit.now }
        { write_element(w, depth) },
    );
}

// an element or a default; most are one token
#[cycle(values)]
fn write_element(w: &mut Writer, depth: u32)
    ensures { Writes (λ x. value_out x.text x.nodes x.count depth) w.old w.new }
{
    if w.is(Kind::ListValue) || w.is(Kind::MapValue) {
        return write_value(w, depth);
    }
    w.put_token();
}

// {, the properties, }
#[cycle(values)]
fn write_map(w: &mut Writer, depth: u32)
    ensures { Writes (λ x. brackets_out x.nodes x.count "{" "}" (property_out (value_out x.text x.nodes x.count depth))) w.old w.new }
{
    write_brackets(
        w,
        b"{",
        b"}",
        |w: &mut Writer|
            ensures { Writes (λ x. property_out (value_out x.text x.nodes x.count depth)) w.entry.now w.exit.now }
        { write_property(w, depth) },
    );
}

#[cycle(values)]
fn write_property(w: &mut Writer, depth: u32)
    ensures { Writes (λ x. property_out (value_out x.text x.nodes x.count depth)) w.old w.new }
{
    w.pass_node();
    write_value(w, depth);
    w.put(b": ");
    write_value(w, depth);
}

// name, ` = `, value
fn write_annotation(w: &mut Writer)
    ensures { Writes (λ x. annotation_out x.text x.nodes) w.old w.new }
{
    w.pass_node();
    w.put_token();
    w.put(b" = ");
    w.put_token();
}

// the annotations that are the next node
fn write_annotation_block(w: &mut Writer)
    ensures { Writes (λ x. brackets_out x.nodes x.count " (" ")" (annotation_out x.text x.nodes)) w.old w.new }
{
    write_brackets(w, b" (", b")", write_annotation);
}

// write_annotations, if the next node is the owner's
pub fn write_annotations(w: &mut Writer, owner: u32)
    ensures { Writes (λ x. annotations_out x.text x.nodes x.count owner) w.old w.new }
{
    if w.parent() == owner && w.is(Kind::Annotations) {
        write_annotation_block(w);
    }
}

// an id and `: `, if the next node is one
fn write_id(w: &mut Writer)
    ensures { Writes (λ x. id_out x.text x.nodes x.count) w.old w.new }
{
    if w.is(Kind::FieldId) {
        w.put_token();
        w.put(b": ");
    }
}

// flags stay numbers: they add up in one of the lent table's
fn write_required(w: &mut Writer, flags: u32)
    ensures { Writes (λ x. required_out flags) w.old w.new }
{
    match flags {
        flag::REQUIRED => w.put(b"required "),
        flag::OPTIONAL => w.put(b"optional "),
        _ => {}
    }
}

// whether the owner's next node is a value
fn has_value(w: &Writer, owner: u32) -> bool
    ensures { result ≡ has_value w.now.nodes.now (room node_width w.now.nodes.now) owner w.now.at.node }
{
    w.parent() == owner && !w.is(Kind::Annotations)
}

// ` = ` and a value, if the owner has one
fn write_default(w: &mut Writer, owner: u32)
    ensures { Writes (λ x. assigned_out x.nodes x.count owner (value_out x.text x.nodes x.count nesting)) w.old w.new }
{
    if has_value(w, owner) {
        w.put(b" = ");
        write_element(w, NESTING);
    }
}

// the same of an enum member, whose value is one token: one step apart, and rico's two places
pub fn write_initializer(w: &mut Writer, owner: u32)
    ensures { Writes (λ x. assigned_out x.nodes x.count owner (token_out x.text x.nodes)) w.old w.new }
{
    if has_value(w, owner) {
        w.put(b" = ");
        w.put_token();
    }
}

// a type that stands in no container; most are one token
fn write_outer_type(w: &mut Writer)
    ensures { Writes (λ x. type_out x.text x.nodes x.count nesting) w.old w.new }
{
    if w.is(Kind::List) || w.is(Kind::Set) || w.is(Kind::Map) {
        return write_type(w, NESTING);
    }
    w.put_token();
}

// a type, a space, a name
pub fn write_typed_name(w: &mut Writer)
    ensures { Writes (λ x. typed_name_out x.text x.nodes x.count) w.old w.new }
{
    write_outer_type(w);
    w.put(b" ");
    w.put_token();
}

// id, requiredness, type, name, default
fn write_field_head(w: &mut Writer, owner: u32, flags: u32)
    ensures { Writes (λ x. field_head_out x.text x.nodes x.count owner flags) w.old w.new }
{
    write_id(w);
    write_required(w, flags);
    write_typed_name(w);
    write_default(w, owner);
}

// write_field
pub fn write_field(w: &mut Writer)
    ensures { Writes (λ x. field_out x.text x.nodes x.count x.comments x.total x.indent) w.old w.new }
{
    let owner = w.at.node;
    let flags = w.number(column::FLAGS);
    w.start_line();
    write_field_head(w, owner, flags);
    if w.parent() != owner {
        return w.put(b",\n"); // no annotations
    }
    write_annotations(w, owner);
    w.put(b",\n");
}

// write_param: no comments, no requiredness, no annotations
fn write_param(w: &mut Writer)
    ensures { Writes (λ x. param_out x.text x.nodes x.count x.comments x.total) w.old w.new }
{
    let owner = w.at.node;
    w.pass_comments();
    w.pass_node();
    write_field_head(w, owner, 0);
    w.pass_below(owner);
}

// whether a field with these flags is thrown, or is not
fn is_of(thrown: bool, flags: u32) -> bool
    ensures { result ≡ is_of thrown flags }
{
    thrown == (flag::THROWN <= flags)
}

// the parameters of a function, or its thrown fields: `thrown` is compared with the flags, and picks no step
pub fn write_params(w: &mut Writer, thrown: bool)
    ensures { Writes (λ x. params_out x.text x.nodes x.count x.comments x.total thrown) w.old w.new }
{
    write_each(
        w,
        |w: &Writer| -> bool
            ensures { result ≡ cond (eqb (kind_at w.now.nodes.now (room node_width w.now.nodes.now) w.now.at.node) K.Field) (is_of thrown (number_at node_width w.now.nodes.now w.now.at.node C.Flags)) false }
        { w.is(Kind::Field) && is_of(thrown, w.number(column::FLAGS)) },
        write_param,
    );
}

#![tactic(auto, unfolding(definition::specs::Text::bytes))]
// The lines of a listing from the numbers that a table has for a row or an entry.
ghost use Rattle.std.specs.Prelude.{◌≡◌, ◌∷◌, [], ◌+◌};
ghost use Rattle.definition.specs.Text.{bytes};
ghost use Rattle.definition.specs.Byte.{space};
ghost use Rattle.definition.specs.Listing.{decimal, or_dash, sign_word, dots, letters, storage_word, member_line, value_line, param_line, decl_line, parted};
ghost use Rattle.words.specs.Meaning.{qualifiers_in};
ghost use Rattle.encoding.specs.Storage.{storage};
ghost use Rattle.table.specs.Reply.{declaration};
ghost use Rattle.size_align.specs.Measure.{align};
ghost use Rattle.printing.specs.Written.{Writes, WritesWords};
ghost use Rattle.line_format.specs.Parts.{size_bytes, kind_bytes, details_of, member_of, value_of, parameter_of};

use encoding::row_kinds::{
    ARRAY_KIND, BOOL_KIND, ENUM_KIND, FLOAT_KIND, FUNCTION_KIND, INT_KIND, POINTER_KIND,
    QUALIFIED_KIND, STRUCT_KIND, TYPEDEF_KIND, UNION_KIND, VOID_KIND,
};
use encoding::storage::Storage;
use printing::{Name, Writer};
use size_align::Size;
use table::{Declaration, Numbers};

// What the line of a member tells; a plain member has no width.
#[derive(Clone, Copy)]
pub struct Member {
    pub offset: u64,
    pub width: Option<u32>,
    pub bit: u64,
    pub ty: u32,
    pub name: u32,
}

// ---- words

fn sign_word(signed: bool) -> &'static str
    ensures { result.now ≡ sign_word signed }
{
    if signed { "signed" } else { "unsigned" }
}

fn dots(varargs: bool) -> &'static str
    ensures { result.now ≡ dots varargs }
{
    if varargs { "..." } else { "." }
}

#[tactic(auto, unfolding(definition::specs::Text::bytes, definition::specs::Listing::letters, words::specs::Meaning::qualifiers_in))]
fn letters(flags: u32) -> &'static str
    ensures { result.now ≡ letters (qualifiers_in flags) }
{
    match flags % 8 {
        0 => "",
        1 => "c",
        2 => "v",
        3 => "cv",
        4 => "r",
        5 => "cr",
        6 => "vr",
        _ => "cvr",
    }
}

#[tactic(auto, unfolding(definition::specs::Text::bytes, definition::specs::Listing::storage_word))]
fn storage_word(class: Storage) -> &'static str
    ensures { result.now ≡ storage_word (storage class) }
{
    match class {
        Storage::NoStorage => "none",
        Storage::Typedef => "typedef",
        Storage::Extern => "extern",
        Storage::Static => "static",
        Storage::Auto => "auto",
    }
}

#[tactic(auto, unfolding(definition::specs::Text::bytes, crate::specs::Parts::kind_bytes))]
fn kind_word(kind: u32) -> &'static str
    ensures { result.now ≡ kind_bytes kind }
{
    match kind {
        VOID_KIND => "void",
        INT_KIND => "int",
        FLOAT_KIND => "float",
        BOOL_KIND => "bool",
        POINTER_KIND => "pointer",
        ARRAY_KIND => "array",
        STRUCT_KIND => "struct",
        UNION_KIND => "union",
        ENUM_KIND => "enum",
        FUNCTION_KIND => "function",
        TYPEDEF_KIND => "typedef",
        _ => "qualified",
    }
}

fn next_size(out: &mut Writer<'_>, size: Size)
    ensures { Writes (space ∷ size_bytes size) out.old out.new }
{
    match size {
        Size::Known(s) => out.next(s),
        Size::Big => out.next("big"),
        Size::Unknown => out.next("-"),
    }
}

// ---- lines of rows

// A type line up to the alignment.
pub fn put_head(out: &mut Writer<'_>, row: u32, kind: u32, size: Size, a: Option<u64>)
    ensures { Writes (parted (bytes "type") (decimal row ∷ kind_bytes kind ∷ size_bytes size ∷ or_dash (align a) ∷ [])) out.old out.new }
{
    out.put("type");
    out.next(row);
    out.next(kind_word(kind));
    next_size(out, size);
    out.next(a);
}

// What follows the alignment.
pub fn put_details(out: &mut Writer<'_>, text: &[u8], x: Numbers)
    ensures { WritesWords (details_of text.now x) out.old out.new }
{
    let kind = x.kind;
    let target = x.target;
    let flags = x.flags;
    let name = Name { text, name: x.name };
    match kind {
        VOID_KIND | FLOAT_KIND | BOOL_KIND => {}
        INT_KIND => out.next(sign_word(flags != 0)),
        POINTER_KIND => out.next(target),
        ARRAY_KIND => {
            out.next(target);
            out.next((flags != 0).then_some(x.extent));
        }
        FUNCTION_KIND => {
            out.next((flags % 2 != 0).then_some(target));
            out.next(dots(flags / 2 != 0));
        }
        TYPEDEF_KIND => {
            out.next(target);
            out.next(name);
        }
        QUALIFIED_KIND => {
            out.next(target);
            out.next(letters(flags));
        }
        _ => out.next(name),
    }
}

// ---- lines of entries

pub fn put_member(out: &mut Writer<'_>, text: &[u8], x: Member)
    ensures { Writes (member_line text.now (member_of x)) out.old out.new }
{
    out.put("member");
    out.next(x.offset);
    out.next(x.width.and(Some(x.bit)));
    out.next(x.width);
    out.next(x.ty);
    out.next(Name { text, name: x.name });
    out.end_line();
}

pub fn put_value(out: &mut Writer<'_>, text: &[u8], value: i64, name: u32)
    ensures { Writes (value_line text.now (value_of value name)) out.old out.new }
{
    out.put("value");
    out.next(value);
    out.next(Name { text, name });
    out.end_line();
}

pub fn put_param(out: &mut Writer<'_>, text: &[u8], ty: u32, name: u32)
    ensures { Writes (param_line text.now (parameter_of ty name)) out.old out.new }
{
    out.put("param");
    out.next(ty);
    out.next(Name { text, name });
    out.end_line();
}

pub fn put_declaration(out: &mut Writer<'_>, text: &[u8], x: Declaration)
    ensures { Writes (decl_line text.now (declaration x)) out.old out.new }
{
    let class = x.storage;
    out.put("decl");
    out.next(storage_word(class));
    out.next(x.ty);
    out.next(Name { text, name: x.name });
    out.end_line();
}

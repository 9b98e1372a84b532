#![tactic(auto, using(table::proofs::Shown::held_next, table::proofs::Steps::there))]
// What a declaration leaves in the table, and what may stand after it.
ghost use Rattle.std.specs.Prelude.{◌≡◌};
ghost use Rattle.encoding.specs.Kinds.{kind_number, kind_numbers};
ghost use Rattle.definition.specs.Reader.{define_typedef, is_typedef, declared_row, declare, separated, nothing_more};
ghost use Rattle.table.specs.Held.{Held};
ghost use Rattle.table.specs.Reply.{reply, reply_alone, Does, Moves};
ghost use Rattle.encoding.specs.Storage.{storage};
ghost use Rattle.declaration_entries.specs.Pieces.{added_declaration};
ghost use Rattle.declaration_entries.specs.Tokens.{MovesBy, to, semicolon_passed};

use encoding::refusals::{Reason, Refusal};
use encoding::row_kinds::TYPEDEF_KIND;
use encoding::storage::Storage;
use encoding::token_kinds::TokenKind;
use named_rows::typedef_row;
use table::{Answer, Cursor, Declaration, Numbers, kind_at, push_declared, push_row, row_target};

// The row of a typedef. The same definition again is no change; another type is refused at the declarator's place.
pub fn define_typedef(
    w: &mut [u32],
    d: &mut [u64],
    v: &mut [i64],
    c: Cursor,
    name: u32,
    ty: u32,
    at: usize,
) -> Answer<u32>
    requires { Held c w.old d.old v.old }
    ensures { Does (define_typedef name ty at) c w.old d.old v.old (reply result) w.new d.new v.new }
{
    if let Some(n) = typedef_row(w, c, name) {
        if row_target(w, n) == ty {
            return Ok((c, n));
        }
        return Err(Refusal {
            reason: Reason::TypedefChanged,
            at,
        });
    }
    push_row(
        w,
        d,
        v,
        c,
        Numbers {
            kind: TYPEDEF_KIND,
            target: ty,
            name,
            ..Numbers::ZERO
        },
    )
}

#[tactic(auto, unfolding(definition::specs::Reader::is_typedef, definition::specs::Table::storage_number))]
pub fn is_typedef(class: Storage) -> bool
    ensures { result ≡ is_typedef (storage class) }
{
    matches!(class, Storage::Typedef)
}

// The row that a declaration shows: a typedef's own, else that of its type. `at` is where its declarator began.
pub fn declared_row(
    w: &mut [u32],
    d: &mut [u64],
    v: &mut [i64],
    c: Cursor,
    x: Declaration,
    at: usize,
) -> Answer<u32>
    requires { Held c w.old d.old v.old }
    ensures { Does (declared_row (storage x.storage) x.name x.ty at) c w.old d.old v.old (reply result) w.new d.new v.new }
{
    if is_typedef(x.storage) {
        return define_typedef(w, d, v, c, x.name, x.ty, at);
    }
    Ok((c, x.ty))
}

// The next entry of the table of declarations.
pub fn declare(
    w: &mut [u32],
    d: &mut [u64],
    v: &mut [i64],
    c: Cursor,
    x: Declaration,
) -> Result<Cursor, Refusal>
    requires { Held c w.old d.old v.old }
    ensures { Moves (declare (storage x.storage) x.ty x.name) c w.old d.old v.old (reply_alone result) w.new d.new v.new }
{
    let (e, _) = push_declared(w, d, v, c, x)?;
    Ok(e)
}

// A declarator's declaration of a type: its entry shows the row that it declares. `at` is where its declarator began.
pub fn add_declaration(
    w: &mut [u32],
    d: &mut [u64],
    v: &mut [i64],
    c: Cursor,
    x: Declaration,
    at: usize,
) -> Result<Cursor, Refusal>
    requires { Held c w.old d.old v.old }
    ensures { Moves (added_declaration (storage x.storage) x.name x.ty at) c w.old d.old v.old (reply_alone result) w.new d.new v.new }
{
    let storage = x.storage;
    let name = x.name;
    let (e, ty) = declared_row(w, d, v, c, x, at)?;
    declare(w, d, v, e, Declaration { storage, ty, name })
}

// After a declaration: its semicolon, or the end.
pub fn separated(kinds: &[TokenKind], c: Cursor) -> Result<Cursor, Refusal>
    ensures { MovesBy separated (kind_numbers kinds.now) c (reply_alone result) }
{
    if kind_at(kinds, c.at) == TokenKind::End {
        return Ok(c);
    }
    c.past(kinds, TokenKind::Semicolon)
}

// A semicolon that may stand here is passed.
pub fn optional_semicolon(kinds: &[TokenKind], c: Cursor) -> Cursor
    ensures { MovesBy semicolon_passed (kind_numbers kinds.now) c (to result) }
{
    c.past(kinds, TokenKind::Semicolon).unwrap_or(c)
}

// The tokens end here.
pub fn nothing_more(kinds: &[TokenKind], c: Cursor) -> Result<Cursor, Refusal>
    ensures { MovesBy nothing_more (kind_numbers kinds.now) c (reply_alone result) }
{
    let next = c.at;
    if kind_at(kinds, next) == TokenKind::End {
        return Ok(c);
    }
    Err(Refusal {
        reason: Reason::NotOneDeclaration,
        at: next,
    })
}

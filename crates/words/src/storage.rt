// Storage classes.
ghost use Rattle.std.specs.Prelude.{◌≡◌};
ghost use Rattle.definition.specs.Specifier.{storage_of};
ghost use Rattle.encoding.specs.Kinds.{kind_number};
ghost use Rattle.encoding.specs.Storage.{storage};

use encoding::storage::Storage;
use encoding::token_kinds::TokenKind;

// The storage that a keyword says; `register` is automatic.
#[tactic(auto, unfolding(definition::specs::Specifier::storage_of))]
pub fn storage_of(kind: TokenKind) -> Storage
    ensures { storage result ≡ storage_of (kind_number kind) }
{
    match kind {
        TokenKind::TypedefWord => Storage::Typedef,
        TokenKind::ExternWord => Storage::Extern,
        TokenKind::StaticWord => Storage::Static,
        _ => Storage::Auto,
    }
}

// The storage of a declaration, and its number.
ghost use Rattle.std.specs.Prelude.{◌≡◌};
ghost use Rattle.definition.specs.Table.{storage_number};
ghost use Rattle.encoding.specs.Storage.{storage, storage_numbered};

#[derive(Clone, Copy, PartialEq, Eq)]
pub enum Storage {
    NoStorage,
    Typedef,
    Extern,
    Static,
    Auto,
}

// Its number in the table of declarations.
impl From<Storage> for u32 {
    ghost from_gives = { λ class number. number ≡ storage_number (storage class) };

    #[tactic(auto, unfolding(definition::specs::Table::storage_number))]
    fn from(class: Storage) -> u32 {
        match class {
            Storage::NoStorage => 0,
            Storage::Typedef => 1,
            Storage::Extern => 2,
            Storage::Static => 3,
            Storage::Auto => 4,
        }
    }
}

// The storage of a number from the table.
impl From<u32> for Storage {
    ghost from_gives = { λ number class. storage class ≡ storage_numbered number };

    #[tactic(auto, unfolding(crate::specs::Storage::storage_numbered))]
    fn from(number: u32) -> Storage {
        match number {
            0 => Storage::NoStorage,
            1 => Storage::Typedef,
            2 => Storage::Extern,
            3 => Storage::Static,
            _ => Storage::Auto,
        }
    }
}

#![tactic(auto)]
// Data models, and the limits of the reader.
ghost use Rattle.std.specs.Prelude.{◌≡◌};
ghost use Rattle.definition.specs.Model.{lp64, ilp32, llp64, model_of};
ghost use Rattle.model.specs.Limits.{sizes, levels};
ghost use Rattle.model.specs.Meaning.{model, model_found};

// The eleven numbers: sizes in bytes, and the largest alignment of a scalar.
#[derive(Clone, Copy)]
pub struct Model {
    pub char_signed: bool,
    pub short: u64,
    pub int: u64,
    pub long: u64,
    pub long_long: u64,
    pub pointer: u64,
    pub float: u64,
    pub double: u64,
    pub long_double: u64,
    pub max_align: u64,
    pub enum_size: u64,
}

impl Model {
    // The numbers of the models.
    pub const LP64: u32 = 0;

    pub const ILP32: u32 = 1;

    pub const LLP64: u32 = 2;

    // The limits of a text and its tables.
    pub const MAX_TEXT: usize = 32768;

    pub const MAX_ROWS: usize = 1024;

    pub const MAX_DECLARATIONS: usize = 1024;

    pub const MAX_MEMBERS: usize = 4096;

    pub const MAX_VALUES: usize = 4096;

    pub const MAX_PARAMETERS: usize = 4096;

    pub const MAX_STEPS: usize = 256;

    pub const MAX_NAMES: usize = 16384;

    pub const MAX_DEPTH: u32 = 64;

    pub const MAX_RESOLVE: u32 = 64;

    pub const ALIGN_LEVELS: u32 = 33;

    // That each limit is the definition's: of tables and texts, then of depths.
    pub fn sizes() -> [usize; 8]
        ensures { result ≡ sizes }
    {
        [
            Model::MAX_TEXT,
            Model::MAX_ROWS,
            Model::MAX_DECLARATIONS,
            Model::MAX_MEMBERS,
            Model::MAX_VALUES,
            Model::MAX_PARAMETERS,
            Model::MAX_STEPS,
            Model::MAX_NAMES,
        ]
    }

    pub fn levels() -> [u32; 3]
        ensures { result ≡ levels }
    {
        [Model::MAX_DEPTH, Model::MAX_RESOLVE, Model::ALIGN_LEVELS]
    }

    // Linux, macOS and the BSDs on a 64-bit machine.
    #[tactic(auto, unfolding(definition::specs::Model::lp64))]
    pub fn lp64() -> Model
        ensures { model result ≡ lp64 }
    {
        Model {
            char_signed: true,
            short: 2,
            int: 4,
            long: 8,
            long_long: 8,
            pointer: 8,
            float: 4,
            double: 8,
            long_double: 16,
            max_align: 16,
            enum_size: 4,
        }
    }

    // 32-bit x86 and ARM.
    #[tactic(auto, unfolding(definition::specs::Model::ilp32))]
    pub fn ilp32() -> Model
        ensures { model result ≡ ilp32 }
    {
        Model {
            char_signed: true,
            short: 2,
            int: 4,
            long: 4,
            long_long: 8,
            pointer: 4,
            float: 4,
            double: 8,
            long_double: 12,
            max_align: 4,
            enum_size: 4,
        }
    }

    // 64-bit Windows.
    #[tactic(auto, unfolding(definition::specs::Model::llp64))]
    pub fn llp64() -> Model
        ensures { model result ≡ llp64 }
    {
        Model {
            char_signed: true,
            short: 2,
            int: 4,
            long: 4, // as `int`
            long_long: 8,
            pointer: 8,
            float: 4,
            double: 8,
            long_double: 8,
            max_align: 8,
            enum_size: 4,
        }
    }

    // The model of a number, if it has one.
    #[tactic(auto, unfolding(definition::specs::Model::model_of))]
    pub fn numbered(n: u32) -> Option<Model>
        ensures { model_found result ≡ model_of n }
    {
        match n {
            Model::LP64 => Some(Model::lp64()),
            Model::ILP32 => Some(Model::ilp32()),
            Model::LLP64 => Some(Model::llp64()),
            _ => None,
        }
    }
}

//! Why bytes are no hierarchy file.

ghost use Rattle.std.specs.Prelude.{◌≡◌};

use ept_json::JsonError;
use ept_point::Memory;

/// Why bytes are no hierarchy file.
#[derive(Clone, Copy, Debug, PartialEq, Eq)]
pub enum HierError {
    /// The bytes are not the text of a JSON object.
    Json,
    /// The bytes are the text of a JSON object, but one of its names is not the text of a key.
    Key,
    /// Each name is the text of a key, but a value is not a whole number of 64 bits from -1 up.
    Count,
    /// Memory ran out.
    Memory,
}

impl From<JsonError> for HierError {
    ghost use Rattle.ept_hier.specs.Objects.{of_json};

    ghost from_gives = { λ error e. e ≡ of_json error };

    fn from(error: JsonError) -> HierError {
        match error {
            JsonError::NoText => HierError::Json,
            JsonError::Memory => HierError::Memory,
        }
    }
}

impl From<Memory> for HierError {
    ghost use Rattle.ept_hier.specs.declared.hier_error.HierError.TheVariants.{Memory};

    ghost from_gives = { λ _ e. e ≡ Memory };

    fn from(_error: Memory) -> HierError {
        HierError::Memory
    }
}

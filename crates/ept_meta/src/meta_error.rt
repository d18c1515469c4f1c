//! Why bytes are no build file.

ghost use Rattle.std.specs.Prelude.{◌≡◌};

use ept_config_text::ConfigError;
use ept_json::JsonError;
use ept_point::Memory;

/// Why bytes are no build file.
#[derive(Clone, Copy, Debug, PartialEq, Eq)]
pub enum MetaError {
    /// The bytes are not the build file of any configuration.
    Form,
    /// Memory ran out.
    Memory,
}

impl From<JsonError> for MetaError {
    ghost use Rattle.ept_meta.specs.BuildReading.{of_json};

    ghost from_gives = { λ error e. e ≡ of_json error };

    fn from(error: JsonError) -> MetaError {
        match error {
            JsonError::NoText => MetaError::Form,
            JsonError::Memory => MetaError::Memory,
        }
    }
}

/// A value that is refused as a configuration is no build file, whatever the cause.
impl From<ConfigError> for MetaError {
    ghost use Rattle.ept_meta.specs.BuildReading.{of_config};

    ghost from_gives = { λ error e. e ≡ of_config error };

    fn from(error: ConfigError) -> MetaError {
        match error {
            ConfigError::Memory => MetaError::Memory,
            _ => MetaError::Form,
        }
    }
}

impl From<Memory> for MetaError {
    ghost use Rattle.ept_meta.specs.declared.meta_error.MetaError.TheVariants.{Memory};

    ghost from_gives = { λ _ e. e ≡ Memory };

    fn from(_error: Memory) -> MetaError {
        MetaError::Memory
    }
}

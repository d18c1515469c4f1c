//! Why a text is no configuration.

use crate::config_key::ConfigKey;
use ept_json::JsonError;
use std::alloc::{AllocError, AllocFailed};

/// Why a text is no configuration. A text is refused for one cause: the first in the order in which `read_config`
/// checks.
#[derive(Clone, Copy, Debug, PartialEq, Eq)]
pub enum ConfigError {
    /// The bytes are no JSON text.
    Json,
    /// A key is not one of a configuration's keys.
    Unknown,
    /// A required key is missing.
    Missing { key: ConfigKey },
    /// The value of a key has the wrong type.
    Kind { key: ConfigKey },
    /// The value of a key has the right type and is out of its range.
    Range { key: ConfigKey },
    /// Fewer nodes may be kept in memory than there are threads.
    Threads,
    /// The text is longer than `MAX_LENGTH` bytes.
    Long,
    /// Memory ran out.
    Memory,
}

impl From<JsonError> for ConfigError {
    ghost use Rattle.std.specs.Prelude.{◌≡◌};
    ghost use Rattle.ept_config_text.specs.Refusals.{of_json};

    ghost from_gives = { λ error e. e ≡ of_json error };

    fn from(error: JsonError) -> ConfigError {
        match error {
            JsonError::NoText => ConfigError::Json,
            JsonError::Memory => ConfigError::Memory,
        }
    }
}

impl From<AllocError> for ConfigError {
    ghost use Rattle.std.specs.Prelude.{◌≡◌};
    ghost use Rattle.ept_config_text.specs.declared.config_error.ConfigError.TheVariants.{Memory};

    ghost from_gives = { λ _ e. e ≡ Memory };

    fn from(_error: AllocError) -> ConfigError {
        ConfigError::Memory
    }
}

impl<T: Drop> From<AllocFailed<T>> for ConfigError {
    ghost use Rattle.std.specs.Prelude.{◌≡◌};
    ghost use Rattle.ept_config_text.specs.declared.config_error.ConfigError.TheVariants.{Memory};

    ghost from_gives = { λ _ e. e ≡ Memory };

    fn from(_error: AllocFailed<T>) -> ConfigError {
        ConfigError::Memory
    }
}

impl ConfigError {
    ghost use Rattle.std.specs.Prelude.{◌≡◌};
    ghost use Rattle.ept_config_text.specs.Refusals.{code_of, key_of, key_text_of};

    /// The number of the cause, from 1.
    pub fn code(self) -> u8
        ensures number { result ≡ code_of self }
    {
        match self {
            ConfigError::Json => 1,
            ConfigError::Unknown => 2,
            ConfigError::Missing { .. } => 3,
            ConfigError::Kind { .. } => 4,
            ConfigError::Range { .. } => 5,
            ConfigError::Threads => 6,
            ConfigError::Long => 7,
            ConfigError::Memory => 8,
        }
    }

    /// The key that the cause names, if it names one.
    pub fn key(self) -> Option<ConfigKey>
        ensures key { result ≡ key_of self }
    {
        match self {
            ConfigError::Missing { key } | ConfigError::Kind { key } | ConfigError::Range { key } =>
                Some(key),
            _ => None,
        }
    }

    /// The name of that key, or `-` if there is none.
    pub fn key_text(self) -> &'static str
        ensures text { result.now ≡ key_text_of self }
    {
        match self.key() {
            Some(key) => key.name(),
            None => "-",
        }
    }
}

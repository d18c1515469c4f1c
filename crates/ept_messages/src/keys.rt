//! The keys of a configuration, and what their values must be.

use ept_config_text::ConfigKey;
use ept_meta::Field;

/// What type the value of this key must have. Of an input it says all that its object may have.
pub(crate) fn type_of(key: ConfigKey) -> &'static str {
    match key {
        ConfigKey::Input =>
            "a path, or a list of paths and objects. An object has a `path` (a text) and may only add `scale` (a whole number), `shift` (three whole numbers) and `expect` (96 lower-case hexadecimal digits)",
        _ => range_of(key),
    }
}

/// What the value of this key must be: its type and its range, and of an input the range alone.
pub(crate) fn range_of(key: ConfigKey) -> &'static str {
    match key {
        ConfigKey::Top => "an object",
        ConfigKey::Input => {
            "1 to 65535 inputs. A path has 1 to 4096 bytes, none of them a control byte. A `scale` is from 0 to that of the configuration, and each number of a `shift` from -1000000000000000 to 1000000000000000"
        }
        ConfigKey::Scale => "a whole number from 0 to 9",
        ConfigKey::Offset => "three whole numbers, each from -1000000000 to 1000000000",
        ConfigKey::Bounds => {
            "six whole numbers of 32 bits, the least x, y and z and then the greatest"
        }
        ConfigKey::Span => "a power of two from 2 to 1024",
        ConfigKey::MinNodeSize => "a whole number from 0 to 2147483648",
        ConfigKey::MaxDepth | ConfigKey::HierarchyStep => "a whole number from 0 to 32",
        ConfigKey::Srs => {
            "an object of texts `authority`, `horizontal`, `vertical`, `wkt`, each of at most 65536 bytes, without control bytes"
        }
        ConfigKey::FirstClasses =>
            "a list of classes, each a whole number from 0 to 255, none twice",
        ConfigKey::WithheldLast => "`true` or `false`",
        ConfigKey::Threads => "a whole number from 1 to 64",
        ConfigKey::CacheSize | ConfigKey::MaxNodes => "a whole number from 1 to 1048576",
        ConfigKey::Checkpoint => "a whole number from 1 to 1099511627776",
    }
}

/// The keys of a configuration.
pub(crate) const KEYS: [ConfigKey; 15] = [
    ConfigKey::Input,
    ConfigKey::Scale,
    ConfigKey::Offset,
    ConfigKey::Bounds,
    ConfigKey::Span,
    ConfigKey::MinNodeSize,
    ConfigKey::MaxDepth,
    ConfigKey::HierarchyStep,
    ConfigKey::Srs,
    ConfigKey::FirstClasses,
    ConfigKey::WithheldLast,
    ConfigKey::Threads,
    ConfigKey::CacheSize,
    ConfigKey::MaxNodes,
    ConfigKey::Checkpoint,
];

/// The key of a configuration that a field of the build file comes from.
pub(crate) fn key_of(field: Field) -> ConfigKey {
    match field {
        Field::Scale => ConfigKey::Scale,
        Field::Offset => ConfigKey::Offset,
        Field::Bounds => ConfigKey::Bounds,
        Field::Span => ConfigKey::Span,
        Field::MinNodeSize => ConfigKey::MinNodeSize,
        Field::MaxDepth => ConfigKey::MaxDepth,
        Field::HierarchyStep => ConfigKey::HierarchyStep,
        Field::Srs => ConfigKey::Srs,
        Field::FirstClasses => ConfigKey::FirstClasses,
        Field::WithheldLast => ConfigKey::WithheldLast,
        Field::Input => ConfigKey::Input,
    }
}

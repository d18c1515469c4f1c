//! The keys of a configuration.

/// A key of a configuration, or the configuration as a whole.
#[derive(Clone, Copy, Debug, PartialEq, Eq)]
pub enum ConfigKey {
    /// The configuration as a whole.
    Top,
    Input,
    Scale,
    Offset,
    Bounds,
    Span,
    MinNodeSize,
    MaxDepth,
    HierarchyStep,
    Srs,
    FirstClasses,
    WithheldLast,
    Threads,
    CacheSize,
    MaxNodes,
    Checkpoint,
}

impl ConfigKey {
    ghost use Rattle.std.specs.Prelude.{◌≡◌};
    ghost use Rattle.ept_config_text.specs.Keys.{name_of};

    /// The key as a configuration spells it, and `top` for the whole.
    pub fn name(self) -> &'static str
        ensures name { result.now ≡ name_of self }
    {
        match self {
            ConfigKey::Top => "top",
            ConfigKey::Input => "input",
            ConfigKey::Scale => "scale",
            ConfigKey::Offset => "offset",
            ConfigKey::Bounds => "bounds",
            ConfigKey::Span => "span",
            ConfigKey::MinNodeSize => "minNodeSize",
            ConfigKey::MaxDepth => "maxDepth",
            ConfigKey::HierarchyStep => "hierarchyStep",
            ConfigKey::Srs => "srs",
            ConfigKey::FirstClasses => "firstClasses",
            ConfigKey::WithheldLast => "withheldLast",
            ConfigKey::Threads => "threads",
            ConfigKey::CacheSize => "cacheSize",
            ConfigKey::MaxNodes => "maxNodes",
            ConfigKey::Checkpoint => "checkpoint",
        }
    }
}

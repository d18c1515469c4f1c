//! What a body states of the configuration.

ghost use Rattle.ept_ckpt.specs.SettingRanges.{SettingsInRange};
ghost use Rattle.std.proofs.Props.{props};

use ept_config::Srs;
use ept_space::Bounds;

/// What is kept of the configuration except the inputs.
#[derive(Drop)]
pub(crate) struct Settings {
    pub(crate) scale: u8,
    pub(crate) s: u8,
    pub(crate) max_depth: u8,
    pub(crate) step: u8,
    pub(crate) threshold: u64,
    pub(crate) offset: [i64; 3],
    pub(crate) bounds: Bounds,
    pub(crate) srs: Srs,
    pub(crate) ghost in_range: { SettingsInRange scale s max_depth step threshold offset bounds } by { Prim.hlevel props },
}

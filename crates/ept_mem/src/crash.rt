/// What a crash makes of each name that was put or removed since the last sync.
#[derive(Clone, Copy, Debug, PartialEq, Eq)]
pub enum Crash {
    /// It reads as it was flushed.
    Old,
    /// It reads as it was put; if it was removed, it is missing.
    New,
    /// It is missing.
    Absent,
    /// It reads as the one byte 255. That is neither the byte 0 nor the byte 1, and no UTF-8 text. Whole points never
    /// have that length.
    Junk,
}

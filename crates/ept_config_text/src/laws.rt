//! When each refusal is returned. Each law is the contract of a function that does nothing.

ghost use Rattle.ept_config_text.specs.Laws.{LongWhereLonger, JsonWhereNoValue, TopWhereNoObject, UnknownWhereAnotherKey, MissesInputWhereAbsent, MissesScaleWhereAbsent, ThreadsWhereFewerNodes, AcceptedHasEnoughNodes};

/// `Long` is returned if and only if the text is longer than 16,777,216 bytes. `Json` is returned if and only if the
/// text is not longer and is not that of a JSON value.
pub fn text_law()
    ensures long { LongWhereLonger }
    ensures json { JsonWhereNoValue }
{}

/// `Kind` of the whole is returned if and only if the value is no object. `Unknown` is returned if and only if it is an
/// object with another key.
pub fn object_law()
    ensures top { TopWhereNoObject }
    ensures unknown { UnknownWhereAnotherKey }
{}

/// `Missing` for `input` is returned if and only if `input` is missing from an object with known keys. `Missing` for
/// `scale` is returned if and only if `scale` is missing and `input` is there.
pub fn required_law()
    ensures input { MissesInputWhereAbsent }
    ensures scale { MissesScaleWhereAbsent }
{}

/// `Threads` is returned if and only if all else is accepted and `cacheSize` is below `threads`.
pub fn threads_law()
    ensures refused { ThreadsWhereFewerNodes }
    ensures accepted { AcceptedHasEnoughNodes }
{}

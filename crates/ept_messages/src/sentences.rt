//! The sentence of each failure: what was wrong, in words, each file by its path.

use crate::keys::{key_of, range_of, type_of};
use ept_check::{CheckError, Fault};
use ept_ckpt::Letter;
use ept_command::{MergeRefusal, PartRefusal, Refusal};
use ept_config::MAX_POINTS;
use ept_config_text::{ConfigError, ConfigKey, MAX_LENGTH};
use ept_las::LasError;
use ept_meta::Field;
use ept_part::has_octant;
use ept_point::PointNumber;
use ept_query::{QueryError, QueryFile};
use ept_space::Key;
use std::alloc::AllocError;
use std::fmt;
use std::fmt::Write;

/// What is written if the words are no command: the commands, a line each.
const USAGE: &str = "usage:
  build CONFIG OUT
  part CONFIG OUT OCTANTS
  merge CONFIG OUT OCTANTS ..
  query OUT BOX DEPTHS
  select OUT BOX DEPTHS CLASSES TIME DIMS
  check OUT
  info LAS
  trial N WORKERS CACHE";

/// What is written if there is no memory, not even for a sentence.
pub const OUT_OF_MEMORY: &str = "out of memory";

// What to do if a spill file is damaged.
const SPILL_ADVICE: &str = "run the same build again, or with a greater `cacheSize`";

/// The bounds that each record of a build, a part or a merge has to be in.
#[derive(Clone, Copy, Debug)]
pub(crate) enum Limits {
    /// Those of the configuration.
    Given,
    /// Those that the folder keeps from its first build.
    Kept,
    /// All stored coordinates of 32 bits.
    Widest,
}

/// The files and the key that a sentence may name. A path that is not needed is empty.
#[derive(Clone, Copy, Debug, Default)]
pub(crate) struct Names<'a> {
    /// The configuration of a build, a part or a merge.
    pub(crate) config: &'a str,
    /// The folder of a build, a part, a merge, a query, a selection or a check.
    pub(crate) out: &'a str,
    /// Whether that folder exists.
    pub(crate) has_out: bool,
    /// Whether the command continues from the checkpoint of that folder, as a build does.
    pub(crate) continues: bool,
    /// The input that the failure names.
    pub(crate) input: &'a str,
    /// The bounds of the inputs, if they are known.
    pub(crate) limits: Option<Limits>,
    /// The key in the configuration that it may not have, if it is known.
    pub(crate) unknown: Option<&'a str>,
    /// The file that could not be opened or read, if it is known.
    pub(crate) unread: Option<&'a str>,
    /// Whether that file exists.
    pub(crate) has_unread: bool,
}

/// Writes the sentence of a refusal.
pub(crate) fn write_refusal(
    text: &mut String,
    refusal: &Refusal,
    names: &Names<'_>,
) -> Result<(), AllocError> {
    let Names {
        config,
        out,
        input,
        ..
    } = *names;
    match *refusal {
        Refusal::Usage => text.push_str(USAGE),
        Refusal::BadConfiguration(error) => write_configuration(text, error, names),
        Refusal::BadLas { fault, .. } => write_las(text, fault, input),
        Refusal::OutOfBounds { number, .. } => write_bounds(text, number, names),
        Refusal::NoBounds => write!(text, "{config} has no `bounds`, and no input has a point"),
        Refusal::SourceChanged { number, .. } => write_changed(text, number, input),
        Refusal::TooManyPoints { .. } => write!(
            text,
            "{input} states more than {MAX_POINTS} points"
        ),
        Refusal::TooManyNodes => {
            write!(
                text,
                "the octree has more nodes than `maxNodes` of {config} allows"
            )
        }
        Refusal::Differs { field } => write_field(text, field, names),
        Refusal::BadCheckpoint { letter } => write_checkpoint(text, letter, out),
        Refusal::TileDamaged { key } => write_tile(text, &key, out),
        Refusal::SourceFault => write_unread(text, names),
        Refusal::StoreFault | Refusal::SpillFault if !names.has_out => {
            write!(text, "{out} could not be created")
        }
        Refusal::StoreFault => {
            write!(
                text,
                "a file of {out} could not be read, written or flushed"
            )
        }
        Refusal::SpillFault => write!(
            text,
            "a spill file in {out}/ept-spill failed: its disk may be full, it may not be writable, or memory may have run out"
        ),
        Refusal::SpillDamaged => write!(
            text,
            "a spill file of {out} returned other bytes than were written: {SPILL_ADVICE}"
        ),
        Refusal::Memory => text.push_str(OUT_OF_MEMORY),
    }
}

/// Writes the sentence of a part, or a merge, whose root has no octants.
pub(crate) fn write_shallow(text: &mut String, config: &str) -> Result<(), AllocError> {
    write!(
        text,
        "the octree of {config} has the root alone, which has no octants: build it whole, or give it a greater `maxDepth` or a smaller `span`"
    )
}

/// Writes the sentence of parts that are not merged.
pub(crate) fn write_merge(
    text: &mut String,
    refusal: &MergeRefusal,
    names: &Names<'_>,
) -> Result<(), AllocError> {
    let Names { config, out, .. } = *names;
    match *refusal {
        MergeRefusal::AsPart(PartRefusal::AsBuild(cause)) => write_refusal(text, &cause, names),
        MergeRefusal::AsPart(PartRefusal::Shallow) => write_shallow(text, config),
        MergeRefusal::HasCheckpoint => write!(
            text,
            "{out} has a checkpoint: run `build {config} {out}`, which continues from it"
        ),
        MergeRefusal::NoPart { octants } => {
            let octants = Octants(octants);
            write!(
                text,
                "the part {octants} of {out} is missing or was not finished: run `part {config} {out} {octants}`"
            )
        }
        MergeRefusal::PartDiffers { octants } => {
            let octants = Octants(octants);
            write!(
                text,
                "the part {octants} of {out} was made with another configuration than {config}, or of other inputs: run `part {config} {out} {octants}`"
            )
        }
        MergeRefusal::PartDamaged { octants, key } => write_damaged(text, octants, key, names),
    }
}

// Writes the sentence of a part that is damaged: the tile of a key, or its body, or all bodies together.
fn write_damaged(
    text: &mut String,
    octants: u8,
    key: Option<Key>,
    names: &Names<'_>,
) -> Result<(), AllocError> {
    let Names { config, out, .. } = *names;
    let octants = Octants(octants);
    match key {
        Some(key) => {
            text.push_str("the tile of ")?;
            write_text(text, &key)?;
            write!(
                text,
                " in the part {octants} of {out} is missing or damaged"
            )?;
        }
        None => write!(
            text,
            "the body of the part {octants} of {out} is missing or damaged, or the parts do not fit together"
        )?,
    }
    write!(text, ": run `part {config} {out} {octants}`")
}

// Octants, as words list them.
#[derive(Clone, Copy)]
struct Octants(u8);

impl fmt::Display for Octants {
    fn fmt<W: fmt::Write>(&self, f: &mut fmt::Formatter<W>) -> fmt::Result {
        let mut separator = "";
        for octant in 0..8 {
            if has_octant(self.0, octant) {
                f.write_str(separator)?;
                octant.fmt(f)?;
                separator = ",";
            }
        }
        Ok(())
    }
}

// Writes the sentence of a configuration that is refused.
fn write_configuration(
    text: &mut String,
    error: ConfigError,
    names: &Names<'_>,
) -> Result<(), AllocError> {
    let Names {
        config,
        unknown,
        ..
    } = *names;
    match error {
        ConfigError::Json => write!(text, "{config} is not a JSON text"),
        ConfigError::Unknown => write_unknown(text, unknown, config),
        ConfigError::Missing { key } => write!(text, "{config} lacks the key `{}`", key.name()),
        ConfigError::Kind {
            key: ConfigKey::Top,
        } => write!(text, "{config} is not a JSON object"),
        ConfigError::Kind { key } => {
            let name = key.name();
            let wanted = type_of(key);
            write!(
                text,
                "`{name}` in {config} has the wrong type: expected {wanted}"
            )
        }
        ConfigError::Range { key } => {
            let name = key.name();
            let wanted = range_of(key);
            write!(
                text,
                "`{name}` in {config} is out of range: expected {wanted}"
            )
        }
        ConfigError::Threads => write!(text, "`cacheSize` is below `threads` in {config}"),
        ConfigError::Long => write!(text, "{config} has more than {MAX_LENGTH} bytes"),
        ConfigError::Memory => text.push_str(OUT_OF_MEMORY),
    }
}

// Writes the sentence of a key that a configuration may not have.
fn write_unknown(text: &mut String, unknown: Option<&str>, config: &str) -> Result<(), AllocError> {
    match unknown {
        Some(key) => write!(text, "{config} has the unknown key {key:?}"),
        None => write!(text, "{config} has an unknown key"),
    }
}

// Writes the sentence of a LAS file that is refused.
fn write_las(text: &mut String, fault: LasError, file: &str) -> Result<(), AllocError> {
    let (before, after) = around_file(fault);
    write!(text, "{before}{file}{after}")?;
    if let LasError::Truncated { number } = fault {
        write!(text, "{number}")?;
    }
    Ok(())
}

// What is written of a fault of a LAS file, before its path and after it. If the file ends early, the number of a
// record follows.
fn around_file(fault: LasError) -> (&'static str, &'static str) {
    match fault {
        LasError::Short => ("", " is shorter than a LAS header"),
        LasError::Signature => ("", " does not begin with `LASF`"),
        LasError::Version => ("", " is not LAS 1.2, 1.3 or 1.4"),
        LasError::HeaderSize => ("the header of ", " is shorter than its version asks for"),
        LasError::Compressed => ("the points of ", " are compressed, as in LAZ"),
        LasError::Format => ("the point format of ", " is not 0, 1, 2, 3, 6 or 7"),
        LasError::RecordLength => ("the records of ", " are shorter than their format asks for"),
        LasError::PointOffset => ("the points of ", " begin within its header"),
        LasError::Expect => ("the scales and offsets of ", " are not those of `expect`"),
        LasError::Truncated { .. } => ("", " ends before the last byte of record "),
    }
}

// Writes the sentence of a record that is not within the bounds. What does not fit in 32 bits is outside all bounds.
fn write_bounds(
    text: &mut String,
    number: PointNumber,
    names: &Names<'_>,
) -> Result<(), AllocError> {
    let Names {
        out,
        input,
        limits,
        ..
    } = *names;
    write!(text, "record {number} of {input} ")?;
    match limits {
        Some(Limits::Given) => text.push_str("lies outside the bounds"),
        Some(Limits::Kept) => write!(
            text,
            "lies outside the bounds that {out} keeps from its first build: build into a new folder"
        ),
        Some(Limits::Widest) => {
            text.push_str("has a stored coordinate that does not fit in 32 bits")
        }
        None => text.push_str(
            "lies outside the bounds, or has a stored coordinate that does not fit in 32 bits",
        ),
    }
}

// Writes the sentence of an input that has changed. Record 0 also means its header.
fn write_changed(text: &mut String, number: PointNumber, input: &str) -> Result<(), AllocError> {
    write!(text, "{input} has changed since it was scanned")?;
    if number > 0 {
        write!(text, ", at record {number}")?;
    }
    Ok(())
}

// Writes the sentence of a field that differs, if its values are not known.
fn write_field(text: &mut String, field: Field, names: &Names<'_>) -> Result<(), AllocError> {
    let Names { config, out, .. } = *names;
    match field {
        Field::Input => write!(
            text,
            "the inputs of {config} do not begin with those that {out} was built with"
        ),
        _ => {
            let name = key_of(field).name();
            write!(
                text,
                "{out} was built with another `{name}` than that of {config}"
            )
        }
    }
}

// Writes the sentence of the body of a checkpoint. If both bodies have one generation, that of b is named.
fn write_checkpoint(text: &mut String, letter: Letter, out: &str) -> Result<(), AllocError> {
    match letter {
        Letter::A => write!(text, "`ept-work/body-a` in {out} is missing or damaged"),
        Letter::B => write!(
            text,
            "`ept-work/body-b` in {out} is missing or damaged, or has the same generation as `ept-work/body-a`"
        ),
    }
}

// Writes the sentence of a saved tile.
fn write_tile(text: &mut String, key: &Key, out: &str) -> Result<(), AllocError> {
    text.push_str("the saved tile of ")?;
    write_text(text, key)?;
    write!(text, " in {out} is missing or damaged")
}

// Writes the text of a key.
fn write_text(text: &mut String, key: &Key) -> Result<(), AllocError> {
    write!(text, "{}-{}-{}-{}", key.depth, key.x, key.y, key.z)
}

// Writes the sentence of a file that could not be opened or read.
fn write_unread(text: &mut String, names: &Names<'_>) -> Result<(), AllocError> {
    match names.unread {
        None => text.push_str("a file could not be read"),
        Some(file) if names.has_unread => write!(text, "{file} could not be read"),
        Some(file) => write!(text, "{file} does not exist"),
    }
}

/// Writes the sentence of a dataset in this folder that is not the sampling of its own points.
pub(crate) fn write_unfit(
    text: &mut String,
    key: &Key,
    why: Fault,
    out: &str,
) -> Result<(), AllocError> {
    text.push_str("the node ")?;
    write_text(text, key)?;
    let fault = fault_text(why);
    write!(
        text,
        " of {out} {fault}: restore {out} from a copy, or build it again in an empty folder"
    )
}

// What is wrong with a node.
fn fault_text(why: Fault) -> &'static str {
    match why {
        Fault::Orphan => "has no parent in the hierarchy",
        Fault::Outside => "has a point outside its box",
        Fault::OpenLoser => "has a point that belongs in a node below it",
        Fault::TooMany =>
            "has more points for one octant than `minNodeSize` allows, and no child there",
        Fault::Above => "has a point that belongs in a node above it",
        Fault::Few =>
            "has a child of no more points than `minNodeSize`, which belong in the node itself",
        Fault::Empty => "has no point",
        Fault::Twice => "has a point that another node has too",
    }
}

/// Writes the sentence of a check that is refused.
pub(crate) fn write_check(
    text: &mut String,
    error: CheckError,
    names: &Names<'_>,
) -> Result<(), AllocError> {
    match error {
        CheckError::NotComplete => write_query(text, QueryError::NotComplete, names),
        CheckError::StoreFault => write_query(text, QueryError::StoreFault, names),
        CheckError::Damaged { file } => {
            let out = names.out;
            write_query(text, QueryError::Damaged { file }, names)?;
            write!(
                text,
                ": restore it from a copy, or build {out} again in an empty folder"
            )
        }
        CheckError::Memory => text.push_str(OUT_OF_MEMORY),
    }
}

/// Writes the sentence of a query, or a selection, that is refused.
pub(crate) fn write_query(
    text: &mut String,
    error: QueryError,
    names: &Names<'_>,
) -> Result<(), AllocError> {
    let out = names.out;
    match error {
        QueryError::NotComplete if !names.has_out => write!(text, "{out} does not exist"),
        QueryError::NotComplete => write!(
            text,
            "{out} has no complete dataset: run its build, which also takes over a folder of an earlier version"
        ),
        QueryError::StoreFault => write!(text, "a file of {out} could not be read"),
        QueryError::Damaged { file } => {
            write_file(text, file)?;
            write!(text, " in {out} is missing or malformed")
        }
        QueryError::SinkFault => text.push_str("standard output could not be written"),
        QueryError::Memory => text.push_str(OUT_OF_MEMORY),
    }
}

// Writes the name of a file of a dataset.
fn write_file(text: &mut String, file: QueryFile) -> Result<(), AllocError> {
    match file {
        QueryFile::BuildJson => text.push_str("`ept-build.json`"),
        QueryFile::Hierarchy(key) => {
            text.push_str("`ept-hierarchy/")?;
            write_text(text, &key)?;
            text.push_str(".json`")
        }
        QueryFile::Tile(key) => {
            text.push_str("`ept-data/")?;
            write_text(text, &key)?;
            text.push_str(".bin`")
        }
    }
}

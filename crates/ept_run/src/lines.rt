//! The lines that are written: of a command that is carried out, and of each refusal.

ghost use Rattle.std.specs.Prelude.{◌≡◌, ◌++◌, IfOk, OnOk};
ghost use Rattle.std.specs.Fmt.{decimal};
ghost use Rattle.ept_las.specs.LasHeader as las;
ghost use Rattle.ept_space.specs.KeyText as space;
ghost use Rattle.ept_run.specs.Lines.{summary_text, fit_text, unfit_text, header_text, trial_text, key_text, config_text, las_text, number_text, record_text, name_of, letter_text, refusal_text, line_of};
ghost use Rattle.ept_run.specs.Merges.{octants_text, part_text};

use ept_build::Summary;
use ept_check::Fault;
use ept_ckpt::Letter;
use ept_command::Refusal;
use ept_config_text::ConfigError;
use ept_grid::OCTANTS;
use ept_las::{Header, LasError};
use ept_meta::Field;
use ept_part::{PartDone, has_octant};
use ept_point::PointNumber;
use ept_space::{Key, key_text};
use ept_trial::Trial;
use itoa::Buffer;
use std::alloc::{AllocError, Global};

/// The line of words that are no command. It takes no memory.
pub(crate) const USAGE_LINE: &[u8] = b"error 2 usage\n";

/// The line of a run that is out of memory. It takes no memory.
pub(crate) const MEMORY_LINE: &[u8] = b"error 9 memory\n";

/// The line of a check of a folder without a complete dataset. It takes no memory.
pub(crate) const NOT_COMPLETE_LINE: &[u8] = b"error 6 complete\n";

/// The line of a part of an octree, or of a merge, whose root has no octants. It takes no memory.
pub(crate) const SHALLOW_LINE: &[u8] = b"error 6 shallow\n";

/// The line of a merge into a folder that has a checkpoint. It takes no memory.
pub(crate) const HAS_CHECKPOINT_LINE: &[u8] = b"error 6 checkpoint\n";

/// The line of a check whose store failed. It takes no memory.
pub(crate) const STORE_LINE: &[u8] = b"error 7 store\n";

/// The line of a check that found a file damaged. It takes no memory.
pub(crate) const DAMAGED_LINE: &[u8] = b"error 8 damaged\n";

fn append(line: &mut Vec<u8>, text: &[u8]) -> Result<(), AllocError>
    ensures { OnOk result (line.new.items ≡ line.old.items ++ text.now) }
{
    line.extend_from_slice(text)?;
    Ok(())
}

// Appends a number after its word.
fn append_number(line: &mut Vec<u8>, word: &[u8], number: u64) -> Result<(), AllocError>
    ensures { OnOk result (line.new.items ≡ line.old.items ++ word.now ++ decimal number) }
{
    line.extend_from_slice(word)?;
    line.extend_from_slice(Buffer::new().format(number).as_bytes())?;
    Ok(())
}

/// What a build says at its end: how many points there are, and how many nodes.
pub(crate) fn summary_line(alloc: Global, summary: Summary) -> Result<Vec<u8>, AllocError>
    ensures { IfOk result (λ line. line.items ≡ summary_text summary.points summary.nodes) }
{
    counts_line(alloc, summary.points, summary.nodes)
}

/// What a part says at its end: how many points it has, and how many nodes.
pub(crate) fn part_line(alloc: Global, done: &PartDone) -> Result<Vec<u8>, AllocError>
    ensures { IfOk result (λ line. line.items ≡ summary_text done.now.points done.now.nodes) }
{
    counts_line(alloc, done.points, done.nodes)
}

// The line of these numbers of points and nodes.
#[tactic(auto, unfolding(crate::specs::Lines::summary_text))]
fn counts_line(alloc: Global, points: u64, nodes: u32) -> Result<Vec<u8>, AllocError>
    ensures { IfOk result (λ line. line.items ≡ summary_text points nodes) }
{
    let mut line = Vec::new(alloc);
    append_number(&mut line, b"points ", points)?;
    append_number(&mut line, b" nodes ", u64::from(nodes))?;
    line.extend_from_slice(b"\n")?;
    Ok(line)
}

/// What is said of a dataset that is the sampling of its own points: how many points there are, and how many nodes.
#[tactic(auto, unfolding(crate::specs::Lines::fit_text))]
pub(crate) fn fit_line(alloc: Global, points: u64, nodes: u64) -> Result<Vec<u8>, AllocError>
    ensures { IfOk result (λ line. line.items ≡ fit_text points nodes) }
{
    let mut line = Vec::new(alloc);
    append_number(&mut line, b"fit points ", points)?;
    append_number(&mut line, b" nodes ", nodes)?;
    line.extend_from_slice(b"\n")?;
    Ok(line)
}

/// What is said of a dataset that is not: the first node with which anything is wrong, and the number of what is.
#[tactic(auto, unfolding(crate::specs::Lines::unfit_text))]
pub(crate) fn unfit_line(alloc: Global, key: &Key, why: Fault) -> Result<Vec<u8>, AllocError>
    ensures { IfOk result (λ line. line.items ≡ unfit_text key.now why) }
{
    let mut line = Vec::new(alloc);
    append_tile(&mut line, b"unfit ", key)?;
    append_number(&mut line, b" ", u64::from(why.number()))?;
    line.extend_from_slice(b"\n")?;
    Ok(line)
}

/// What is said of a header: the version, the format and length of a record, how many points there are,
/// and where they begin.
#[tactic(auto, unfolding(crate::specs::Lines::header_text))]
pub(crate) fn header_line(alloc: Global, header: Header) -> Result<Vec<u8>, AllocError>
    ensures { IfOk result (λ line. line.items ≡ header_text header) }
{
    let mut line = Vec::new(alloc);
    append_number(&mut line, b"version 1.", u64::from(header.minor))?;
    append_number(&mut line, b" format ", u64::from(header.format))?;
    append_number(&mut line, b" length ", u64::from(header.length))?;
    append_number(&mut line, b" points ", header.points)?;
    append_number(&mut line, b" offset ", u64::from(header.offset))?;
    line.extend_from_slice(b"\n")?;
    Ok(line)
}

/// What is said of a trial: the numbers of points and nodes, the greatest depth of a node, and the sum of all
/// tiles' bytes.
#[tactic(auto, unfolding(crate::specs::Lines::trial_text))]
pub(crate) fn outcome_line(alloc: Global, trial: Trial) -> Result<Vec<u8>, AllocError>
    ensures { IfOk result (λ line. line.items ≡ trial_text trial) }
{
    let mut line = Vec::new(alloc);
    append_number(&mut line, b"points ", trial.points)?;
    append_number(&mut line, b" nodes ", trial.nodes)?;
    append_number(&mut line, b" depth ", u64::from(trial.depth))?;
    append_number(&mut line, b" sum ", trial.sum)?;
    line.extend_from_slice(b"\n")?;
    Ok(line)
}

/// The line of a refusal: its status, its cause, and what this names.
pub(crate) fn refusal_line(alloc: Global, refusal: &Refusal) -> Result<Vec<u8>, AllocError>
    ensures { IfOk result (λ line. line.items ≡ line_of refusal.now) }
{
    let mut line = Vec::new(alloc);
    append_refusal(&mut line, *refusal)?;
    line.extend_from_slice(b"\n")?;
    Ok(line)
}

#[tactic(auto, unfolding(crate::specs::Lines::refusal_text))]
fn append_refusal(line: &mut Vec<u8>, refusal: Refusal) -> Result<(), AllocError>
    ensures { OnOk result (line.new.items ≡ line.old.items ++ refusal_text refusal) }
{
    match refusal {
        Refusal::Usage => append(line, b"error 2 usage"),
        Refusal::BadConfiguration(error) => append_configuration(line, error),
        Refusal::BadLas { source, fault } => append_las(line, source, fault),
        Refusal::OutOfBounds { source, number } => {
            append_record(line, b"error 4 bounds source ", source, number)
        }
        Refusal::NoBounds => append(line, b"error 4 nobounds"),
        Refusal::SourceChanged { source, number } => {
            append_record(line, b"error 4 changed source ", source, number)
        }
        Refusal::TooManyPoints { source } => {
            append_input(line, b"error 5 points source ", source)
        }
        Refusal::TooManyNodes => append(line, b"error 5 nodes"),
        Refusal::Differs { field } => append_word(line, b"error 6 differs ", name_of(field)),
        Refusal::BadCheckpoint { letter } => {
            append_word(line, b"error 8 checkpoint ", letter_text(letter))
        }
        Refusal::TileDamaged { key } => append_tile(line, b"error 8 tile ", &key),
        Refusal::SourceFault => append(line, b"error 7 source"),
        Refusal::StoreFault => append(line, b"error 7 store"),
        Refusal::SpillFault => append(line, b"error 7 spill"),
        Refusal::SpillDamaged => append(line, b"error 8 spill"),
        Refusal::Memory => append(line, b"error 9 memory"),
    }
}

// The number of the cause, and the key that it names.
fn append_configuration(line: &mut Vec<u8>, error: ConfigError) -> Result<(), AllocError>
    ensures { OnOk result (line.new.items ≡ line.old.items ++ config_text error) }
{
    append_key(line, error.code(), error.key_text().as_bytes())
}

#[tactic(auto, unfolding(crate::specs::Lines::key_text))]
fn append_key(line: &mut Vec<u8>, code: u8, key: &[u8]) -> Result<(), AllocError>
    ensures { OnOk result (line.new.items ≡ line.old.items ++ key_text code key.now) }
{
    append_number(line, b"error 3 config ", u64::from(code))?;
    append(line, b" ")?;
    append(line, key)?;
    Ok(())
}

// The number of the fault, the input, and the record at which it ends early.
#[tactic(auto, unfolding(crate::specs::Lines::las_text))]
fn append_las(line: &mut Vec<u8>, source: u32, fault: LasError) -> Result<(), AllocError>
    ensures { OnOk result (line.new.items ≡ line.old.items ++ las_text source fault) }
{
    append_number(line, b"error 4 las ", u64::from(fault.code()))?;
    append_input(line, b" source ", source)?;
    append_end(line, fault)?;
    Ok(())
}

// The number of the record at which a file ends early, if that is the fault.
fn append_end(line: &mut Vec<u8>, fault: LasError) -> Result<(), AllocError>
    ensures { OnOk result (line.new.items ≡ line.old.items ++ number_text fault) }
{
    match fault {
        LasError::Truncated { number } => append_number(line, b" number ", number),
        _ => Ok(()),
    }
}

// The number of an input, after its word.
fn append_input(line: &mut Vec<u8>, word: &[u8], source: u32) -> Result<(), AllocError>
    ensures { OnOk result (line.new.items ≡ line.old.items ++ word.now ++ decimal source) }
{
    append_number(line, word, u64::from(source))?;
    Ok(())
}

// The numbers of an input, after its word, and of one of its records.
#[tactic(auto, unfolding(crate::specs::Lines::record_text))]
fn append_record(
    line: &mut Vec<u8>,
    word: &[u8],
    source: u32,
    number: PointNumber,
) -> Result<(), AllocError>
    ensures { OnOk result (line.new.items ≡ line.old.items ++ word.now ++ record_text source number) }
{
    append_input(line, word, source)?;
    append_number(line, b" number ", number)?;
    Ok(())
}

// Appends a text after its word.
fn append_word(line: &mut Vec<u8>, word: &[u8], text: &[u8]) -> Result<(), AllocError>
    ensures { OnOk result (line.new.items ≡ line.old.items ++ word.now ++ text.now) }
{
    line.extend_from_slice(word)?;
    line.extend_from_slice(text)?;
    Ok(())
}

// Appends the text of a key after its word.
fn append_tile(line: &mut Vec<u8>, word: &[u8], key: &Key) -> Result<(), AllocError>
    ensures { OnOk result (line.new.items ≡ line.old.items ++ word.now ++ space.key_text key.now) }
{
    let mut text = [0; 40];
    let length = key_text(key, &mut text);
    append_word(line, word, &text[..length])
}

/// A word, and after it the octants of a part.
#[tactic(auto, unfolding(crate::specs::Merges::part_text))]
pub(crate) fn octants_line(alloc: Global, word: &[u8], octants: u8) -> Result<Vec<u8>, AllocError>
    ensures { IfOk result (λ line. line.items ≡ part_text word.now octants) }
{
    let mut line = Vec::new(alloc);
    line.extend_from_slice(word)?;
    append_octants(&mut line, octants)?;
    line.extend_from_slice(b"\n")?;
    Ok(line)
}

// Octants as words list them.
fn append_octants(line: &mut Vec<u8>, octants: u8) -> Result<(), AllocError>
    ensures { OnOk result (line.new.items ≡ line.old.items ++ octants_text octants) }
{
    let mut separator: &[u8] = b"";
    for octant in 0..OCTANTS {
        if has_octant(octants, octant) {
            append_number(line, separator, u64::from(octant))?;
            separator = b",";
        }
    }
    Ok(())
}

// The name of a field in the build file.
fn name_of(field: Field) -> &'static [u8]
    ensures { result.now ≡ name_of field }
{
    match field {
        Field::Scale => b"scale",
        Field::Offset => b"offset",
        Field::Bounds => b"bounds",
        Field::Span => b"span",
        Field::MinNodeSize => b"minNodeSize",
        Field::MaxDepth => b"maxDepth",
        Field::HierarchyStep => b"hierarchyStep",
        Field::Srs => b"srs",
        Field::FirstClasses => b"firstClasses",
        Field::WithheldLast => b"withheldLast",
        Field::Input => b"input",
    }
}

// A letter, as the name of its checkpoint has it.
fn letter_text(letter: Letter) -> &'static [u8]
    ensures { result.now ≡ letter_text letter }
{
    match letter {
        Letter::A => b"a",
        Letter::B => b"b",
    }
}

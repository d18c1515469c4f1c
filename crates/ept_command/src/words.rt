//! What the words of a command line ask for.

ghost use Rattle.std.specs.Prelude.{◌≡◌, ◌≢◌, ◌↔◌, ◌≤◌, ℕ, [], ◌∷◌, length, codes, decimal, pos, IsTrue, IfSome, IfNone};
ghost use Rattle.ept_command.specs.Words.{bytes_of, NoMerge, IsBuild, IsInfo, IsCheck, IsCommand};

use crate::octants::{read_octants, read_parts};
use crate::parts::Parts;
use ept_filter::{Sift, read_sift};
use ept_http::{read_box, read_depths};
use ept_num::read_whole;
use ept_space::Box3;

/// The most points, workers, and nodes in memory at a time, that a trial may be asked for.
const MOST_POINTS: u32 = 10_000_000;

const MOST_WORKERS: u32 = 64;

const MOST_NODES: u32 = 65_536;

/// What the words of a command line ask for.
#[derive(Clone, Copy, Debug, PartialEq, Eq)]
pub enum Command<'a> {
    /// Build the octree of this configuration into this folder.
    Build {
        config: &'a str,
        out: &'a str,
    },
    /// Make the part of these octants, bit o for octant o, of the build of this configuration, in this folder.
    Part {
        config: &'a str,
        out: &'a str,
        octants: u8,
    },
    /// Merge these parts of the build of this configuration in this folder, and finish the build.
    Merge {
        config: &'a str,
        out: &'a str,
        parts: Parts,
    },
    /// Report what the header of this LAS file says.
    Info {
        las: &'a str,
    },
    /// Write the points of the dataset in this folder that are in this box, from the nodes of these depths.
    Query {
        out: &'a str,
        area: Box3,
        depths: (u8, u8),
    },
    /// Write what a selection keeps of the points of the dataset in this folder that are in this box, from the nodes of
    /// these depths.
    Select {
        out: &'a str,
        area: Box3,
        depths: (u8, u8),
        sift: Sift,
    },
    /// Report whether the dataset in this folder is the sampling of its own points.
    Check {
        out: &'a str,
    },
    /// Build the octree of generated scans in memory, from `points` points, with `workers` workers and `cache` nodes at
    /// a time.
    Trial {
        points: u32,
        workers: u32,
        cache: u32,
    },
    /// The words are no command.
    Usage,
}

/// The command that these words, which follow the program's name, are.
pub fn command_of(words: &[String]) -> Command<'_>
    ensures { IsCommand (bytes_of words.now) result }
{
    match behind_merge(words) {
        Some(rest) => merge_of(rest),
        None => other_command(words),
    }
}

// The words after `merge`, if that is the first one.
fn behind_merge(words: &[String]) -> Option<&[String]>
    ensures some { IfSome result (λ rest. bytes_of words.now ≡ codes "merge" ∷ bytes_of rest.now) }
    ensures none { IfNone result (NoMerge (bytes_of words.now)) }
{
    match words {
        [first, rest @ ..] if is_merge(first) => Some(rest),
        _ => None,
    }
}

fn is_merge(first: &str) -> bool
    ensures { IsTrue result ↔ (first.now ≡ codes "merge") }
{
    first == "merge"
}

// The command of `merge` with these words after it.
fn merge_of(rest: &[String]) -> Command<'_>
    ensures { IsCommand (codes "merge" ∷ bytes_of rest.now) result }
{
    match rest {
        [config, out, texts @ ..] => merge_of_parts(config, out, texts),
        _ => Command::Usage,
    }
}

// The command of `merge` with a configuration, a folder and these words after them.
fn merge_of_parts<'a>(config: &'a str, out: &'a str, texts: &[String]) -> Command<'a>
    ensures { IsCommand (codes "merge" ∷ config.now ∷ out.now ∷ bytes_of texts.now) result }
{
    if config.is_empty() || out.is_empty() {
        return Command::Usage;
    }
    match read_parts(texts) {
        Some(parts) => Command::Merge { config, out, parts },
        None => Command::Usage,
    }
}

// The command that these words are. The first of them is not `merge`.
fn other_command(words: &[String]) -> Command<'_>
    requires { NoMerge (bytes_of words.now) }
    ensures { IsCommand (bytes_of words.now) result }
{
    match words {
        [first, second] => command_of_two(first, second),
        [first, config, out] => command_of_three(first, config, out),
        [first, second, third, fourth] => command_of_four(first, second, third, fourth),
        [first, out, area, depths, classes, time, dims] => {
            command_of_seven(first, out, area, depths, classes, time, dims)
        }
        _ => no_command(words),
    }
}

// Any other number of words is no command.
#[tactic(auto, using(crate::proofs::Usages::no_command))]
fn no_command(words: &[String]) -> Command<'_>
    requires no_merge { NoMerge (bytes_of words.now) }
    requires two { length words.now ≢ 2 }
    requires three { length words.now ≢ 3 }
    requires four { length words.now ≢ 4 }
    requires seven { length words.now ≢ 7 }
    ensures { IsCommand (bytes_of words.now) result }
{
    Command::Usage
}

// The command that two words are.
fn command_of_two<'a>(first: &str, second: &'a str) -> Command<'a>
    requires { NoMerge (first.now ∷ second.now ∷ []) }
    ensures { IsCommand (first.now ∷ second.now ∷ []) result }
{
    if is_info(first, second) {
        Command::Info { las: second }
    } else if is_check(first, second) {
        Command::Check { out: second }
    } else {
        Command::Usage
    }
}

// The command that three words are.
fn command_of_three<'a>(first: &str, config: &'a str, out: &'a str) -> Command<'a>
    requires { NoMerge (first.now ∷ config.now ∷ out.now ∷ []) }
    ensures { IsCommand (first.now ∷ config.now ∷ out.now ∷ []) result }
{
    if is_build(first, config, out) {
        Command::Build { config, out }
    } else {
        Command::Usage
    }
}

// The command that four words are.
fn command_of_four<'a>(first: &str, second: &'a str, third: &'a str, fourth: &str) -> Command<'a>
    requires { NoMerge (first.now ∷ second.now ∷ third.now ∷ fourth.now ∷ []) }
    ensures { IsCommand (first.now ∷ second.now ∷ third.now ∷ fourth.now ∷ []) result }
{
    if is_query(first) {
        query_of(second, third, fourth)
    } else if is_part(first) {
        part_of(second, third, fourth)
    } else if is_trial(first) {
        trial_of(second, third, fourth)
    } else {
        Command::Usage
    }
}

fn is_build(first: &str, config: &str, out: &str) -> bool
    ensures { IsTrue result ↔ IsBuild (first.now ∷ config.now ∷ out.now ∷ []) config.now out.now }
{
    if config.is_empty() || out.is_empty() {
        return false;
    }
    first == "build"
}

fn is_info(first: &str, las: &str) -> bool
    ensures { IsTrue result ↔ IsInfo (first.now ∷ las.now ∷ []) las.now }
{
    if las.is_empty() {
        return false;
    }
    first == "info"
}

fn is_check(first: &str, out: &str) -> bool
    ensures { IsTrue result ↔ IsCheck (first.now ∷ out.now ∷ []) out.now }
{
    if out.is_empty() {
        return false;
    }
    first == "check"
}

fn is_query(first: &str) -> bool
    ensures { IsTrue result ↔ (first.now ≡ codes "query") }
{
    first == "query"
}

// The command of `query` with these words after it.
fn query_of<'a>(out: &'a str, area: &str, depths: &str) -> Command<'a>
    ensures { IsCommand (codes "query" ∷ out.now ∷ area.now ∷ depths.now ∷ []) result }
{
    if out.is_empty() {
        return Command::Usage;
    }
    match (read_box(area.as_bytes()), read_depths(depths.as_bytes())) {
        (Some(area), Some(depths)) => Command::Query { out, area, depths },
        _ => Command::Usage,
    }
}

fn is_part(first: &str) -> bool
    ensures { IsTrue result ↔ (first.now ≡ codes "part") }
{
    first == "part"
}

// The command of `part` with these words after it.
fn part_of<'a>(config: &'a str, out: &'a str, octants: &str) -> Command<'a>
    ensures { IsCommand (codes "part" ∷ config.now ∷ out.now ∷ octants.now ∷ []) result }
{
    if config.is_empty() || out.is_empty() {
        return Command::Usage;
    }
    match read_octants(octants) {
        Some(octants) => Command::Part {
            config,
            out,
            octants,
        },
        None => Command::Usage,
    }
}

// The command that seven words are.
fn command_of_seven<'a>(
    first: &str,
    out: &'a str,
    area: &str,
    depths: &str,
    classes: &str,
    time: &str,
    dims: &str,
) -> Command<'a>
    requires { NoMerge (first.now ∷ out.now ∷ area.now ∷ depths.now ∷ classes.now ∷ time.now ∷ dims.now ∷ []) }
    ensures { IsCommand (first.now ∷ out.now ∷ area.now ∷ depths.now ∷ classes.now ∷ time.now ∷ dims.now ∷ []) result }
{
    if is_select(first) {
        select_of(out, area, depths, classes, time, dims)
    } else {
        Command::Usage
    }
}

fn is_select(first: &str) -> bool
    ensures { IsTrue result ↔ (first.now ≡ codes "select") }
{
    first == "select"
}

// The command of `select` with these words after it.
fn select_of<'a>(
    out: &'a str,
    area: &str,
    depths: &str,
    classes: &str,
    time: &str,
    dims: &str,
) -> Command<'a>
    ensures { IsCommand (codes "select" ∷ out.now ∷ area.now ∷ depths.now ∷ classes.now ∷ time.now ∷ dims.now ∷ []) result }
{
    if out.is_empty() {
        return Command::Usage;
    }
    let sift = read_sift(classes.as_bytes(), time.as_bytes(), dims.as_bytes());
    match (
        read_box(area.as_bytes()),
        read_depths(depths.as_bytes()),
        sift,
    ) {
        (Some(area), Some(depths), Some(sift)) => Command::Select {
            out,
            area,
            depths,
            sift,
        },
        _ => Command::Usage,
    }
}

fn is_trial(first: &str) -> bool
    ensures { IsTrue result ↔ (first.now ≡ codes "trial") }
{
    first == "trial"
}

// The command of `trial` with these words after it.
fn trial_of<'a>(points: &str, workers: &str, cache: &str) -> Command<'a>
    ensures { IsCommand (codes "trial" ∷ points.now ∷ workers.now ∷ cache.now ∷ []) result }
{
    let (Some(points), Some(workers), Some(cache)) = (
        read_number(points, MOST_POINTS),
        read_number(workers, MOST_WORKERS),
        read_number(cache, MOST_NODES),
    ) else {
        return Command::Usage;
    };
    if workers < 1 || cache < workers {
        return Command::Usage;
    }
    Command::Trial {
        points,
        workers,
        cache,
    }
}

// The number that a word spells, if it is at most `most`.
fn read_number(word: &str, most: u32) -> Option<u32>
    ensures some { IfSome result (λ n. (word.now ≡ decimal n) × (n ≤ most)) }
    ensures none { IfNone result ((n : ℕ) → n ≤ most → word.now ≢ decimal n) }
{
    let whole = read_whole(word.as_bytes())?;
    number_of(whole, most)
}

// The number, if it is at most `most`.
fn number_of(whole: i64, most: u32) -> Option<u32>
    ensures some { IfSome result (λ n. (whole ≡ pos n) × (n ≤ most)) }
    ensures none { IfNone result ((n : ℕ) → whole ≡ pos n → n ≤ most → ⊥) }
{
    if whole < 0 || whole > i64::from(most) {
        return None;
    }
    Some(whole as u32)
}

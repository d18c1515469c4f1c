//! What is known of a store's checkpoints.

ghost use Rattle.std.specs.Prelude.{◌≡◌, ◌<◌, ◌^◌, [], map, false, Some, option_map, OnOk, OnErr, IfOk};
ghost use Rattle.std.specs.Option.{option_copied};
ghost use Rattle.ept_ckpt.specs.Facts.{facts};
ghost use Rattle.ept_ckpt.specs.declared.letter.Letter as letters;
ghost use Rattle.ept_ckpt.specs.declared.checkpoint.Checkpoint as kept;
ghost use Rattle.ept_point.specs.declared.layout.Layout.TheVariants.{Old};
ghost use Rattle.ept_ckpt.specs.Valid.{IsCheckpoint};
ghost use Rattle.ept_ckpt.specs.declared.version.BodyVersion.TheVariants.{V3};
ghost use Rattle.ept_save.specs.View.{next_letter, next_generation, next_facts};
ghost use Rattle.ept_save.specs.Lines.{free_letter, with_line};
ghost use Rattle.ept_save.specs.Loading.{current_line};
ghost use Rattle.ept_save.specs.Migrating.{turned, IsTurnOf};
ghost use Rattle.ept_save.specs.Opening.{lines_of};
ghost use Rattle.ept_save.specs.Stored.{line_of};
ghost use Rattle.ept_save.specs.Tiles.{IsOfLayout};

use crate::names::other;
use ept_ckpt::{BodyVersion, Checkpoint, Letter, NodeLine};
use ept_config::{Kept, SourceCount};
use ept_point::{List, Memory};
use ept_space::Key;
use std::alloc::Global;
use std::collections::BTreeMap;
use std::marker::Model;

/// What is known of a node's tile, besides its key.
#[derive(Clone, Copy, Debug)]
pub(crate) struct Line {
    pub(crate) count: u64,
    pub(crate) mask: u8,
    pub(crate) letter: Letter,
}

/// What is known of a store's checkpoints: the current one, and the lines for the next one.
///
/// The lines are in key order. After [`open`](crate::open) and after each commit they are those of the current
/// checkpoint, or there are none if there is no checkpoint.
#[derive(Drop)]
pub struct Saved {
    pub(crate) current: Option<(Letter, Checkpoint)>,
    pub(crate) lines: BTreeMap<Key, Line>,
    pub(crate) begun: bool,
}

impl Model for Saved {
    ghost use Rattle.std.specs.Prelude.{map};
    ghost use Rattle.ept_save.specs.View.{View};
    ghost use Rattle.ept_save.specs.Stored.{line_of};

    ghost Value = { View };

    ghost view = { λ s. record { current = s.current; lines = map line_of s.lines.entries; begun = s.begun } };
}

impl Saved {
    /// What is known if this is the current checkpoint.
    pub(crate) fn of(alloc: Global, current: Option<(Letter, Checkpoint)>) -> Result<Saved, Memory>
        ensures { IfOk result (λ saved. saved
            ≡ record { current = current; lines = lines_of current; begun = false }) }
    {
        let mut lines = BTreeMap::new(alloc);
        if let Some((_, checkpoint)) = &current {
            fill(&mut lines, checkpoint)?;
        }
        Ok(Saved {
            current,
            lines,
            begun: false,
        })
    }

    /// The current checkpoint, if there is one.
    pub fn current(&self) -> Option<&Checkpoint>
        ensures { option_copied result ≡ option_map (λ c. c.1) self.now.current }
    {
        self.current.as_ref().map(|current| &current.1)
    }

    /// What the current checkpoint states of a node, if there is one of this key.
    pub fn line(&self, key: &Key) -> Option<&NodeLine>
        ensures { option_copied result ≡ current_line self.now.current key.now }
    {
        match &self.current {
            Some((_, checkpoint)) => checkpoint.line(key),
            None => None,
        }
    }

    /// The version under which the tile of a key is put: the one that the current checkpoint does not name
    /// for it, or a.
    pub(crate) fn free_letter(&self, key: &Key) -> Letter
        ensures { result ≡ free_letter self.now.current key.now }
    {
        let Some((_, checkpoint)) = &self.current else {
            return Letter::A;
        };
        match checkpoint.line(key) {
            Some(line) => other(line.letter),
            None => Letter::A,
        }
    }

    /// The letter of the next checkpoint.
    pub(crate) fn next_letter(&self) -> Letter
        ensures { result ≡ next_letter self.now.current }
    {
        match &self.current {
            Some((letter, _)) => other(*letter),
            None => Letter::A,
        }
    }

    /// Notes the line of a node's tile for the next checkpoint.
    pub(crate) fn note(
        &mut self,
        key: Key,
        count: u64,
        mask: u8,
        letter: Letter,
    ) -> Result<(), Memory>
        ensures line { OnOk result (self.new ≡ record self.old {
          lines = with_line
              (record { key = key; count = count; mask = mask; letter = letter }) self.old.lines;
        }) }
        ensures unchanged { OnErr result (self.new ≡ self.old) }
    {
        self.lines.insert(
            key,
            Line {
                count,
                mask,
                letter,
            },
        )?;
        Ok(())
    }

    /// The next checkpoint, of the newest version.
    pub(crate) fn next(
        &self,
        alloc: Global,
        kept: &Kept,
        counts: &[SourceCount],
        inserted: u64,
    ) -> Result<Checkpoint, Memory>
        requires { IsCheckpoint V3 (next_generation self.now.current) kept.now counts.now inserted self.now.lines }
        ensures { IfOk result (λ next. facts next ≡ next_facts self.now kept.now counts.now inserted) }
    {
        Ok(Checkpoint {
            version: BodyVersion::NEWEST,
            generation: self.next_generation(),
            kept: kept.copy(alloc)?,
            counts: List::of(Vec::from_slice(alloc, counts)?),
            inserted,
            nodes: List::of(self.nodes(alloc)?),
        })
    }

    /// The next checkpoint of a migration, whose nodes are the lines: of the same points as the current one.
    pub(crate) fn next_turned(&self, alloc: Global) -> Result<Checkpoint, Memory>
        requires old { IsOfLayout Old self.now.current }
        requires turned { self.now.lines ≡ map turned (lines_of self.now.current) }
        ensures { IfOk result (λ next. (letter : letters.Letter) (c : kept.Checkpoint) → self.now.current ≡ Some (letter, c)
            → IsTurnOf c next) }
    {
        let (_, checkpoint) = self.current.as_ref().unwrap();
        self.next(
            alloc,
            &checkpoint.kept,
            checkpoint.counts.as_slice(),
            checkpoint.inserted,
        )
    }

    // The generation of the next checkpoint.
    fn next_generation(&self) -> u64
        requires { next_generation self.now.current < 2 ^ 64 }
        ensures { result ≡ next_generation self.now.current }
    {
        match &self.current {
            Some((_, checkpoint)) => checkpoint.generation + 1,
            None => 1,
        }
    }

    /// The lines as a list.
    pub(crate) fn nodes(&self, alloc: Global) -> Result<Vec<NodeLine>, Memory>
        ensures { IfOk result (λ nodes. nodes.items ≡ self.now.lines) }
    {
        let mut nodes = Vec::with_capacity(alloc, self.lines.len())?;
        for (key, line) in self.lines.iter() {
            nodes.push(NodeLine {
                key: *key,
                count: line.count,
                mask: line.mask,
                letter: line.letter,
            })?;
        }
        Ok(nodes)
    }
}

// Puts the lines of a checkpoint into an empty map.
fn fill(lines: &mut BTreeMap<Key, Line>, checkpoint: &Checkpoint) -> Result<(), Memory>
    requires { lines.old.entries ≡ [] }
    ensures { OnOk result (map line_of lines.new.entries ≡ checkpoint.now.nodes) }
{
    for line in checkpoint.nodes.as_slice() {
        lines.insert(
            line.key,
            Line {
                count: line.count,
                mask: line.mask,
                letter: line.letter,
            },
        )?;
    }
    Ok(())
}

ghost use Rattle.std.specs.Prelude.{◌≡◌, ◌⊎◌, ◌↔◌, ℕ, List, [], Contains, IsTrue, OnOk, map, string_bytes};
ghost use Rattle.ept_real.specs.Ways.{Keeps, KeepsBut};

use std::alloc::{AllocError, Global};
use std::collections::BTreeSet;
use std::marker::Model;

/// A set of paths.
#[derive(Drop)]
pub(crate) struct PathSet {
    alloc: Global,
    paths: BTreeSet<String>,
}

impl Model for PathSet {
    ghost use Rattle.std.specs.Prelude.{ℕ, List, map, string_bytes};

    ghost Value = { List (List ℕ) };

    ghost view = { λ set. map string_bytes set.paths.keys };
}

impl PathSet {
    /// No path.
    pub(crate) fn new(alloc: Global) -> Self
        ensures { result ≡ [] }
    {
        PathSet {
            alloc,
            paths: BTreeSet::new(alloc),
        }
    }

    /// Whether this is one of the paths.
    pub(crate) fn contains(&self, path: &str) -> bool
        ensures { IsTrue result ↔ Contains self.now path.now }
    {
        self.paths.contains(path)
    }

    /// Adds a path.
    pub(crate) fn add(&mut self, path: &str) -> Result<(), AllocError>
        ensures ok { OnOk result (Contains self.new path.now) }
        ensures still { Keeps self.old self.new }
        ensures only { KeepsBut path.now self.new self.old }
    {
        if self.paths.contains(path) {
            return Ok(());
        }
        self.paths.insert(String::from_str(self.alloc, path)?)?;
        Ok(())
    }

    /// Removes a path, if it is there.
    pub(crate) fn remove(&mut self, path: &str)
        ensures gone { Contains self.new path.now → ⊥ }
        ensures still { KeepsBut path.now self.old self.new }
        ensures only { Keeps self.new self.old }
    {
        self.paths.remove(path);
    }

    /// Removes each path.
    pub(crate) fn clear(&mut self)
        ensures { self.new ≡ [] }
    {
        self.paths.clear();
    }

    /// Takes paths over from another set, as far as there is memory for them, and leaves that empty.
    pub(crate) fn take_over(&mut self, other: &mut PathSet)
        ensures only { (path : List ℕ) → Contains self.new path → Contains self.old path ⊎ Contains other.old path }
        ensures empty { other.new ≡ [] }
    {
        let _ = self.paths.append(&mut other.paths);
        other.clear();
    }

    /// The paths, in order.
    pub(crate) fn paths(&self) -> &BTreeSet<String>
        ensures { map string_bytes result.now.keys ≡ self.now }
    {
        &self.paths
    }
}

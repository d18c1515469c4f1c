ghost use Rattle.std.specs.Prelude.{◌≡◌, ◌≤◌, Some, length};
ghost use Rattle.ept_mem.specs.Named.{content_of};

use crate::named::find;
use crate::plan::Plan;
use ept_base::{Failed, GetError, Shelf, Source};
use std::alloc::{AllocError, Global};

/// A source in memory.
#[derive(Debug, Drop)]
pub struct MemSource {
    bytes: Vec<u8>,
    place: usize,
    given: u64,
    plan: Plan,
    ghost within: { place ≤ length bytes.items },
}

impl MemSource {
    ghost use Rattle.ept_mem.specs.Objects.{source_bytes, source_left, source_faults, source_given, source_fails, source_calls};

    /// A source of these bytes, at their start, whose calls of these numbers fail.
    pub fn new(bytes: Vec<u8>, fails: Vec<u64>) -> Self
        ensures bytes { source_bytes result ≡ bytes.items }
        ensures at_start { source_left result ≡ bytes.items }
        ensures sound { source_faults result ≡ 0 }
        ensures unread { source_given result ≡ 0 }
        ensures fails { source_fails result ≡ fails.items }
        ensures unused { source_calls result ≡ 0 }
    {
        MemSource {
            bytes,
            place: 0,
            given: 0,
            plan: Plan::new(fails),
        }
    }
}

impl Source for MemSource {
    ghost use Rattle.std.specs.Prelude.{Some, IfOk, MatchResult, OnErr, IsOk, IsErr, is_ok, min, if◌then◌else◌};
    ghost use Rattle.std.specs.Io.{ReadsAtMost};
    ghost use Rattle.std.specs.Io.KnownBytes.{ReadConsumes};
    ghost use Rattle.ept_base.specs.Causes.{HasCause};
    ghost use Rattle.ept_base.specs.Devices.{counts_on};
    ghost use Rattle.ept_mem.specs.Objects.{source_bytes, source_left, source_faults, source_given, source_plan};
    ghost use Rattle.ept_mem.specs.Plans.{IsToFail, IsOneCallMore};

    ghost whole = { λ source. Some (source_bytes source) };

    ghost left = { λ source. Some (source_left source) };

    ghost faults = { source_faults };

    ghost given = { source_given };

    fn read(&mut self, into: &mut [u8]) -> Result<usize, Failed>
        ensures bound { ReadsAtMost result into.new }
        ensures bytes { ReadConsumes (Some (source_left self.old)) (Some (source_left self.new)) result into.new }
        ensures unchanged { OnErr result ((source_left self.new ≡ source_left self.old) × (into.new ≡ into.old)) }
        ensures given { MatchResult result (λ n. source_given self.new ≡ counts_on (source_given self.old) n)
            (λ _. source_given self.new ≡ source_given self.old) }
        ensures same { source_bytes self.new ≡ source_bytes self.old }
        ensures cause { HasCause (source_faults self.old) (source_faults self.new) result }
        ensures most { IfOk result (λ n. n ≡ min (length into.new) (length (source_left self.old))) }
        ensures to_fail { IsToFail (source_plan self.old) → IsErr result }
        ensures not_to_fail { ¬ IsToFail (source_plan self.old) → IsOk result }
        ensures sound { ¬ IsToFail (source_plan self.old) → source_faults self.new ≡ source_faults self.old }
        ensures numbered { IsOneCallMore (source_plan self.old) (source_plan self.new) }
    {
        if self.plan.next() {
            return Err(self.plan.fault());
        }
        let left = &self.bytes[self.place..];
        let count = left.len().min(into.len());
        into[..count].copy_from_slice(&left[..count]);
        self.place += count;
        self.given = self.given.saturating_add(count as u64);
        Ok(count)
    }

    fn rewind(&mut self) -> Result<(), Failed>
        ensures place { source_left self.new ≡ (if is_ok result then source_bytes self.old else source_left self.old) }
        ensures given { source_given self.new ≡ source_given self.old }
        ensures same { source_bytes self.new ≡ source_bytes self.old }
        ensures cause { HasCause (source_faults self.old) (source_faults self.new) result }
        ensures to_fail { IsToFail (source_plan self.old) → IsErr result }
        ensures not_to_fail { ¬ IsToFail (source_plan self.old) → IsOk result }
        ensures sound { ¬ IsToFail (source_plan self.old) → source_faults self.new ≡ source_faults self.old }
        ensures numbered { IsOneCallMore (source_plan self.old) (source_plan self.new) }
    {
        if self.plan.next() {
            return Err(self.plan.fault());
        }
        self.place = 0;
        Ok(())
    }
}

/// A shelf in memory.
#[derive(Debug, Drop)]
pub struct MemShelf {
    alloc: Global,
    files: Vec<(String, Vec<u8>)>,
    given: u64,
    asked: Vec<String>,
    plan: Plan,
    source_fails: Vec<u64>,
}

impl MemShelf {
    ghost use Rattle.std.specs.Prelude.{◌≡◌, [], ◌∷◌, ◌++◌, IfOk, IfSome, OnOk, OnErr, map, option_map, string_bytes};
    ghost use Rattle.ept_mem.specs.Named.{content_of};
    ghost use Rattle.ept_mem.specs.Objects.{IsFresh, source_bytes, shelf_files, shelf_faults, shelf_given, shelf_asked, shelf_fails, shelf_calls, shelf_source_fails};

    /// A shelf of these files. If a path occurs more than once, its first file counts. The shelf's own calls of the
    /// numbers `fails` fail. So do those of the numbers `source_fails` of each source that it opens.
    pub fn new(
        alloc: Global,
        files: Vec<(String, Vec<u8>)>,
        fails: Vec<u64>,
        source_fails: Vec<u64>,
    ) -> Self
        ensures files { shelf_files result ≡ content_of files.items }
        ensures sound { shelf_faults result ≡ 0 }
        ensures unread { shelf_given result ≡ 0 }
        ensures not_asked { shelf_asked result ≡ [] }
        ensures fails { shelf_fails result ≡ fails.items }
        ensures unused { shelf_calls result ≡ 0 }
        ensures source_fails { shelf_source_fails result ≡ source_fails.items }
    {
        MemShelf {
            alloc,
            files,
            given: 0,
            asked: Vec::new(alloc),
            plan: Plan::new(fails),
            source_fails,
        }
    }

    /// The paths that it was asked to open, in order.
    pub fn asked(&self) -> &[String]
        ensures asked { map string_bytes result.now ≡ shelf_asked self.now }
    {
        &self.asked
    }

    /// A source of the bytes of this path, if there is such a path.
    fn source_of(&self, path: &str) -> Result<Option<MemSource>, AllocError>
        ensures found { IfOk result (λ found. option_map source_bytes found ≡ shelf_files self.now path.now) }
        ensures fresh { IfOk result (λ found. IfSome found (λ source. IsFresh source (shelf_source_fails self.now))) }
    {
        let Some(bytes) = find(&self.files, path) else {
            return Ok(None);
        };
        let bytes = Vec::from_slice(self.alloc, bytes)?;
        let fails = Vec::from_slice(self.alloc, &self.source_fails)?;
        Ok(Some(MemSource::new(bytes, fails)))
    }

    /// Notes that this path was asked for.
    fn note(&mut self, path: &str) -> Result<(), AllocError>
        ensures noted { OnOk result (shelf_asked self.new ≡ shelf_asked self.old ++ path.now ∷ []) }
        ensures unchanged { OnErr result (shelf_asked self.new ≡ shelf_asked self.old) }
        ensures files { shelf_files self.new ≡ shelf_files self.old }
        ensures given { shelf_given self.new ≡ shelf_given self.old }
        ensures source_fails { shelf_source_fails self.new ≡ shelf_source_fails self.old }
        ensures plan { self.new.plan ≡ self.old.plan }
    {
        self.asked.push(String::from_str(self.alloc, path)?)?;
        Ok(())
    }
}

impl Shelf for MemShelf {
    type Source = MemSource;

    ghost use Rattle.std.specs.Prelude.{Some, ◌≢◌, IfOk, IsErr, IsSome, IsOkUnless};
    ghost use Rattle.ept_base.specs.Causes.{Rose, HasCauseOf};
    ghost use Rattle.ept_base.specs.Devices.{Opens, Asks, counts_on};
    ghost use Rattle.ept_mem.specs.Objects.{IsFresh, source_bytes, source_left, source_faults, source_given, shelf_files, shelf_faults, shelf_given, shelf_asked, shelf_plan, shelf_source_fails};
    ghost use Rattle.ept_mem.specs.Plans.{IsToFail, IsOneCallMore, IsNoCall};

    ghost files = { λ shelf. Some (shelf_files shelf) };

    ghost faults = { shelf_faults };

    ghost given = { shelf_given };

    ghost asked = { λ shelf. Some (shelf_asked shelf) };

    fn open(&mut self, path: &str) -> Result<MemSource, GetError>
        ensures opened { IfOk result (λ source.
            Opens (Some (shelf_files self.old)) path.now (Some (source_bytes source)) (Some (source_left source))) }
        ensures fresh { IfOk result (λ source. source_faults source ≡ 0) }
        ensures unread { IfOk result (λ source. source_given source ≡ 0) }
        ensures given { shelf_given self.new ≡ shelf_given self.old }
        ensures asked { Asks (Some (shelf_asked self.old)) (Some (shelf_asked self.new)) path.now result }
        ensures same { shelf_files self.new ≡ shelf_files self.old }
        ensures cause { HasCauseOf GetError.Failed (shelf_faults self.old) (shelf_faults self.new) result }
        ensures source_fails { IfOk result (λ source. IsFresh source (shelf_source_fails self.old)) }
        ensures same_source_fails { shelf_source_fails self.new ≡ shelf_source_fails self.old }
        ensures to_fail { IsToFail (shelf_plan self.old) → IsErr result }
        ensures not_to_fail { ¬ IsToFail (shelf_plan self.old) → IsSome (shelf_files self.old path.now)
            → IsOkUnless result GetError.Memory }
        ensures sound { ¬ IsToFail (shelf_plan self.old) → IsSome (shelf_files self.old path.now)
            → shelf_faults self.new ≡ shelf_faults self.old }
        ensures numbered { IsOneCallMore (shelf_plan self.old) (shelf_plan self.new) }
    {
        let is_to_fail = self.plan.next();
        let opened = self.source_of(path)?;
        self.note(path)?;
        match opened {
            Some(source) if !is_to_fail => Ok(source),
            _ => Err(self.plan.fault().into()),
        }
    }

    fn retire(&mut self, source: MemSource)
        ensures later { shelf_faults self.old ≤ shelf_faults self.new }
        ensures failed { source_faults source ≢ 0 → Rose (shelf_faults self.old) (shelf_faults self.new) }
        ensures sound { source_faults source ≡ 0 → shelf_faults self.new ≡ shelf_faults self.old }
        ensures given { shelf_given self.new ≡ counts_on (shelf_given self.old) (source_given source) }
        ensures asked { shelf_asked self.new ≡ shelf_asked self.old }
        ensures same { shelf_files self.new ≡ shelf_files self.old }
        ensures same_source_fails { shelf_source_fails self.new ≡ shelf_source_fails self.old }
        ensures not_numbered { IsNoCall (shelf_plan self.old) (shelf_plan self.new) }
    {
        self.given = self.given.saturating_add(source.given);
        if source.plan.faults > 0 {
            self.plan.fault();
        }
    }
}

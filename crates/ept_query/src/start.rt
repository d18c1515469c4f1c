//! What a query looks for, from the done gate and the build file of a folder.

ghost use Rattle.std.specs.Prelude.{◌≡◌, ◌≢◌, ◌+◌, ◌≤◌, ◌↔◌, IsTrue, IfOk, IfErr};
ghost use Rattle.ept_base.specs.Causes.{HasCauseOf};
ghost use Rattle.ept_base.specs.Devices.{counts_on};
ghost use Rattle.ept_base.specs.Files.{SameFiles, Tells};
ghost use Rattle.ept_base.specs.Moves.{Moves};
ghost use Rattle.ept_config.specs.declared.kept.Kept.{Kept};
ghost use Rattle.ept_meta.specs.BuildText.{build_text};
ghost use Rattle.ept_save.specs.Done.{IsDone};
ghost use Rattle.ept_query.specs.Causes.{IsStores, of_build};
ghost use Rattle.ept_query.specs.Damage.{HasNoBuild, RefusesBytes, RefusesReading};
ghost use Rattle.ept_query.specs.Planning.{IsBuiltOnly, IsSearchFor};
ghost use Rattle.ept_query.specs.Refusals.{RefusesStart};

use crate::query_error::{QueryError, QueryFile};
use crate::reading::read_file;
use crate::search::Search;
use ept_base::Store;
use ept_config::Kept;
use ept_meta::{BUILD_FILE, MetaError, output_names_law, read_build_json};
use ept_save::SaveError;
use ept_space::Box3;
use std::alloc::Global;

/// What is looked for, for the points of these places and depths, if the output is complete.
pub(crate) fn search_at<T: Store>(
    alloc: Global,
    store: &mut T,
    area: &Box3,
    depths: (u8, u8),
) -> Result<Search, QueryError>
    ensures found { IfOk result (λ search. Tells
        (IsSearchFor area.now depths.0 depths.1 search) (T.files store.old)) }
    ensures area { IfOk result (λ search. search.area ≡ area.now) }
    ensures threshold { IfOk result (λ search. search.threshold ≤ 2147483648) }
    ensures refused { IfErr result (RefusesStart (T.files store.old)) }
    ensures any_moment { Moves T.files T.may_leave T.moment T.image_since SameFiles store.old store.new }
    ensures gets { T.gets store.new ≤ T.gets store.old + 2 }
    ensures cause { HasCauseOf QueryError.StoreFault (T.faults store.old) (T.faults store.new) result }
{
    if !is_done(alloc, store)? {
        return Err(QueryError::NotComplete);
    }
    let kept = kept_at(alloc, store)?;
    Ok(Search::of(&kept, area, depths))
}

// Whether the output is complete: whether the done gate is open.
fn is_done<T: Store>(alloc: Global, store: &mut T) -> Result<bool, QueryError>
    ensures done { IfOk result (λ done. Tells (λ all. IsTrue done ↔ IsDone all) (T.files store.old)) }
    ensures refused { IfErr result IsStores }
    ensures any_moment { Moves T.files T.may_leave T.moment T.image_since SameFiles store.old store.new }
    ensures counted { T.gets store.new ≡ counts_on (T.gets store.old) 1 }
    ensures cause { HasCauseOf QueryError.StoreFault (T.faults store.old) (T.faults store.new) result }
{
    match ept_save::is_done(alloc, store) {
        Ok(done) => Ok(done),
        Err(SaveError::Memory) => Err(QueryError::Memory),
        Err(_) => Err(QueryError::StoreFault),
    }
}

// What the output depends on, as the build file states it.
fn kept_at<T: Store>(alloc: Global, store: &mut T) -> Result<Kept, QueryError>
    ensures found { IfOk result (λ kept. Tells (IsBuiltOnly kept) (T.files store.old)) }
    ensures refused { IfErr result (RefusesReading QueryFile.BuildJson HasNoBuild (T.files store.old)) }
    ensures any_moment { Moves T.files T.may_leave T.moment T.image_since SameFiles store.old store.new }
    ensures counted { T.gets store.new ≡ counts_on (T.gets store.old) 1 }
    ensures cause { HasCauseOf QueryError.StoreFault (T.faults store.old) (T.faults store.new) result }
{
    output_names_law();
    let bytes = read_file(alloc, store, QueryFile::BuildJson, BUILD_FILE)?;
    kept_in(alloc, &bytes)
}

// What bytes state as a build file.
fn kept_in(alloc: Global, bytes: &[u8]) -> Result<Kept, QueryError>
    ensures text { IfOk result (λ kept. bytes.now ≡ build_text kept) }
    ensures only { IfOk result (λ kept. (other : Kept) → bytes.now ≡ build_text other → other ≡ kept) }
    ensures refused { IfErr result (RefusesBytes QueryFile.BuildJson
        ((other : Kept) → bytes.now ≢ build_text other)) }
{
    match read_build_json(alloc, bytes) {
        Ok(kept) => Ok(kept),
        Err(error) => Err(told_of(error)),
    }
}

// The refusal of a build file.
fn told_of(error: MetaError) -> QueryError
    ensures { result ≡ of_build error }
{
    match error {
        MetaError::Form => QueryError::Damaged {
            file: QueryFile::BuildJson,
        },
        MetaError::Memory => QueryError::Memory,
    }
}

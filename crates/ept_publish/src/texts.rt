//! The files of the output that are no tiles, as texts; and the three of them that each output has once.

ghost use Rattle.std.specs.Prelude.{◌≡◌, ◌∷◌, [], IfOk, OnOk, length};
ghost use Rattle.ept_base.specs.Causes.{HasCauseOf};
ghost use Rattle.ept_base.specs.Files.{StepsBy};
ghost use Rattle.ept_base.specs.Moves.{Moves};
ghost use Rattle.ept_meta.specs.EptText.{ept_text};
ghost use Rattle.ept_meta.specs.ManifestText.{manifest_text};
ghost use Rattle.ept_meta.specs.BuildText.{build_text};
ghost use Rattle.ept_hier.specs.Hierarchy.{hierarchy, KeysAscend};
ghost use Rattle.ept_meta.specs.Output.{metadata_name, manifest_name, build_file_name};
ghost use Rattle.ept_publish.specs.Publishing.{PutsAll, SameButThese};

use ept_base::{PutError, Store};
use ept_config::{Kept, SourceCount};
use ept_hier::{HierFile, hierarchy_files};
use ept_meta::{BUILD_FILE, MANIFEST, METADATA, build_json, ept_json, manifest_json};
use ept_point::Memory;
use ept_space::{Bounds, Key};
use std::alloc::Global;

/// The contents of the files that are no tiles.
#[derive(Drop)]
pub(crate) struct Texts {
    pub(crate) hierarchy: Vec<HierFile>,
    pub(crate) metadata: Vec<u8>,
    pub(crate) manifest: Vec<u8>,
    pub(crate) build_file: Vec<u8>,
}

/// The contents of the files that are no tiles. `nodes` has the key of each node, and how many points it has.
pub(crate) fn texts_of(
    alloc: Global,
    kept: &Kept,
    counts: &[SourceCount],
    extent: &Option<Bounds>,
    points: u64,
    nodes: &[(Key, u64)],
) -> Result<Texts, Memory>
    requires each { length counts.now ≡ length kept.now.inputs }
    requires ascend { KeysAscend nodes.now }
    ensures hierarchy { IfOk result (λ all. all.hierarchy.items ≡ hierarchy kept.now.step nodes.now) }
    ensures metadata { IfOk result (λ all. all.metadata.items ≡ ept_text kept.now extent.now points) }
    ensures manifest { IfOk result (λ all. all.manifest.items ≡ manifest_text kept.now counts.now) }
    ensures build_file { IfOk result (λ all. all.build_file.items ≡ build_text kept.now) }
{
    let mut metadata = Vec::new(alloc);
    ept_json(kept, extent.as_ref(), points, &mut metadata)?;
    let mut manifest = Vec::new(alloc);
    manifest_json(kept, counts, &mut manifest)?;
    let mut build_file = Vec::new(alloc);
    build_json(kept, &mut build_file)?;
    Ok(Texts {
        hierarchy: hierarchy_files(alloc, nodes, kept.step)?,
        metadata,
        manifest,
        build_file,
    })
}

/// Puts the metadata, the manifest and the build file.
pub(crate) fn put_texts<T: Store>(store: &mut T, texts: &Texts) -> Result<(), PutError>
    ensures ok { OnOk result (StepsBy (PutsAll ((metadata_name, texts.now.metadata.items)
        ∷ (manifest_name, texts.now.manifest.items) ∷ (build_file_name, texts.now.build_file.items) ∷ []))
        (T.files store.old) (T.files store.new)) }
    ensures any_moment { Moves T.files T.may_leave T.moment T.image_since
        (SameButThese (metadata_name ∷ manifest_name ∷ build_file_name ∷ [])) store.old store.new }
    ensures cause { HasCauseOf PutError.Failed (T.faults store.old) (T.faults store.new) result }
{
    store.put(METADATA, &texts.metadata)?;
    store.put(MANIFEST, &texts.manifest)?;
    store.put(BUILD_FILE, &texts.build_file)
}

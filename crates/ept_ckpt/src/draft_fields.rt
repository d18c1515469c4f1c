//! All fields of a body, as a cursor reads them.

ghost use Rattle.std.specs.Prelude.{◌≡◌, ◌≤◌, ◌<◌, ◌*◌, ◌^◌, length, [], OnOk};
ghost use Rattle.std.specs.List.{All};
ghost use Rattle.ept_config.specs.Counts.{most_points, total};
ghost use Rattle.ept_ckpt.specs.Facts.{sources_of, draft_facts};
ghost use Rattle.ept_ckpt.specs.Forms.{mark, end, ripe, fields, points_of_sources};
ghost use Rattle.ept_ckpt.specs.Reads.{Reads, ReadsAs};
ghost use Rattle.ept_ckpt.specs.Valid.{deepest};

use crate::cursor::Cursor;
use crate::draft::Draft;
use crate::field_error::FieldError;
use crate::limits::{GENERATION_AT, MARK_LENGTH};
use crate::settings::Settings;
use crate::sources::Sources;
use crate::version::BodyVersion;
use ept_config::{MAX_INPUTS, total_of};
use ept_space::Cube;
use std::alloc::Global;

impl<'a> Cursor<'a> {
    /// The name of the format and its version.
    #[tactic(auto, unfolding(crate::specs::Forms::mark))]
    fn mark(&mut self) -> Result<BodyVersion, FieldError>
        ensures reads { Reads mark self.old self.new result }
    {
        let front = self.bytes(MARK_LENGTH)?;
        if front.starts_with(&BodyVersion::V1.mark()) {
            Ok(BodyVersion::V1)
        } else if front.starts_with(&BodyVersion::V2.mark()) {
            Ok(BodyVersion::V2)
        } else if front.starts_with(&BodyVersion::V3.mark()) {
            Ok(BodyVersion::V3)
        } else {
            Err(FieldError::Version)
        }
    }

    /// The end of the body.
    #[tactic(auto, unfolding(crate::specs::Forms::end))]
    fn end(&mut self) -> Result<(), FieldError>
        ensures reads { ReadsAs end (λ _. tt) self.old self.new result }
        ensures empty { OnOk result (self.new.rest.now ≡ []) }
    {
        if !self.rest.is_empty() {
            return Err(FieldError::Length);
        }
        Ok(())
    }

    /// Judges the generation, which has to be between 1 and `most`.
    #[tactic(auto, unfolding(crate::specs::Forms::ripe))]
    fn ripe(&mut self, generation: u64, most: u64) -> Result<(), FieldError>
        ensures reads { ReadsAs (ripe generation most) (λ _. tt) self.old self.new result }
        ensures least { OnOk result (1 ≤ generation) }
        ensures most { OnOk result (generation ≤ most) }
        ensures same { self.new.rest.now ≡ self.old.rest.now }
    {
        if generation < 1 || generation > most {
            return Err(FieldError::Field { at: GENERATION_AT });
        }
        Ok(())
    }

    /// All fields, in order.
    #[tactic(auto, unfolding(crate::specs::Forms::fields))]
    pub(crate) fn draft(&mut self, alloc: Global) -> Result<Draft, FieldError>
        ensures reads { ReadsAs fields draft_facts self.old self.new result }
        ensures empty { OnOk result (self.new.rest.now ≡ []) }
    {
        let version = self.mark()?;
        let generation = self.number(8)?;
        let settings = self.settings(alloc)?;
        let precedence = self.precedence(version)?;
        let inputs = self.within(4, 1, MAX_INPUTS as u64)? as u32;
        let most = version.most_points();
        let sources = self.sources(alloc, inputs, most, settings.scale, &settings.bounds)?;
        let inserted = self.within(8, 0, points_in(&sources))?;
        let lines = self.u32()?;
        let nodes = self.nodes(alloc, lines, deepest(&settings))?;
        self.end()?;
        let ripest = inserted + u64::from(inputs) + version.spare();
        self.ripe(generation, ripest)?;
        Ok(Draft {
            version,
            generation,
            settings,
            precedence,
            sources,
            inserted,
            nodes,
        })
    }
}

// The greatest depth of a node.
fn deepest(settings: &Settings) -> u8
    ensures depth { result ≡ deepest settings.now.bounds settings.now.s settings.now.max_depth }
    ensures most { result ≤ 31 }
{
    let cube = Cube::over(&settings.bounds, settings.s, settings.max_depth);
    cube.known();
    cube.depth
}

// How many points the inputs have.
#[tactic(auto, using(crate::proofs::Paired::points_of_pairs, crate::proofs::Paired::total_few))]
fn points_in(sources: &Sources) -> u64
    requires few { length sources.now.inputs ≤ MAX_INPUTS }
    requires each { length sources.now.counts ≡ length sources.now.inputs }
    requires counted { All (λ count. count.points ≤ most_points) sources.now.counts }
    ensures points { result ≡ points_of_sources (sources_of sources.now.inputs sources.now.counts) }
    ensures counts { result ≡ total sources.now.counts }
    ensures most { result ≤ 65535 * most_points }
{
    total_of(sources.counts.as_slice())
}

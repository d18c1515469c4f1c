//! A part that is ready to be put.

ghost use Rattle.std.specs.Prelude.{◌≡◌, ◌≢◌, ◌≤◌, ◌<◌, ℕ, List, None, Err, IfOk, IfErr, length};
ghost use Rattle.ept_base.specs.Causes.{HasCauseOf};
ghost use Rattle.ept_base.specs.Files.{Tells};
ghost use Rattle.ept_point.specs.declared.point.Point as p;
ghost use Rattle.ept_space.specs.CubeOfBounds.{IsCubeOf};
ghost use Rattle.ept_sample.specs.Nodes.{sampled};
ghost use Rattle.ept_grid.specs.Mask.{opened};
ghost use Rattle.ept_meta.specs.Output as meta;
ghost use Rattle.ept_scan.specs.Opening.{IsKeptScan};
ghost use Rattle.ept_ckpt.specs.declared.version.BodyVersion.TheVariants.{V3};
ghost use Rattle.ept_ckpt.specs.Valid.{IsCheckpoint};
ghost use Rattle.ept_table.specs.Octree.{AreSampled};
ghost use Rattle.ept_tree.specs.Grown.{nodes_of};
ghost use Rattle.ept_plan.specs.Plans.{IsPlan, HasPoints};
ghost use Rattle.ept_parts.specs.Parts.{part_of};
ghost use Rattle.ept_part.specs.Errors.{IsOfSampling};
ghost use Rattle.ept_part.specs.Sampling.{IsGrown};
ghost use Rattle.ept_part.specs.Making.{IsReady, IsPartOf, IsRefused};

use crate::error::PartError;
use crate::lines::lines_of;
use crate::sampling::{Sampled, sample_part};
use ept_base::Shelf;
use ept_ckpt::{BodyVersion, Checkpoint, NodeLine};
use ept_config::Config;
use ept_meta::{output_once_law, rules_of};
use ept_octree_ckpt::lines_law;
use ept_plan::{Plan, PlanError, first_plan};
use ept_point::List;
use ept_scan::reader;
use ept_space::Rules;
use ept_tree::Tree;
use std::alloc::Global;

/// A part that is ready to be put: its nodes, and its body.
#[derive(Drop)]
pub(crate) struct Ready {
    pub(crate) tree: Tree,
    pub(crate) checkpoint: Checkpoint,
}

/// Scans the inputs, and samples the part.
pub(crate) fn prepare<H: Shelf>(
    alloc: Global,
    config: &Config,
    octants: u8,
    shelf: &mut H,
) -> Result<Ready, PartError>
    ensures ready { IfOk result (IsReady config.now) }
    ensures part { IfOk result (λ ready. Tells (λ all. (points : List p.Point)
        × IsPartOf all config.now octants ready points) (H.files shelf.old)) }
    ensures refused { IfErr result (λ e. Tells (λ all. IsRefused all config.now octants e) (H.files shelf.old)) }
    ensures no_store { result ≢ Err PartError.StoreFault }
    ensures files { H.files shelf.new ≡ H.files shelf.old }
    ensures cause { HasCauseOf PartError.SourceFault (H.faults shelf.old) (H.faults shelf.new) result }
{
    output_once_law();
    let plan = plan_of(alloc, config, shelf)?;
    let rules = rules_of(&plan.kept);
    if rules.cube.depth == 0 {
        return Err(PartError::Shallow);
    }
    let sampled = sampled_of(alloc, config, &rules, octants, shelf, &plan)?;
    ready_of(alloc, config, plan, sampled)
}

// What a build of the inputs would keep, and what is found of each.
fn plan_of<H: Shelf>(alloc: Global, config: &Config, shelf: &mut H) -> Result<Plan, PartError>
    ensures plan { IfOk result (IsPlan config.now None) }
    ensures scan { IfOk result (λ plan. Tells (λ all. (points : List p.Point) × HasPoints all config.now None plan points)
        (H.files shelf.old)) }
    ensures refused { (octants : ℕ) → IfErr result (λ e. Tells (λ all. IsRefused all config.now octants e)
        (H.files shelf.old)) }
    ensures no_store { result ≢ Err PartError.StoreFault }
    ensures files { H.files shelf.new ≡ H.files shelf.old }
    ensures cause { HasCauseOf PartError.SourceFault (H.faults shelf.old) (H.faults shelf.new) result }
{
    match first_plan(alloc, config, shelf) {
        Ok(plan) => Ok(plan),
        Err(PlanError::Scan(error)) => Err(PartError::from(error)),
        Err(PlanError::Differs(_)) => unreachable!(),
    }
}

// The sampling of the part of the inputs of a plan.
fn sampled_of<H: Shelf>(
    alloc: Global,
    config: &Config,
    rules: &Rules,
    octants: u8,
    shelf: &mut H,
    plan: &Plan,
) -> Result<Sampled, PartError>
    requires plan { IsPlan config.now None plan.now }
    requires rules { rules.now ≡ meta.rules_of plan.now.kept }
    requires of_bounds { IsCubeOf plan.now.kept.bounds plan.now.kept.s plan.now.kept.max_depth rules.now.cube }
    requires deep { 0 < rules.now.cube.depth }
    ensures grown { IfOk result (λ s. IsGrown rules.now config.now.max_nodes s.inserted s.tree) }
    ensures number { IfOk result (λ s. s.inserted ≤ plan.now.points) }
    ensures sampled { IfOk result (λ s. Tells (λ all. (points : List p.Point)
        → IsKeptScan all plan.now.kept plan.now.counts points
        → AreSampled rules.now (part_of rules.now (opened octants) points) (nodes_of s.tree)) (H.files shelf.old)) }
    ensures too_many { result ≡ Err PartError.TooManyNodes → Tells (λ all. (points : List p.Point)
        → IsKeptScan all plan.now.kept plan.now.counts points
        → config.now.max_nodes < length (sampled rules.now (part_of rules.now (opened octants) points)))
        (H.files shelf.old) }
    ensures no_change { (source number : ℕ) → result ≡ Err (PartError.SourceChanged source number)
        → Tells (λ all. (points : List p.Point) → IsKeptScan all plan.now.kept plan.now.counts points → ⊥)
        (H.files shelf.old) }
    ensures only { IfErr result IsOfSampling }
    ensures files { H.files shelf.new ≡ H.files shelf.old }
    ensures cause { HasCauseOf PartError.SourceFault (H.faults shelf.old) (H.faults shelf.new) result }
{
    output_once_law();
    let mut reader = reader(alloc, shelf, &plan.kept, plan.counts.as_slice(), 0)?;
    reader.allow(plan.points);
    let most = u64::from(config.max_nodes);
    let outcome = sample_part(alloc, &mut reader, rules, octants, plan.points, most);
    reader.retire_all(shelf);
    outcome
}

// The part with its body.
fn ready_of(
    alloc: Global,
    config: &Config,
    plan: Plan,
    sampled: Sampled,
) -> Result<Ready, PartError>
    requires plan { IsPlan config.now None plan }
    requires grown { IsGrown (meta.rules_of plan.kept) config.now.max_nodes sampled.inserted sampled.tree }
    requires number { sampled.inserted ≤ plan.points }
    requires deep { 0 < (meta.rules_of plan.kept).cube.depth }
    ensures ready { IfOk result (IsReady config.now) }
    ensures tree { IfOk result (λ ready. ready.tree ≡ sampled.tree) }
    ensures kept { IfOk result (λ ready. ready.checkpoint.kept ≡ plan.kept) }
    ensures counts { IfOk result (λ ready. ready.checkpoint.counts ≡ plan.counts) }
    ensures inserted { IfOk result (λ ready. ready.checkpoint.inserted ≡ sampled.inserted) }
    ensures only { IfErr result (λ e. e ≡ PartError.Memory) }
{
    lines_law();
    let lines = lines_of(alloc, &sampled.tree)?;
    let checkpoint = body_of(plan, sampled.inserted, lines);
    Ok(Ready {
        tree: sampled.tree,
        checkpoint,
    })
}

// The body of a part: a checkpoint of the first generation, as builds write it.
fn body_of(plan: Plan, inserted: u64, lines: Vec<NodeLine>) -> Checkpoint
    requires { IsCheckpoint V3 1 plan.kept plan.counts inserted lines.items }
    ensures version { result.version ≡ V3 }
    ensures generation { result.generation ≡ 1 }
    ensures kept { result.kept ≡ plan.kept }
    ensures counts { result.counts ≡ plan.counts }
    ensures inserted { result.inserted ≡ inserted }
    ensures nodes { result.nodes ≡ lines.items }
{
    Checkpoint {
        version: BodyVersion::NEWEST,
        generation: 1,
        kept: plan.kept,
        counts: plan.counts,
        inserted,
        nodes: List::of(lines),
    }
}

//! How much of the machine a configuration allows.

ghost use Rattle.std.specs.Prelude.{◌≡◌, ◌≤◌, ◌^◌, IfOk, IfErr};
ghost use Rattle.serde_json.specs.View.{view};
ghost use Rattle.ept_config_text.specs.Configuration.{work_at};
ghost use Rattle.ept_config_text.specs.WorkFields.{work_facts};

use crate::config_error::ConfigError;
use crate::config_key::ConfigKey;
use crate::limits::{DEFAULT_CACHE, DEFAULT_CHECKPOINT, DEFAULT_NODES, DEFAULT_THREADS};
use crate::values::natural_at;
use ept_config::{MAX_CACHE, MAX_CHECKPOINT, MAX_NODES, MAX_THREADS};
use serde_json::Value;

/// How much of the machine a configuration allows. This type does not keep that `cache` is at least `threads`.
#[derive(Drop)]
pub struct Work {
    pub threads: u32,
    pub cache: u32,
    pub max_nodes: u32,
    pub checkpoint: u64,
}

/// Each of the numbers, in its range.
#[tactic(auto, unfolding(crate::specs::Configuration::work_at))]
pub fn work_at(top: &Value) -> Result<Work, ConfigError>
    ensures ok { IfOk result (λ work. work_at (view top.now) ≡ Ok (work_facts work)) }
    ensures refused { IfErr result (λ e. work_at (view top.now) ≡ Err e) }
    ensures threads_least { IfOk result (λ work. 1 ≤ work.threads) }
    ensures threads_most { IfOk result (λ work. work.threads ≤ 64) }
    ensures cache_most { IfOk result (λ work. work.cache ≤ 2 ^ 20) }
    ensures nodes_least { IfOk result (λ work. 1 ≤ work.max_nodes) }
    ensures nodes_most { IfOk result (λ work. work.max_nodes ≤ 2 ^ 20) }
    ensures checkpoint_least { IfOk result (λ work. 1 ≤ work.checkpoint) }
    ensures checkpoint_most { IfOk result (λ work. work.checkpoint ≤ 2 ^ 40) }
{
    let threads = natural_at(
        ConfigKey::Threads,
        1,
        u64::from(MAX_THREADS),
        DEFAULT_THREADS,
        top,
    )?;
    let cache = natural_at(
        ConfigKey::CacheSize,
        1,
        u64::from(MAX_CACHE),
        DEFAULT_CACHE,
        top,
    )?;
    let max_nodes = natural_at(
        ConfigKey::MaxNodes,
        1,
        u64::from(MAX_NODES),
        DEFAULT_NODES,
        top,
    )?;
    let checkpoint = natural_at(
        ConfigKey::Checkpoint,
        1,
        MAX_CHECKPOINT,
        DEFAULT_CHECKPOINT,
        top,
    )?;
    Ok(Work {
        threads: threads as u32,
        cache: cache as u32,
        max_nodes: max_nodes as u32,
        checkpoint,
    })
}

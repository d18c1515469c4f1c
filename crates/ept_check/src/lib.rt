//! The checker: whether a finished folder is the sampling of its own points.
//!
//! It reads the build file, the hierarchy and each tile once, node by node in preorder, and tries facts of each node.
//! They are facts of the node alone, of its ids, and of it with the nodes above or below it. It keeps the hierarchy,
//! the nodes above the current one, and the ids so far, and samples nothing.
#![tactic(auto)]

mod above;
mod check_error;
mod checking;
mod fault;
mod ids;
mod keys;
mod octree;
mod orphans;
mod page;
mod preorder;
mod seen;
mod totals;
mod verdict;
mod walk;

pub use check_error::CheckError;
pub use checking::check;
pub use fault::Fault;
pub use verdict::Verdict;

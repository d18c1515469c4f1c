//! What lies in the slots of a table of nodes.

use ept_node::Node;
use ept_scan::Reader;

/// What lies in a slot: the reader in slot 0, a node in every further slot.
///
/// It can be dropped only if a spill file and a source can.
pub enum Item<F, S> {
    /// A node, or a blank one.
    Node(Node<F>),
    /// The reader.
    Reader(Reader<S>),
}

//! The line of a node.

ghost use Rattle.std.specs.Prelude.{◌≡◌};
ghost use Rattle.std.specs.Option.{option_copied};
ghost use Rattle.ept_ckpt.specs.Lookup.{line_of_key};

use crate::checkpoint::Checkpoint;
use crate::node_line::NodeLine;
use ept_space::Key;

impl Checkpoint {
    /// The line of the node with this key, if there is one.
    pub fn line(&self, key: &Key) -> Option<&NodeLine>
        ensures { option_copied result ≡ line_of_key self.now.nodes key.now }
    {
        let lines = self.nodes.as_slice();
        match lines.binary_search_by_key(key, |line| line.key) {
            Ok(at) => Some(&lines[at]),
            Err(_) => None,
        }
    }
}

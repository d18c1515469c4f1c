/// What a worker passes as it visits a node, while it holds the node. It has no effect on the result.
pub trait Gate {
    /// The worker of this number is in the node of this key.
    fn entered(&self, worker: u32, depth: u8, x: u32, y: u32, z: u32);
}

/// A gate that does nothing.
#[derive(Clone, Copy, Debug, Default, PartialEq, Eq)]
pub struct OpenGate;

impl Gate for OpenGate {
    fn entered(&self, _worker: u32, _depth: u8, _x: u32, _y: u32, _z: u32) {}
}

//! A gate that one thread enters.

use ept_base::Gate;
use ept_rendezvous::MeetGate;

#[test]
fn only_another_worker_in_another_node_meets(rt: HostRuntime) {
    let gate = MeetGate::new(3);
    assert!(rt; !gate.met());
    gate.entered(1, 0, 0, 0, 0);
    gate.entered(1, 1, 0, 1, 0);
    gate.entered(2, 1, 1, 0, 0);
    assert!(rt; !gate.met());
}

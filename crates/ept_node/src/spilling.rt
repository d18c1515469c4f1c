//! A node's points in its spill file.

ghost use Rattle.std.specs.Prelude.{◌≡◌, ◌≢◌, ◌⊎◌, ◌++◌, ◌*◌, ℕ, true, false, Some, Err, length, OnOk, OnErr, IfErr};
ghost use Rattle.ept_base.specs.Causes.{HasCauseOf};
ghost use Rattle.ept_base.specs.Devices.{counts_on};
ghost use Rattle.ept_base.specs.Files.{Tells};
ghost use Rattle.ept_point.specs.Dimensions.{packed_width};
ghost use Rattle.ept_point.specs.Order.{IsAscending};
ghost use Rattle.ept_point.specs.Packed.{tile};
ghost use Rattle.ept_sample.specs.Ids.{HasDistinctIds};
ghost use Rattle.ept_grid.specs.Node.{IsInIdOrder};
ghost use Rattle.ept_grid.specs.Tile.{IsTile};
ghost use Rattle.ept_node.specs.declared.state.NodeState.TheVariants.{Blank, Resident, Spilled, Broken};
ghost use Rattle.ept_node.specs.Shown.{file_of, state_of, node_of, is_here, fault_of, children_of, HasPlace, IsAlike, IsFiled, HasKept, DoesTell};
ghost use Rattle.ept_node.specs.Filing.{AppendsAlike};
ghost use Rattle.ept_node.specs.Damage.{IsDamaged};

use crate::body::Body;
use crate::error::NodeError;
use crate::filing::{append, append_filed, keep_grid, load_grid};
use crate::node::Node;
use ept_base::SpillFile;
use ept_point::Point;
use std::alloc::Global;
use std::mem::replace;

impl<F: SpillFile> Node<F> {
    /// Puts the points of a resident node into its spill file, as the bytes of its tile. Its key, its rules, its count,
    /// its open octants and its children stay in memory. The room that the points had is freed.
    ///
    /// # Errors
    ///
    /// `SpillFault` if the file fails: the node is broken then, and its points stay in memory. After `Memory` the node
    /// is as it was, and the file holds what it held.
    pub fn spill(&mut self, alloc: Global) -> Result<(), NodeError>
        requires { state_of self.old ≡ Resident }
        ensures ok { OnOk result (state_of self.new ≡ Spilled) }

        // If the file's contents are visible, it holds the tile, and the node shows what it showed.
        ensures told { OnOk result (Tells (λ _. node_of F.held self.new ≡ node_of F.held self.old) (F.held (file_of self.new))) }
        ensures tile { OnOk result (Tells (λ bytes. bytes ≡ tile (node_of F.held self.old).points) (F.held (file_of self.new))) }
        ensures filed { IsFiled F.held self.new }
        ensures telling { DoesTell F.held (file_of self.old) → DoesTell F.held (file_of self.new) }

        // Whatever the file holds, and whatever the result.
        ensures alike { IsAlike (node_of F.held self.old) (node_of F.held self.new) }
        ensures children { children_of self.new ≡ children_of self.old }

        // After a refusal the points are still in memory.
        ensures unchanged { OnErr result (node_of F.held self.new ≡ node_of F.held self.old) }
        ensures here { OnErr result (is_here self.new ≡ true) }
        ensures broken { result ≡ Err NodeError.SpillFault
            → (state_of self.new ≡ Broken) × (fault_of self.new ≡ Some NodeError.SpillFault) }
        ensures memory { result ≡ Err NodeError.Memory
            → (state_of self.new ≡ Resident) × (F.held (file_of self.new) ≡ F.held (file_of self.old)) }
        ensures only { IfErr result (λ e. (e ≡ NodeError.SpillFault) ⊎ (e ≡ NodeError.Memory)) }

        // The file was asked once; if memory ran out, it may not have been asked.
        ensures counted { result ≢ Err NodeError.Memory
            → F.keeps (file_of self.new) ≡ counts_on (F.keeps (file_of self.old)) 1 }
        ensures at_most_once { (F.keeps (file_of self.new) ≡ counts_on (F.keeps (file_of self.old)) 1)
            ⊎ (F.keeps (file_of self.new) ≡ F.keeps (file_of self.old)) }
        ensures kept { HasKept F.keeps self.new }
        ensures cause { HasCauseOf NodeError.SpillFault (F.faults (file_of self.old)) (F.faults (file_of self.new)) result }
    {
        self.wake(alloc)?;
        let Body::Resident(grid) = &self.body else {
            unreachable!()
        };
        match keep_grid(alloc, &mut self.file, grid) {
            Ok(filed) => {
                self.body = Body::Spilled(filed);
                Ok(())
            }
            Err(NodeError::SpillFault) => {
                self.give_up_keeping();
                Err(NodeError::SpillFault)
            }
            Err(NodeError::Memory) => Err(NodeError::Memory),
            Err(NodeError::SpillDamaged { .. }) => unreachable!(),
        }
    }

    // Breaks a node whose points are in memory.
    fn give_up_keeping(&mut self)
        requires { HasPlace self.old.body }
        ensures state { state_of self.new ≡ Broken }
        ensures fault { fault_of self.new ≡ Some NodeError.SpillFault }
        ensures here { is_here self.new ≡ true }
        ensures node { node_of F.held self.new ≡ node_of F.held self.old }
        ensures children { children_of self.new ≡ children_of self.old }
        ensures file { file_of self.new ≡ file_of self.old }
    {
        let body = replace(&mut self.body, Body::Blank);
        self.body = match body {
            Body::Resident(grid) => Body::Unkept(grid),
            other => other,
        };
    }

    /// Reads the points of a spilled node back into memory, into lists of their own size. The file holds what it held.
    ///
    /// # Errors
    ///
    /// `SpillFault` if the file fails, and `SpillDamaged` if it returns other bytes than those of a tile that fits the
    /// node. After both the node is broken. After `Memory` the node is as it was.
    pub fn reload(&mut self, alloc: Global) -> Result<(), NodeError>
        requires { state_of self.old ≡ Spilled }
        ensures ok { OnOk result (state_of self.new ≡ Resident) }

        // If the file's contents are visible, the node shows what it showed.
        ensures told { OnOk result (Tells (λ _. node_of F.held self.new ≡ node_of F.held self.old) (F.held (file_of self.old))) }
        ensures tile { OnOk result (Tells (λ bytes. bytes ≡ tile (node_of F.held self.new).points) (F.held (file_of self.old))) }

        // Whatever the file holds, the number of the points is the node's count, and they fit the node.
        ensures alike { IsAlike (node_of F.held self.old) (node_of F.held self.new) }
        ensures ascend { OnOk result (IsAscending (node_of F.held self.new).points) }
        ensures fits { OnOk result (IsTile (node_of F.held self.new).key (node_of F.held self.new).rules
            (node_of F.held self.new).mask (node_of F.held self.new).points) }
        ensures children { children_of self.new ≡ children_of self.old }

        ensures unchanged { OnErr result (node_of F.held self.new ≡ node_of F.held self.old) }
        ensures broken { IfErr result (λ e. e ≢ NodeError.Memory
            → (state_of self.new ≡ Broken) × (fault_of self.new ≡ Some e) × (is_here self.new ≡ false)) }
        ensures memory { result ≡ Err NodeError.Memory → state_of self.new ≡ Spilled }

        // Damage is reported only of bytes that are damaged, and never if the file visibly holds the node's tile.
        ensures kept { (kept found at : ℕ) → result ≡ Err (NodeError.SpillDamaged kept found at)
            → kept ≡ packed_width * length (node_of F.held self.old).points }
        ensures damaged { (kept found at : ℕ) → result ≡ Err (NodeError.SpillDamaged kept found at)
            → Tells (IsDamaged (node_of F.held self.old) kept found at) (F.held (file_of self.old)) }
        ensures intact { IsFiled F.held self.old → HasDistinctIds (node_of F.held self.old).points
            → Tells (λ _. (kept found at : ℕ) → result ≢ Err (NodeError.SpillDamaged kept found at)) (F.held (file_of self.old)) }

        ensures held { F.held (file_of self.new) ≡ F.held (file_of self.old) }
        ensures counted { F.keeps (file_of self.new) ≡ F.keeps (file_of self.old) }
        ensures cause { HasCauseOf NodeError.SpillFault (F.faults (file_of self.old)) (F.faults (file_of self.new)) result }
    {
        let Body::Spilled(filed) = &self.body else {
            unreachable!()
        };
        match load_grid(alloc, &mut self.file, filed) {
            Ok(grid) => {
                self.body = Body::Resident(grid);
                Ok(())
            }
            Err(why) => {
                self.give_up_loading(why);
                Err(why)
            }
        }
    }

    // Breaks a node whose points are in its file, unless they did not come because memory ran out.
    fn give_up_loading(&mut self, why: NodeError)
        requires { state_of self.old ≡ Spilled }
        ensures broken { why ≢ NodeError.Memory
            → (state_of self.new ≡ Broken) × (fault_of self.new ≡ Some why) × (is_here self.new ≡ false) }
        ensures memory { why ≡ NodeError.Memory → state_of self.new ≡ Spilled }
        ensures node { node_of F.held self.new ≡ node_of F.held self.old }
        ensures children { children_of self.new ≡ children_of self.old }
        ensures file { file_of self.new ≡ file_of self.old }
    {
        if why == NodeError::Memory {
            return;
        }
        let body = replace(&mut self.body, Body::Blank);
        self.body = match body {
            Body::Spilled(filed) => Body::Lost(filed, why),
            other => other,
        };
    }

    /// Appends the points of a resident or spilled node, in id order. It stays where it is: a file holds what it held.
    ///
    /// # Errors
    ///
    /// `SpillFault` if the node is spilled and the file fails. `SpillDamaged` if it is spilled and the file returns no
    /// tile of the node's count of points, in id order and in its box. After both the node is broken. `Memory` in
    /// either state, and nothing else if the node is resident. After each the list is as it was.
    pub fn points_into(&mut self, alloc: Global, out: &mut Vec<Point>) -> Result<(), NodeError>
        requires { (state_of self.old ≡ Resident) ⊎ (state_of self.old ≡ Spilled) }

        // The appended points are those that the node shows, if it is resident or the file's contents are visible.
        ensures ok { OnOk result (state_of self.old ≡ Resident → out.new.items ≡ out.old.items ++ (node_of F.held self.old).points) }
        ensures told { OnOk result (Tells (λ _. out.new.items ≡ out.old.items ++ (node_of F.held self.old).points)
            (F.held (file_of self.old))) }

        // Whatever the file holds, their number is the node's count, they are in id order, and they lie in its box.
        ensures appended { OnOk result (AppendsAlike (node_of F.held self.old) out.old.items out.new.items) }
        ensures in_order { IsInIdOrder (node_of F.held self.old).points }
        ensures unchanged { OnErr result (out.new.items ≡ out.old.items) }

        ensures resident { state_of self.old ≡ Resident → self.new ≡ self.old }
        ensures resident_only { state_of self.old ≡ Resident → IfErr result (λ e. e ≡ NodeError.Memory) }
        ensures node { node_of F.held self.new ≡ node_of F.held self.old }
        ensures children { children_of self.new ≡ children_of self.old }
        ensures state { OnOk result (state_of self.new ≡ state_of self.old) }
        ensures broken { IfErr result (λ e. e ≢ NodeError.Memory
            → (state_of self.new ≡ Broken) × (fault_of self.new ≡ Some e) × (is_here self.new ≡ false)) }
        ensures memory { result ≡ Err NodeError.Memory → state_of self.new ≡ state_of self.old }

        // Damage is reported only of bytes that are damaged, and never if the file visibly holds the node's tile.
        ensures kept { (kept found at : ℕ) → result ≡ Err (NodeError.SpillDamaged kept found at)
            → kept ≡ packed_width * length (node_of F.held self.old).points }
        ensures damaged { (kept found at : ℕ) → result ≡ Err (NodeError.SpillDamaged kept found at)
            → Tells (IsDamaged (node_of F.held self.old) kept found at) (F.held (file_of self.old)) }
        ensures intact { IsFiled F.held self.old → HasDistinctIds (node_of F.held self.old).points
            → Tells (λ _. (kept found at : ℕ) → result ≢ Err (NodeError.SpillDamaged kept found at)) (F.held (file_of self.old)) }

        ensures held { F.held (file_of self.new) ≡ F.held (file_of self.old) }
        ensures counted { F.keeps (file_of self.new) ≡ F.keeps (file_of self.old) }
        ensures cause { HasCauseOf NodeError.SpillFault (F.faults (file_of self.old)) (F.faults (file_of self.new)) result }
    {
        match &self.body {
            Body::Begun(_) => Ok(()),
            Body::Resident(grid) => append(grid, out),
            Body::Spilled(filed) => {
                filed.known();
                match append_filed(alloc, &mut self.file, filed, out) {
                    Ok(()) => Ok(()),
                    Err(why) => {
                        self.give_up_loading(why);
                        Err(why)
                    }
                }
            }
            _ => unreachable!(),
        }
    }
}

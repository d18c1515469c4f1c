//! What a body states of the nodes.

ghost use Rattle.std.specs.Prelude.{◌≡◌, ◌≤◌, ◌<◌, ◌^◌, length, IfOk};
ghost use Rattle.std.specs.List.{All};
ghost use Rattle.ept_ckpt.specs.Fields.{number, times};
ghost use Rattle.ept_ckpt.specs.Forms.{index, key_form, node_form, letter_of};
ghost use Rattle.ept_ckpt.specs.Reads.{Reads};
ghost use Rattle.ept_ckpt.specs.Valid.{IsNode};
ghost use Rattle.ept_space.specs.VoxelKey.{IsKey};

use crate::cursor::Cursor;
use crate::field_error::FieldError;
use crate::letter::Letter;
use crate::node_line::NodeLine;
use ept_point::List;
use ept_space::Key;
use std::alloc::Global;

impl<'a> Cursor<'a> {
    /// An index on an axis, which is below the number of nodes of a depth on that axis.
    #[tactic(auto, unfolding(crate::specs::Forms::index))]
    fn index(&mut self, depth: u8) -> Result<u32, FieldError>
        requires { depth ≤ 31 }
        ensures reads { Reads (index depth) self.old self.new result }
        ensures below { IfOk result (λ n. n < 2 ^ depth) }
    {
        Ok(self.within(4, 0, (1 << depth) - 1)? as u32)
    }

    /// The key in the next bytes, whose depth is at most `most`.
    #[tactic(auto, unfolding(crate::specs::Forms::key_form))]
    fn key(&mut self, most: u8) -> Result<Key, FieldError>
        requires { most ≤ 31 }
        ensures reads { Reads (key_form most) self.old self.new result }
        ensures is_key { IfOk result IsKey }
        ensures depth { IfOk result (λ key. key.depth ≤ most) }
    {
        let depth = self.within(1, 0, u64::from(most))? as u8;
        let x = self.index(depth)?;
        let y = self.index(depth)?;
        let z = self.index(depth)?;
        let key = Key { depth, x, y, z };
        key.known();
        Ok(key)
    }

    /// The node in the next bytes, whose depth is at most `most`.
    #[tactic(auto, unfolding(crate::specs::Forms::node_form))]
    fn node(&mut self, most: u8) -> Result<NodeLine, FieldError>
        requires { most ≤ 31 }
        ensures reads { Reads (node_form most) self.old self.new result }
        ensures line { IfOk result (IsNode most) }
    {
        let key = self.key(most)?;
        let count = self.number(8)?;
        let mask = self.byte()?;
        let letter = letter_of(self.within(1, 0, 1)?);
        Ok(NodeLine {
            key,
            count,
            mask,
            letter,
        })
    }

    /// The next `number` nodes, whose depths are at most `most`.
    pub(crate) fn nodes(
        &mut self,
        alloc: Global,
        number: u32,
        most: u8,
    ) -> Result<List<NodeLine>, FieldError>
        requires { most ≤ 31 }
        ensures reads { Reads (times number (node_form most)) self.old self.new result }
        ensures lines { IfOk result (λ nodes. All (IsNode most) nodes) }
        ensures number { IfOk result (λ nodes. length nodes ≡ number) }
    {
        let mut nodes = Vec::new(alloc);
        for _ in 0..number {
            nodes.push(self.node(most)?)?;
        }
        Ok(List::of(nodes))
    }
}

// The letter of a code.
fn letter_of(code: u64) -> Letter
    ensures { result ≡ letter_of code }
{
    if code == 0 { Letter::A } else { Letter::B }
}

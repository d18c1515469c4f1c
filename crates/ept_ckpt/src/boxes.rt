//! Bounds in a body.

ghost use Rattle.std.specs.Prelude.{IfOk};
ghost use Rattle.ept_ckpt.specs.Forms.{corner, box_within};
ghost use Rattle.ept_ckpt.specs.Reads.{Reads};
ghost use Rattle.ept_config.specs.Ranges.{BoundsInRange};
ghost use Rattle.ept_space.specs.CubeOfBounds.{HasPlace, IsInside};

use crate::cursor::Cursor;
use crate::field_error::FieldError;
use ept_config::bounds_known;
use ept_space::Bounds;

impl<'a> Cursor<'a> {
    /// The place in the next bytes, which is between `low` and `high` on each axis.
    #[tactic(auto, unfolding(crate::specs::Forms::corner))]
    fn corner(&mut self, low: &[i32; 3], high: &[i32; 3]) -> Result<[i32; 3], FieldError>
        ensures reads { Reads (corner low.now high.now) self.old self.new result }
        ensures above { IfOk result (λ place. HasPlace (record { min = low.now; max = place })) }
        ensures below { IfOk result (λ place. HasPlace (record { min = place; max = high.now })) }
    {
        let x = self.between(low[0], high[0])?;
        let y = self.between(low[1], high[1])?;
        let z = self.between(low[2], high[2])?;
        Ok([x, y, z])
    }

    /// The bounds in the next bytes, which lie within `outer`: the minimum, and then the maximum.
    #[tactic(auto, unfolding(crate::specs::Forms::box_within))]
    pub(crate) fn box_within(&mut self, outer: &Bounds) -> Result<Bounds, FieldError>
        ensures reads { Reads (box_within outer.now) self.old self.new result }
        ensures inside { IfOk result (IsInside outer.now) }
        ensures in_range { IfOk result BoundsInRange }
    {
        let min = self.corner(&outer.min, &outer.max)?;
        let max = self.corner(&min, &outer.max)?;
        let bounds = Bounds { min, max };
        bounds_known(&bounds);
        Ok(bounds)
    }
}

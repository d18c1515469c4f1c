//! What a body states of the inputs.

ghost use Rattle.std.specs.Prelude.{◌≡◌, ◌≤◌, is_some, length, IfOk};
ghost use Rattle.std.specs.List.{All};
ghost use Rattle.std.specs.Option.{ForSome};
ghost use Rattle.ept_config.specs.Facts.{input_facts};
ghost use Rattle.ept_config.specs.InputRanges.{AreBytes};
ghost use Rattle.ept_ckpt.specs.Facts.{source_facts, sources_of};
ghost use Rattle.ept_ckpt.specs.Fields.{bytes, optional, times};
ghost use Rattle.ept_ckpt.specs.Forms.{box_within, input_form, count_form, source_form};
ghost use Rattle.ept_ckpt.specs.Reads.{Reads, ReadsAs};
ghost use Rattle.ept_ckpt.specs.Valid.{ExtentInRange};
ghost use Rattle.ept_config.specs.Counts.{IsCount, most_points};
ghost use Rattle.ept_config.specs.Ranges.{BoundsInRange};
ghost use Rattle.ept_space.specs.CubeOfBounds.{IsInside};

use crate::cursor::Cursor;
use crate::field_error::FieldError;
use ept_config::{EXPECT_WIDTH, Input, MAX_SHIFT, SourceCount};
use ept_point::List;
use ept_space::Bounds;
use std::alloc::Global;

/// The inputs, and what was found of each.
#[derive(Drop)]
pub(crate) struct Sources {
    pub(crate) inputs: List<Input>,
    pub(crate) counts: List<SourceCount>,
}

impl<'a> Cursor<'a> {
    /// The bytes that a LAS header has to have, if they are there.
    #[tactic(auto, unfolding(crate::specs::Fields::bytes))]
    fn expect_if(&mut self, there: bool) -> Result<Option<[u8; EXPECT_WIDTH]>, FieldError>
        ensures reads { Reads (optional there (bytes 48)) self.old self.new result }
        ensures bytes { IfOk result (λ expect. ForSome expect (AreBytes 48)) }
    {
        if !there {
            return Ok(None);
        }
        let front = self.bytes(EXPECT_WIDTH)?;
        Ok(Some(expect_of(front)))
    }

    /// The input in the next bytes, whose scale is at most that of the build.
    #[tactic(auto, unfolding(crate::specs::Forms::input_form))]
    fn input(&mut self, alloc: Global, scale: u8) -> Result<Input, FieldError>
        requires { scale ≤ 9 }
        ensures reads { ReadsAs (input_form scale) input_facts self.old self.new result }
        ensures scale { IfOk result (λ input. input.scale ≤ scale) }
    {
        let path = self.path(alloc)?;
        let scale = self.within(1, 0, u64::from(scale))? as u8;
        let shift = self.three_near(MAX_SHIFT)?;
        let there = self.within(1, 0, 1)? == 1;
        let expect = self.expect_if(there)?;
        Ok(Input {
            path,
            scale,
            shift,
            expect,
        })
    }

    /// An extent within the bounds, if it is there.
    fn extent_if(&mut self, there: bool, bounds: &Bounds) -> Result<Option<Bounds>, FieldError>
        ensures reads { Reads (optional there (box_within bounds.now)) self.old self.new result }
        ensures there { IfOk result (λ extent. is_some extent ≡ there) }
        ensures inside { IfOk result (λ extent. ForSome extent (IsInside bounds.now)) }
        ensures in_range { IfOk result (λ extent. ForSome extent BoundsInRange) }
    {
        if !there {
            return Ok(None);
        }
        let extent = self.box_within(bounds)?;
        Ok(Some(extent))
    }

    /// What was found of an input, in the next bytes.
    #[tactic(auto, unfolding(crate::specs::Forms::count_form))]
    fn count(&mut self, most: u64, bounds: &Bounds) -> Result<SourceCount, FieldError>
        requires { most ≤ most_points }
        ensures reads { Reads (count_form most bounds.now) self.old self.new result }
        ensures few { IfOk result (λ count. count.points ≤ most) }
        ensures count { IfOk result (IsCount bounds.now) }
        ensures extent { IfOk result ExtentInRange }
    {
        let points = self.within(8, 0, most)?;
        let there = u64::from(points > 0);
        let at = self.place();
        if self.number(1)? != there {
            return Err(FieldError::Field { at });
        }
        let extent = self.extent_if(there == 1, bounds)?;
        Ok(SourceCount { points, extent })
    }

    /// An input and what was found of it, in the next bytes.
    #[tactic(auto, unfolding(crate::specs::Forms::source_form))]
    pub(crate) fn source(
        &mut self,
        alloc: Global,
        most: u64,
        scale: u8,
        bounds: &Bounds,
    ) -> Result<(Input, SourceCount), FieldError>
        requires most { most ≤ most_points }
        requires scale { scale ≤ 9 }
        ensures reads { ReadsAs (source_form most scale bounds.now) source_facts self.old self.new result }
        ensures scale { IfOk result (λ source. source.0.scale ≤ scale) }
        ensures few { IfOk result (λ source. source.1.points ≤ most) }
        ensures count { IfOk result (λ source. IsCount bounds.now source.1) }
        ensures extent { IfOk result (λ source. ExtentInRange source.1) }
    {
        let input = self.input(alloc, scale)?;
        let count = self.count(most, bounds)?;
        Ok((input, count))
    }

    /// The next `number` inputs, and what was found of each.
    pub(crate) fn sources(
        &mut self,
        alloc: Global,
        number: u32,
        most: u64,
        scale: u8,
        bounds: &Bounds,
    ) -> Result<Sources, FieldError>
        requires most { most ≤ most_points }
        requires scale { scale ≤ 9 }
        ensures reads { ReadsAs (times number (source_form most scale bounds.now)) (λ s. sources_of s.inputs s.counts)
            self.old self.new result }
        ensures inputs { IfOk result (λ s. length s.inputs ≡ number) }
        ensures each { IfOk result (λ s. length s.counts ≡ number) }
        ensures scales { IfOk result (λ s. All (λ input. input.scale ≤ scale) s.inputs) }
        ensures few { IfOk result (λ s. All (λ count. count.points ≤ most) s.counts) }
        ensures counts { IfOk result (λ s. All (IsCount bounds.now) s.counts) }
        ensures extents { IfOk result (λ s. All ExtentInRange s.counts) }
    {
        let mut inputs = Vec::new(alloc);
        let mut counts = Vec::new(alloc);
        for _ in 0..number {
            let (input, count) = self.source(alloc, most, scale, bounds)?;
            inputs.push(input)?;
            counts.push(count)?;
        }
        Ok(Sources {
            inputs: List::of(inputs),
            counts: List::of(counts),
        })
    }
}

// These 48 bytes as an array.
fn expect_of(front: &[u8]) -> [u8; EXPECT_WIDTH]
    requires { length front.now ≡ EXPECT_WIDTH }
    ensures same { result ≡ front.now }
    ensures bytes { AreBytes 48 result }
{
    let mut expect = [0; EXPECT_WIDTH];
    expect.copy_from_slice(front);
    expect
}

//! What a body states of the configuration, as a cursor reads it.

ghost use Rattle.std.specs.Prelude.{◌≡◌, true, IfOk};
ghost use Rattle.std.specs.Option.{ForSome};
ghost use Rattle.ept_config.specs.Texts.{is_srs_text};
ghost use Rattle.ept_config.specs.Facts.{srs_facts};
ghost use Rattle.ept_config.specs.InputRanges.{AreThreeWithin};
ghost use Rattle.ept_ckpt.specs.Facts.{settings_facts};
ghost use Rattle.ept_ckpt.specs.Fields.{three, optional};
ghost use Rattle.ept_ckpt.specs.Forms.{near, srs_text, srs_form, kept_form};
ghost use Rattle.ept_ckpt.specs.Reads.{Reads, ReadsAs};

use crate::bits::has_bit;
use crate::cursor::Cursor;
use crate::field_error::FieldError;
use crate::limits::WHOLE;
use crate::settings::Settings;
use ept_config::{MAX_DEPTH, MAX_OFFSET, MAX_SCALE, MAX_STEP, MAX_THRESHOLD, Srs};
use ept_point::Text;
use ept_space::Cube;
use std::alloc::Global;

impl<'a> Cursor<'a> {
    /// The three signed numbers in the next bytes, each with an absolute value of at most `most`.
    #[tactic(auto, unfolding(crate::specs::Fields::three))]
    pub(crate) fn three_near(&mut self, most: u64) -> Result<[i64; 3], FieldError>
        ensures reads { Reads (three (near most)) self.old self.new result }
        ensures within { IfOk result (AreThreeWithin most) }
    {
        let x = self.near(most)?;
        let y = self.near(most)?;
        let z = self.near(most)?;
        Ok([x, y, z])
    }

    /// The text of a spatial reference, if it is there.
    fn srs_text_if(&mut self, alloc: Global, there: bool) -> Result<Option<Text>, FieldError>
        ensures reads { Reads (optional there srs_text) self.old self.new result }
        ensures is_text { IfOk result (λ text. ForSome text (λ text. is_srs_text text ≡ true)) }
    {
        if !there {
            return Ok(None);
        }
        let text = self.srs_text(alloc)?;
        Ok(Some(text))
    }

    /// The spatial reference in the next bytes: a bit for each text that is there, then these texts.
    #[tactic(auto, unfolding(crate::specs::Forms::srs_form))]
    fn srs(&mut self, alloc: Global) -> Result<Srs, FieldError>
        ensures reads { ReadsAs srs_form srs_facts self.old self.new result }
    {
        let there = self.within(1, 0, 15)? as u8;
        let authority = self.srs_text_if(alloc, has_bit(there, 0))?;
        let horizontal = self.srs_text_if(alloc, has_bit(there, 1))?;
        let vertical = self.srs_text_if(alloc, has_bit(there, 2))?;
        let wkt = self.srs_text_if(alloc, has_bit(there, 3))?;
        Ok(Srs {
            authority,
            horizontal,
            vertical,
            wkt,
        })
    }

    /// What is kept of the configuration except the inputs, in the next bytes.
    #[tactic(auto, unfolding(crate::specs::Forms::kept_form))]
    pub(crate) fn settings(&mut self, alloc: Global) -> Result<Settings, FieldError>
        ensures reads { ReadsAs kept_form settings_facts self.old self.new result }
    {
        let scale = self.within(1, 0, u64::from(MAX_SCALE))? as u8;
        let s = self.within(1, 1, u64::from(Cube::MAX_SPAN))? as u8;
        let max_depth = self.within(1, 0, u64::from(MAX_DEPTH))? as u8;
        let step = self.within(1, 0, u64::from(MAX_STEP))? as u8;
        let threshold = self.within(4, 0, MAX_THRESHOLD)?;
        let offset = self.three_near(MAX_OFFSET)?;
        let bounds = self.box_within(&WHOLE)?;
        let srs = self.srs(alloc)?;
        Ok(Settings {
            scale,
            s,
            max_depth,
            step,
            threshold,
            offset,
            bounds,
            srs,
        })
    }
}

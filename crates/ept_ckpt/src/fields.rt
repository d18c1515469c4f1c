//! The fields of a body, as a cursor reads them.

ghost use Rattle.std.specs.Prelude.{◌≡◌, ◌≤◌, ◌<◌, ◌-◌, ◌^◌, ◌≤ℤ◌, length, unsigned_abs, Ok, Err, IfOk, IfErr};
ghost use Rattle.std.specs.Int.{w32, w64};
ghost use Rattle.byteorder.specs.Endian.{little_number};
ghost use Rattle.ept_ckpt.specs.Fields.{bytes, number, signed, within};
ghost use Rattle.ept_ckpt.specs.Forms.{near, between};
ghost use Rattle.ept_ckpt.specs.Reads.{Reads};

use crate::cursor::Cursor;
use crate::field_error::FieldError;
use byteorder::{ByteOrder, LittleEndian};

impl<'a> Cursor<'a> {
    /// The place of the cursor, in bytes from the start of the body.
    pub(crate) fn place(&self) -> u64
        ensures { result ≡ self.now.total - length self.now.rest.now }
    {
        (self.total - self.rest.len()) as u64
    }

    /// The next bytes.
    #[tactic(auto, unfolding(crate::specs::Fields::bytes))]
    pub(crate) fn bytes(&mut self, width: usize) -> Result<&'a [u8], FieldError>
        ensures read { IfOk result (λ front. bytes width self.old.total self.old.rest.now
            ≡ Ok (front.now, self.new.rest.now)) }
        ensures width { IfOk result (λ front. length front.now ≡ width) }
        ensures refused { IfErr result (λ e. bytes width self.old.total self.old.rest.now ≡ Err e) }
        ensures total { self.new.total ≡ self.old.total }
    {
        if self.rest.len() < width {
            return Err(FieldError::Length);
        }
        let (front, rest) = self.rest.split_at(width);
        self.rest = rest;
        Ok(front)
    }

    /// The number in the next `width` bytes, which are 1 to 8.
    #[tactic(auto, unfolding(crate::specs::Fields::number))]
    pub(crate) fn number(&mut self, width: usize) -> Result<u64, FieldError>
        requires some { 1 ≤ width }
        requires few { width ≤ 8 }
        ensures reads { Reads (number width) self.old self.new result }
        ensures fits { IfOk result (λ n. n < 256 ^ width) }
    {
        if self.rest.len() < width {
            return Err(FieldError::Length);
        }
        let n = number_of(self.rest, width);
        self.rest = &self.rest[width..];
        Ok(n)
    }

    /// The next byte.
    pub(crate) fn byte(&mut self) -> Result<u8, FieldError>
        ensures reads { Reads (number 1) self.old self.new result }
    {
        Ok(self.number(1)? as u8)
    }

    /// The number in the next 4 bytes.
    pub(crate) fn u32(&mut self) -> Result<u32, FieldError>
        ensures reads { Reads (number 4) self.old self.new result }
    {
        Ok(self.number(4)? as u32)
    }

    /// The signed number in the next 4 bytes.
    #[tactic(auto, unfolding(crate::specs::Fields::signed))]
    fn i32(&mut self) -> Result<i32, FieldError>
        ensures reads { Reads (signed w32 4) self.old self.new result }
    {
        Ok(self.u32()?.cast_signed())
    }

    /// The signed number in the next 8 bytes.
    #[tactic(auto, unfolding(crate::specs::Fields::signed))]
    fn i64(&mut self) -> Result<i64, FieldError>
        ensures reads { Reads (signed w64 8) self.old self.new result }
    {
        Ok(self.number(8)?.cast_signed())
    }

    /// The number in the next bytes, which is from `least` to `most`.
    pub(crate) fn within(&mut self, width: usize, least: u64, most: u64) -> Result<u64, FieldError>
        requires some { 1 ≤ width }
        requires few { width ≤ 8 }
        ensures reads { Reads (within least most (number width)) self.old self.new result }
        ensures least { IfOk result (λ n. least ≤ n) }
        ensures most { IfOk result (λ n. n ≤ most) }
    {
        let at = self.place();
        let n = self.number(width)?;
        if n < least || n > most {
            return Err(FieldError::Field { at });
        }
        Ok(n)
    }

    /// The signed number in the next 8 bytes, whose absolute value is at most `most`.
    #[tactic(auto, unfolding(crate::specs::Forms::near))]
    pub(crate) fn near(&mut self, most: u64) -> Result<i64, FieldError>
        ensures reads { Reads (near most) self.old self.new result }
        ensures most { IfOk result (λ n. unsigned_abs n ≤ most) }
    {
        let at = self.place();
        let n = self.i64()?;
        if n.unsigned_abs() > most {
            return Err(FieldError::Field { at });
        }
        Ok(n)
    }

    /// The signed number in the next 4 bytes, which is from `low` to `high`.
    #[tactic(auto, unfolding(crate::specs::Forms::between))]
    pub(crate) fn between(&mut self, low: i32, high: i32) -> Result<i32, FieldError>
        ensures reads { Reads (between low high) self.old self.new result }
        ensures low { IfOk result (λ n. low ≤ℤ n) }
        ensures high { IfOk result (λ n. n ≤ℤ high) }
    {
        let at = self.place();
        let n = self.i32()?;
        if n < low || n > high {
            return Err(FieldError::Field { at });
        }
        Ok(n)
    }
}

// The number in the first `width` bytes, which are 1 to 8.
fn number_of(bytes: &[u8], width: usize) -> u64
    requires some { 1 ≤ width }
    requires few { width ≤ 8 }
    requires room { width ≤ length bytes.now }
    ensures number { result ≡ little_number width bytes.now }
    ensures fits { result < 256 ^ width }
{
    LittleEndian::read_uint(bytes, width)
}

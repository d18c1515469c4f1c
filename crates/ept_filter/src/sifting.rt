//! Sifting packed points.

ghost use Rattle.std.specs.Prelude.{◌≡◌, ◌≢◌, ◌↔◌, ◌%◌, ◌++◌, List, ℕ, OnOk, OnErr, IfOk, Err, length};
ghost use Rattle.ept_point.specs.Dimensions.{packed_width};
ghost use Rattle.ept_point.specs.Packed.{number_in};
ghost use Rattle.ept_class.specs.declared.class_set.ClassSet.{ClassSet};
ghost use Rattle.ept_filter.specs.Sifting.{admits_class, admits_time, cut_packed, passes_packed, selected, sifted};

use crate::layout::Layout;
use crate::rows::{CLASS_ROW, TIME_ROW};
use crate::sift::Sift;
use crate::sift_error::SiftError;
use ept_class::ClassSet;
use ept_point::{GPS_WIDTH, Memory, PACKED_LENGTH};

/// Appends what is kept of the packed points that pass, one after another in their order, and returns the number of
/// points that pass. After an error `out` is unchanged.
///
/// # Errors
///
/// `Length` if the number of bytes is no multiple of a packed point's length, otherwise only `Memory`.
pub fn sift_points(bytes: &[u8], sift: &Sift, out: &mut Vec<u8>) -> Result<u64, SiftError>
    ensures kept { OnOk result (out.new.items ≡ out.old.items ++ sifted sift.now bytes.now) }
    ensures number { IfOk result (λ count. count ≡ length (selected sift.now bytes.now)) }
    ensures length { (result ≡ Err SiftError.Length) ↔ (length bytes.now % packed_width ≢ 0) }
    ensures unchanged { OnErr result (out.new.items ≡ out.old.items) }
{
    if bytes.len() % PACKED_LENGTH != 0 {
        return Err(SiftError::Length);
    }
    let kept = out.len();
    match append_sifted(bytes, sift, out) {
        Ok(count) => Ok(count),
        Err(Memory) => {
            out.truncate(kept);
            Err(SiftError::Memory)
        }
    }
}

// Appends what is kept of the points that pass. After an error a part of it may have been appended.
fn append_sifted(bytes: &[u8], sift: &Sift, out: &mut Vec<u8>) -> Result<u64, Memory>
    requires { length bytes.now % packed_width ≡ 0 }
    ensures kept { OnOk result (out.new.items ≡ out.old.items ++ sifted sift.now bytes.now) }
    ensures number { IfOk result (λ count. count ≡ length (selected sift.now bytes.now)) }
    ensures front { (some : List ℕ) × (out.new.items ≡ out.old.items ++ some) }
{
    let layout = Layout::new();
    let mut rest = bytes;
    let mut count = 0;
    while let Some((packed, later)) = rest.split_first_chunk::<PACKED_LENGTH>() {
        if passes(&layout, sift, packed) {
            append_cut(&layout, sift, packed, out)?;
            count += 1;
        }
        rest = later;
    }
    Ok(count)
}

// Whether a packed point passes.
#[tactic(auto, unfolding(crate::specs::Sifting::passes_packed))]
fn passes(layout: &Layout, sift: &Sift, packed: &[u8; PACKED_LENGTH]) -> bool
    ensures { result ≡ passes_packed sift.now packed.now }
{
    admits_class(&sift.classes, layout.part(packed, CLASS_ROW))
        && admits_time(&sift.time, layout.part(packed, TIME_ROW))
}

fn admits_class(classes: &Option<ClassSet>, class: &[u8]) -> bool
    requires { length class.now ≡ 1 }
    ensures { result ≡ admits_class classes.now (number_in class.now) }
{
    match classes {
        None => true,
        Some(classes) => classes.contains(class[0]),
    }
}

fn admits_time(asked: &Option<[u8; GPS_WIDTH]>, time: &[u8]) -> bool
    ensures { result ≡ admits_time asked.now time.now }
{
    match asked {
        None => true,
        Some(asked) => asked.as_slice() == time,
    }
}

// Appends what is kept of a packed point.
fn append_cut(
    layout: &Layout,
    sift: &Sift,
    packed: &[u8; PACKED_LENGTH],
    out: &mut Vec<u8>,
) -> Result<(), Memory>
    ensures kept { OnOk result (out.new.items ≡ out.old.items ++ cut_packed sift.now packed.now) }
    ensures front { (some : List ℕ) × (out.new.items ≡ out.old.items ++ some) }
{
    for row in sift.dims.rows() {
        out.extend_from_slice(layout.part(packed, *row))?;
    }
    Ok(())
}

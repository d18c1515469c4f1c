//! What holds for every selection. Each law is the contract of a function that does nothing.

ghost use Rattle.ept_filter.specs.Laws.{SelectsPoints, SiftsPoints, TextsHaveOneSift, TextsAskOrNot};

use ept_class::class_set_law;
use ept_point::{layout_law, packed_length_law};

/// The points of a tile that pass are selected, and the dimensions that are asked for are kept of them.
pub fn sift_law()
    ensures selects { SelectsPoints }
    ensures sifts { SiftsPoints }
{
    layout_law();
    packed_length_law();
}

/// Three texts ask for at most one selection, and it is decided whether they ask for one.
pub fn sift_text_law()
    ensures once { TextsHaveOneSift }
    ensures decided { TextsAskOrNot }
{
    class_set_law();
}

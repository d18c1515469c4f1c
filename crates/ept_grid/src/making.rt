//! Room for cells, and the heads of their columns.

ghost use Rattle.std.specs.Prelude.{◌≡◌, ◌⊎◌, [], ◌<◌, ◌≤◌, ◌-◌, ◌*◌, ◌^◌, ℕ, min, length, slice_index, vec_len, vec_capacity, OnOk, OnErr};
ghost use Rattle.ept_grid.specs.Columns.{spots_of, nexts_of, IsChained};

use crate::pool::Cell;
use ept_point::Memory;
use ept_space::Rules;

/// How many cells links can name.
const MAX_CELLS: usize = 4_294_967_295;

/// The heads of the columns of a node without cells, and its list of cells, in these two lists, whatever they had.
pub(crate) fn emptied(
    rules: &Rules,
    heads: &mut Vec<u32>,
    cells: &mut Vec<Cell>,
) -> Result<(), Memory>
    ensures cells { cells.new.items ≡ [] }
    ensures table { OnOk result (length heads.new.items ≡ 2 ^ (2 * rules.now.cube.s)) }
    ensures some { OnOk result (0 < length heads.new.items) }
    ensures chained { OnOk result ((depth : ℕ) →
        IsChained heads.new.items (nexts_of cells.new.items) (spots_of rules.now depth cells.new.items)) }
{
    cells.clear();
    heads.clear();
    make_heads(rules, heads)
}

/// Makes the heads of the columns if there are none yet, and room for `more` cells. The cells stay, whatever the
/// result.
pub(crate) fn make_cells(
    rules: &Rules,
    heads: &mut Vec<u32>,
    cells: &mut Vec<Cell>,
    more: usize,
) -> Result<(), Memory>
    requires table { (length heads.old.items ≡ 0) ⊎ (length heads.old.items ≡ 2 ^ (2 * rules.now.cube.s)) }
    requires some { 0 < vec_capacity cells.old → 0 < length heads.old.items }
    ensures room { OnOk result (more ≤ min (vec_capacity cells.new) 4294967295 - length cells.new.items) }
    ensures cells { cells.new.items ≡ cells.old.items }
    ensures table { (length heads.new.items ≡ 0) ⊎ (length heads.new.items ≡ 2 ^ (2 * rules.now.cube.s)) }
    ensures some { 0 < vec_capacity cells.new → 0 < length heads.new.items }
    ensures chained { (depth : ℕ) →
        IsChained heads.old.items (nexts_of cells.old.items) (spots_of rules.now depth cells.old.items) →
        IsChained heads.new.items (nexts_of cells.new.items) (spots_of rules.now depth cells.new.items) }
{
    if MAX_CELLS.saturating_sub(cells.len()) < more {
        return Err(Memory);
    }
    make_heads(rules, heads)?;
    make_room_for(cells, more)
}

/// Makes room in a list for `more` items. The items that are there stay, whatever the result. A list without that room
/// grows by `more`, or by an eighth of its length if that is greater. So it is moved rarely, and has little unused
/// room.
pub(crate) fn make_room_for<T>(list: &mut Vec<T>, more: usize) -> Result<(), Memory>
    ensures room { OnOk result (more ≤ vec_capacity list.new - vec_len list.new) }
    ensures items { list.new.items ≡ list.old.items }
{
    if list.capacity() - list.len() < more {
        list.reserve_exact(more.max(list.len() / 8))?;
    }
    Ok(())
}

// Makes a head for each column, if there are none yet. The first heads lead to no cell.
fn make_heads(rules: &Rules, heads: &mut Vec<u32>) -> Result<(), Memory>
    ensures made { OnOk result (0 < length heads.new.items) }
    ensures unchanged { OnErr result (heads.new.items ≡ heads.old.items) }
    ensures kept { 0 < length heads.old.items → heads.new.items ≡ heads.old.items }
    ensures table { length heads.old.items ≡ 0 → OnOk result (length heads.new.items ≡ 2 ^ (2 * rules.now.cube.s)) }
    ensures to_none { length heads.old.items ≡ 0 → (c : ℕ) → slice_index heads.new.items c ≡ 0 }
{
    if heads.is_empty() {
        rules.cube.known();
        let columns = 1usize << (2 * u32::from(rules.cube.s));
        heads.resize(columns, 0)?;
    }
    Ok(())
}

//! Calls of `ept_forest`.

ghost use Rattle.std.specs.Prelude.{◌≤◌, length};
ghost use Rattle.ept_forest.specs.Slots.{nodes_of};

use crate::notation::{calls_of, cube_of};
use crate::words::{Miss, Words};
use crate::writing::write_refusal;
use ept_base::{PutError, SpillFile};
use ept_forest::{Forest, Full};
use ept_mem::MemRoom;
use ept_space::Rules;
use std::alloc::Global;
use std::fmt::Write;

/// Carries out a call, and writes its result.
pub(crate) fn answer(
    alloc: Global,
    call: &str,
    words: &mut Words<'_>,
    out: &mut String,
) -> Result<(), Miss> {
    match call {
        "slots" => slots(alloc, words, out),
        _ => Err(Miss::Form),
    }
}

// `forest slots CUBE SLOTS FAILS`: the states of the first and the last node of a new forest of SLOTS slots, and how
// many are drawn. Then the result of drawing a slot, once for each slot, and how many are drawn then. At last the
// result of one more draw from the forest of its nodes. The calls of its room with the numbers FAILS fail.
fn slots(alloc: Global, words: &mut Words<'_>, out: &mut String) -> Result<(), Miss> {
    let cube = cube_of(words.word()?)?;
    let slots = words.number::<u32>()?;
    let mut room = MemRoom::new(alloc, calls_of(alloc, words.word()?)?, Vec::new(alloc));
    if slots < 1 {
        return Err(Miss::Form);
    }
    let rules = Rules::plain(cube, 0);
    match Forest::new(alloc, &mut room, slots, &rules) {
        Ok(mut forest) => {
            let done = draw_all(slots, &mut forest, out);
            let (nodes, used) = forest.into_nodes();
            let mut again = Forest::from_nodes(nodes, used);
            let refused = again.add();
            again.retire_all(&mut room);
            done?;
            write_drawn(refused, out)
        }
        Err(PutError::Memory) => Err(Miss::Memory),
        Err(refused) => write_refusal(&refused, out),
    }
}

fn draw_all<F: SpillFile>(slots: u32, forest: &mut Forest<F>, out: &mut String) -> Result<(), Miss>
    requires some { 1 ≤ slots }
    requires slots { slots ≤ length (nodes_of forest.old) }
{
    let first = forest.node(1).state();
    let last = forest.node(slots).state();
    write!(out, "{first:?} {last:?} {} |", forest.used())?;
    for _slot in 0..slots {
        write_drawn(forest.add(), out)?;
    }
    write!(out, " | {} |", forest.used())?;
    Ok(())
}

fn write_drawn(drawn: Result<u32, Full>, out: &mut String) -> Result<(), Miss> {
    match drawn {
        Ok(slot) => write!(out, " {slot}")?,
        Err(refused) => write!(out, " {refused:?}")?,
    }
    Ok(())
}

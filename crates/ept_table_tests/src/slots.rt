use crate::load::{Loaded, load_apart, load_three};
use crate::trade::{Drawn, Traded, draw_twice, take_first, trade_apart};
use std::test::Fail;

#[test]
fn two_traders_lose_nothing(rt: HostRuntime) -> Result<(), Fail> {
    for _ in 0..100 {
        let items = [5u64, 7, 9].to_vec(rt.alloc())?;
        let Ok(
            Traded {
                items,
                first,
                second,
            },
        ) = trade_apart(&rt, rt.alloc(), items, 21)
        else {
            panic!(rt; "no memory")
        };
        let mut sum = first.wrapping_add(second);
        for x in items.as_slice() {
            sum = sum.wrapping_add(*x);
        }
        assert!(rt; (sum, items.len()) == (21, 3));
    }
    Ok(())
}

#[test]
fn one_slot_is_drawn_once(rt: HostRuntime) -> Result<(), Fail> {
    let items = [5u64, 7, 9].to_vec(rt.alloc())?;
    let Ok(
        Drawn {
            first,
            second,
            seen,
            ending,
        },
    ) = draw_twice(rt.alloc(), items, 21)
    else {
        panic!(rt; "no memory")
    };
    assert!(rt; (first, second, seen, ending.drawn) == (Some(1), None, 2, 2));
    assert!(rt; ending.items.as_slice() == [5, 7, 9].as_slice());
    Ok(())
}

#[test]
fn a_table_may_have_no_slots(rt: HostRuntime) -> Result<(), Fail> {
    let none = Vec::new(rt.alloc());
    let Ok(drawn) = draw_twice(rt.alloc(), none, 0) else {
        panic!(rt; "no memory")
    };
    assert!(rt; (drawn.ending.items.len(), drawn.first) == (0, Some(1)));
    Ok(())
}

#[test]
fn a_free_slot_is_taken_at_once(rt: HostRuntime) -> Result<(), Fail> {
    let items = [5u64, 7, 9].to_vec(rt.alloc())?;
    let Ok((ending, taken)) = take_first(rt.alloc(), items, 21) else {
        panic!(rt; "no memory")
    };
    assert!(rt; (taken, ending.drawn) == (Some(5), 0));
    assert!(rt; ending.items.as_slice() == [0, 7, 9].as_slice());
    Ok(())
}

#[test]
fn permits_run_out_and_are_given_back(rt: HostRuntime) -> Result<(), Fail> {
    // One of the two permits is in the first slot when the table is made, or none is.
    for (first, free) in [(false, 2u64), (true, 1)] {
        let items = [first, false, false].to_vec(rt.alloc())?;
        let Ok(
            Loaded {
                answers,
                wanted,
                ending,
            },
        ) = load_three(&rt, rt.alloc(), items, free, 2)
        else {
            panic!(rt; "no memory")
        };
        assert!(rt; answers == (true, true, false, true));
        assert!(rt; wanted == (true, false));
        assert!(rt; (ending.free, ending.drawn) == (0, 0));
        assert!(rt; ending.items.as_slice() == [false, true, true].as_slice());
    }
    Ok(())
}

#[test]
fn two_loaders_lose_no_permit_and_make_none(rt: HostRuntime) -> Result<(), Fail> {
    for round in 0..100u64 {
        let items = [false, false, false].to_vec(rt.alloc())?;
        let permits = round % 4;
        let Ok(ending) = load_apart(&rt, rt.alloc(), items, permits) else {
            panic!(rt; "no memory")
        };
        let mut loaded = 0u64;
        for is_loaded in ending.items.as_slice() {
            if *is_loaded {
                loaded = loaded.wrapping_add(1);
            }
        }
        assert!(rt; ending.free.wrapping_add(loaded) == permits);
    }
    Ok(())
}

//! What no contract of the crate says: that two calls of a judge run at once; and one happy path for each call.
ghost use Rattle.std.specs.Prelude.{◌≡◌, Some, true, length, slice_get};

use grind_outside::Memory;
use grind_par_check::judge::{Judge, first_bad};
use std::sync::atomic::{AtomicBool, Ordering};
use std::test::Fail;

// Items whose truths stand in a row.
#[derive(Drop)]
struct Row<'a> {
    items: &'a [bool],
}

impl<'a> Judge for Row<'a> {
    ghost count = { λ row. length row.items.now };

    ghost holds = { λ row i. slice_get row.items.now i ≡ Some true };

    fn judge(&self, i: u32) -> Result<bool, Memory> {
        Ok(self.items[i as usize])
    }
}

#[test]
fn the_first_of_two_bad_items(rt: HostRuntime) -> Result<(), Fail> {
    let row = Row {
        items: &[true, false, false],
    };
    for jobs in [1, 2, 8, 64] {
        assert_eq!(rt; first_bad(&rt, &row, 3, jobs)?, Some(1), "{jobs} jobs");
    }
    Ok(())
}

#[test]
fn no_item_is_bad(rt: HostRuntime) -> Result<(), Fail> {
    let none = Row { items: &[] };
    let two = Row {
        items: &[true, true],
    };
    for jobs in [1, 2, 8] {
        assert_eq!(rt; first_bad(&rt, &none, 0, jobs)?, None, "{jobs} jobs");
        assert_eq!(rt; first_bad(&rt, &two, 2, jobs)?, None, "{jobs} jobs");
    }
    Ok(())
}

// How often a call looks for the flag of the other one.
const TURNS: u32 = 500_000_000;

// Two items that are true. The call for each raises a flag, and looks for the flag of the other.
#[derive(Drop)]
struct Meeting {
    first: AtomicBool,
    second: AtomicBool,
    first_saw: AtomicBool,
    second_saw: AtomicBool,
}

impl Judge for Meeting {
    ghost count = { λ _. 2 };

    ghost holds = { λ _ _. Unit {0} };

    fn judge(&self, i: u32) -> Result<bool, Memory> {
        if i == 0 {
            meet(&self.first, &self.second, &self.first_saw);
        } else {
            meet(&self.second, &self.first, &self.second_saw);
        }
        Ok(true)
    }
}

// Raises a flag, and looks for the other one.
fn meet(mine: &AtomicBool, other: &AtomicBool, saw: &AtomicBool) {
    mine.store(true, Ordering::SeqCst);
    for _turn in 0..TURNS {
        if other.load(Ordering::SeqCst) {
            saw.store(true, Ordering::SeqCst);
            return;
        }
    }
}

#[test]
fn two_calls_run_at_once(rt: HostRuntime) -> Result<(), Fail> {
    let meeting = Meeting {
        first: AtomicBool::new(false),
        second: AtomicBool::new(false),
        first_saw: AtomicBool::new(false),
        second_saw: AtomicBool::new(false),
    };
    assert_eq!(rt; first_bad(&rt, &meeting, 2, 2)?, None);
    assert!(rt; meeting.first_saw.load(Ordering::SeqCst));
    assert!(rt; meeting.second_saw.load(Ordering::SeqCst));
    Ok(())
}

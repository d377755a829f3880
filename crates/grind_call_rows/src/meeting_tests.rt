//! That each of four jobs judges an item of its own while the three others do.
ghost use Rattle.std.specs.Prelude.{◌≡◌, ◌<◌};

use grind_outside::Memory;
use grind_par_check::judge::{Judge, first_bad};
use std::sync::atomic::{AtomicU32, Ordering};
use std::test::Fail;

/// How often a call looks for the others.
const TURNS: u32 = 500_000_000;

/// Four items that are true. The call for each is counted, and looks for the calls of the others.
#[derive(Drop)]
struct Meeting {
    here: AtomicU32,
    met: AtomicU32,
}

impl Judge for Meeting {
    ghost count = { λ _. 4 };

    ghost holds = { λ _ _. Unit {0} };

    fn judge(&self, _i: u32) -> Result<bool, Memory> {
        self.here.fetch_add(1, Ordering::SeqCst);
        for _turn in 0..TURNS {
            if self.here.load(Ordering::SeqCst) == 4 {
                self.met.fetch_add(1, Ordering::SeqCst);
                return Ok(true);
            }
        }
        Ok(true)
    }
}

#[test]
fn four_calls_run_at_once(rt: HostRuntime) -> Result<(), Fail> {
    let meeting = Meeting {
        here: AtomicU32::new(0),
        met: AtomicU32::new(0),
    };
    assert_eq!(rt; first_bad(&rt, &meeting, 4, 4)?, None);
    assert_eq!(rt; meeting.here.load(Ordering::SeqCst), 4);
    assert_eq!(rt; meeting.met.load(Ordering::SeqCst), 4);
    Ok(())
}

/// Items of which the third is bad, and the judge of the fourth finds no memory.
#[derive(Drop)]
struct Poor;

impl Judge for Poor {
    ghost count = { λ _. 4 };

    ghost holds = { λ _ i. i < 2 };

    ghost refuses = { λ _ i. i ≡ 3 };

    fn judge(&self, i: u32) -> Result<bool, Memory> {
        if i == 3 {
            return Err(Memory);
        }
        Ok(i < 2)
    }
}

/// The bad item stands before the one that found no memory.
#[test]
fn a_bad_item_before_want_of_memory(rt: HostRuntime) {
    for jobs in [1, 2, 3, 4, 9] {
        assert_eq!(rt; first_bad(&rt, &Poor, 4, jobs), Ok(Some(2)), "{jobs} jobs");
    }
}

//! The first bad item of many, looked for by several threads.
ghost use Rattle.std.specs.Prelude.{◌≡◌, ◌≤◌, ◌<◌, ◌+◌, ◌*◌, ◌/◌, ◌↔◌, ℕ, Option, IsTrue, IfOk, OnErr};
ghost use Rattle.std.specs.Thread.{IsSync};
ghost use Rattle.grind_par_check.specs.Judges.{IsFound, IsRefused};
ghost use Rattle.grind_par_check.specs.Runs.{IsFoundInRun, IsRefusedInRun};

use grind_outside::Memory;
use std::thread::{Threads, join};

/// Who says of each item whether it is true. A judge means so many items and which of them are true. It is shared by
/// threads, and may be asked for several items at once.
pub trait Judge: Sync {
    ghost count: { Self → ℕ };

    ghost holds: { Self → ℕ → Type 0 };

    // What else is known where the judge found no memory for item `i`.
    ghost refuses: { Self → ℕ → Type 0 } = { λ _ _. Unit {0} };

    /// Whether item `i` is true.
    ///
    /// # Errors
    /// `Memory` if out of memory.
    fn judge(&self, i: u32) -> Result<bool, Memory>
        requires { i < count self.now }
        ensures ok { IfOk result (λ answer. IsTrue answer ↔ holds self.now i) }
        ensures err { OnErr result (refuses self.now i) };
}

/// The place of the first item that is not true, or None where each is true. The items are judged in so many runs of
/// neighbours, or in one for each item where there are fewer, and the runs by threads of their own where threads can be had.
///
/// # Errors
/// `Memory` where the judge found none for one of the items, and each item before that one is true. So the place that is
/// answered is the same for every number of jobs, and no bad item stands before the item that found no memory.
pub fn first_bad<J: Judge>(
    rt: &(impl Threads + Sync),
    judge: &J,
    count: u32,
    jobs: u32,
) -> Result<Option<u32>, Memory>
    requires count { count ≡ J.count judge.now }
    requires jobs { 1 ≤ jobs }
    ensures ok { IfOk result (IsFound (J.holds judge.now) count) }
    ensures err { OnErr result (IsRefused (J.holds judge.now) (J.refuses judge.now) count) }
{
    if count == 0 {
        return Ok(None);
    }
    let runs = jobs.min(count);
    let found = first_between(rt, judge, 0, count, runs)?;
    Ok(found)
}

#[tactic(auto, using(crate::proofs::JudgeLemmas::one_found))]
/// The answer of one number of jobs is that of every other.
pub fn one_answer<J: Judge>(judge: &J)
    ensures { (count : ℕ) (a b : Option ℕ) → IsFound (J.holds judge.now) count a → IsFound (J.holds judge.now) count b → a ≡ b }
{}

/// The place of the first item of a run that is not true. The run is cut into so many shorter ones, each of at least one
/// item, half of which are judged by another thread.
fn first_between<R: Threads + Sync, J: Judge>(
    rt: &R,
    judge: &J,
    from: u32,
    to: u32,
    runs: u32,
) -> Result<Option<u32>, Memory>
    requires items { to ≤ J.count judge.now }
    requires runs { 0 < runs }
    requires each { from + runs ≤ to }
    ensures ok { IfOk result (IsFoundInRun (J.holds judge.now) from to) }
    ensures err { OnErr result (IsRefusedInRun (J.holds judge.now) (J.refuses judge.now) from to) }
{
    if runs == 1 {
        return first_in_run(judge, from, to);
    }
    let left = runs / 2;
    let right = runs - left;
    let middle = from + share(to - from, left, runs);
    let (before, behind) = join(
        rt,
        || -> Result<Option<u32>, Memory>
            requires { IsSync R.row × IsSync J.row × (from + left ≤ middle) × (middle ≤ J.count judge.now) × (0 < left) }
            ensures ok { IfOk result (IsFoundInRun (J.holds judge.entry.now) from middle) }
            ensures err { OnErr result (IsRefusedInRun (J.holds judge.entry.now) (J.refuses judge.entry.now) from middle) }
        { first_between(rt, judge, from, middle, left) },
        || -> Result<Option<u32>, Memory>
            requires { IsSync R.row × IsSync J.row × (middle + right ≤ to) × (to ≤ J.count judge.now) × (0 < right) }
            ensures ok { IfOk result (IsFoundInRun (J.holds judge.entry.now) middle to) }
            ensures err { OnErr result (IsRefusedInRun (J.holds judge.entry.now) (J.refuses judge.entry.now) middle to) }
        { first_between(rt, judge, middle, to, right) },
    );
    match before? {
        Some(place) => Ok(Some(place)),
        None => behind,
    }
}

#[tactic(auto, using(crate::proofs::ShareLemmas::share_holds, crate::proofs::ShareLemmas::share_leaves))]
/// How much of a length so many of its parts take, rounded down. Each part is at least 1 long, and so is each that is left.
fn share(length: u32, parts: u32, all: u32) -> u32
    requires parts { parts ≤ all }
    requires all { 0 < all }
    requires each { all ≤ length }
    ensures value { result ≡ length * parts / all }
    ensures holds { parts ≤ result }
    ensures leaves { result + all ≤ length + parts }
{
    (u64::from(length) * u64::from(parts) / u64::from(all)) as u32
}

/// The place of the first item of a run that is not true, on this thread alone. The run has an item.
fn first_in_run<J: Judge>(judge: &J, from: u32, to: u32) -> Result<Option<u32>, Memory>
    requires run { from < to }
    requires items { to ≤ J.count judge.now }
    ensures ok { IfOk result (IsFoundInRun (J.holds judge.now) from to) }
    ensures err { OnErr result (IsRefusedInRun (J.holds judge.now) (J.refuses judge.now) from to) }
{
    for i in from..to {
        let good = judge.judge(i)?;
        if !good {
            return Ok(Some(i));
        }
    }
    Ok(None)
}

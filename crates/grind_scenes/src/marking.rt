//! Marks and generations of the first nodes.
ghost use Rattle.std.specs.Prelude.{◌≡◌, length, replicate, nat_eq, not, IfOk};
ghost use Rattle.std.specs.List.{list_any};
ghost use Rattle.grind_scenes.specs.Formulas.{AreMarks};

use grind_outside::{List, Memory};
use std::alloc::Global;

/// A mark for each of the first nodes, so many of them: whether the node is one of the list.
///
/// # Errors
///
/// `Memory` if out of memory.
pub fn marks_of(alloc: Global, count: u32, listed: &[u32]) -> Result<List<bool>, Memory>
    ensures { IfOk result (λ marks. AreMarks (λ n. list_any (λ k. nat_eq k n) listed.now) count marks) }
{
    let mut marks = List::new(alloc);
    for n in 0..count {
        marks.push(listed.contains(&n))?;
    }
    Ok(marks)
}

/// A mark for each of the first nodes, so many of them: whether the node is none of the list.
///
/// # Errors
///
/// `Memory` if out of memory.
pub fn marks_but(alloc: Global, count: u32, listed: &[u32]) -> Result<List<bool>, Memory>
    ensures { IfOk result (λ marks. AreMarks (λ n. not (list_any (λ k. nat_eq k n) listed.now)) count marks) }
{
    let mut marks = List::new(alloc);
    for n in 0..count {
        marks.push(!listed.contains(&n))?;
    }
    Ok(marks)
}

/// Generation 0 for each of the first nodes, so many of them.
///
/// # Errors
///
/// `Memory` if out of memory.
pub fn zeros(alloc: Global, count: u32) -> Result<List<u32>, Memory>
    ensures value { IfOk result (λ generations. generations ≡ replicate count 0) }
    ensures long { IfOk result (λ generations. length generations ≡ count) }
{
    let mut generations = List::new(alloc);
    for _n in 0..count {
        generations.push(0)?;
    }
    Ok(generations)
}

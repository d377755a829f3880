//! The trail of changes.
ghost use Rattle.std.specs.Prelude.{◌≡◌, ◌≤◌, ◌++◌, length, take, drop, IfOk};
ghost use Rattle.grind_classes.specs.Trail.{rewound, IsTrail, IsRewoundOnce};

use crate::change::{Change, copied as copied_change};
use crate::partition::Partition;
use grind_outside::{List, Memory};
use std::alloc::Global;

// Undoes the last changes, until so many are left.
pub(crate) fn rewind(parts: &mut Partition, trail: &mut List<Change>, len: usize)
    requires trail { IsTrail parts.old trail.old }
    requires within { len ≤ length trail.old }
    ensures left { trail.new ≡ take len trail.old }
    ensures lists { parts.new ≡ rewound parts.old (drop len trail.old) }
    ensures trail { IsTrail parts.new trail.new }
{
    while trail.len() > len {
        undo_last(parts, trail);
    }
}

// Undoes the last change.
fn undo_last(parts: &mut Partition, trail: &mut List<Change>)
    requires trail { IsTrail parts.old trail.old }
    ensures { IsRewoundOnce parts.old trail.old parts.new trail.new }
{
    if let Some(change) = trail.pop() {
        parts.undo(change);
    }
}

// A copy of a trail.
pub(crate) fn copied(alloc: Global, trail: &[Change]) -> Result<List<Change>, Memory>
    ensures { IfOk result (λ copy. copy ≡ trail.now) }
{
    let mut copy = List::new(alloc);
    let mut rest = trail;
    while let Some((change, tail)) = rest.split_first() {
        let change = copied_change(alloc, change)?;
        copy.push(change)?;
        rest = tail;
    }
    Ok(copy)
}

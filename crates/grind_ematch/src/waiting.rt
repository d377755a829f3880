//! Lists of partial matches that wait to be joined, and which comes next.
ghost use Rattle.std.specs.Prelude.{◌≡◌, ◌⊎◌, None, Some, IsSome, MatchOption};
ghost use Rattle.grind_ematch.specs.Waiting.{NoneWaits, Waits, Takes};

use crate::buckets::root_of;
use crate::partial::Partial;
use grind_outside::List;

/// A list that may come next.
#[derive(Clone, Copy)]
struct Choice {
    /// Where it stands.
    place: usize,
    /// How many variables it shares with what was joined so far.
    shared: usize,
}

/// Takes the list that shares the most variables with the partial matches, so that what is joined stays small. None comes
/// exactly where no list waits.
pub fn take_next(
    found: &[Partial],
    waiting: &mut List<Option<List<Partial>>>,
) -> Option<List<Partial>>
    ensures { MatchOption result (NoneWaits waiting.old) (λ list. Takes waiting.old list waiting.new) }
{
    let Some(place) = next_place(found, waiting.as_slice()) else {
        return None;
    };
    waiting.replace(place, None)
}

// Where the list stands that comes next.
fn next_place(found: &[Partial], waiting: &[Option<List<Partial>>]) -> Option<usize>
    ensures { MatchOption result (NoneWaits waiting.now) (λ place. Waits waiting.now place) }
{
    let mut best = None;
    for place in 0..waiting.len() {
        best = better(found, best, place, &waiting[place]);
    }
    let Some(choice) = best else {
        return None;
    };
    Some(choice.place)
}

// The better of the best so far and the list at this place, if one waits there.
fn better(
    found: &[Partial],
    best: Option<Choice>,
    place: usize,
    list: &Option<List<Partial>>,
) -> Option<Choice>
    ensures { MatchOption result ((best ≡ None) × (list.now ≡ None))
        (λ choice. (best ≡ Some choice) ⊎ ((choice.place ≡ place) × IsSome list.now)) }
{
    let Some(list) = list else {
        return best;
    };
    let shared = shared_count(found, list.as_slice());
    let Some(choice) = best else {
        return Some(Choice { place, shared });
    };
    if choice.shared >= shared {
        return Some(choice);
    }
    Some(Choice { place, shared })
}

// How many variables have a root in the first of either list. One that is empty shares all, since nothing is left once it
// was joined. What it answers decides how long joining takes and not what comes of it.
fn shared_count(left: &[Partial], right: &[Partial]) -> usize {
    let Some(one) = left.first() else {
        return usize::MAX;
    };
    let Some(other) = right.first() else {
        return usize::MAX;
    };
    let slots = one.slots.as_slice();
    let mut count = 0;
    for variable in 0..slots.len() {
        if root_of(slots, variable).is_some()
            && root_of(other.slots.as_slice(), variable).is_some()
        {
            count += 1;
        }
    }
    count
}

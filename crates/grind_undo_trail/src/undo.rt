//! Values that go back to a mark.
ghost use Rattle.std.specs.Prelude.{◌≡◌, ◌<◌, ◌++◌, ◌∷◌, [], List, Some, length, take, slice_get, IfOk, OnOk, OnErr};
ghost use Rattle.std.specs.Fn.{FnOnceReturnsAtMut};
ghost use Rattle.grind_undo_trail.specs.Marks.{Keeps, UndoIsExact};

use crate::mark::Mark;
use grind_outside::Memory;
use std::alloc::Global;

/// A value on which marks are set. The marks in force form a stack, and `marked` has for each of them the view that
/// `undo` would leave. Every other call of such a type leaves `marked` as it is, also where the call is refused.
pub trait Undo {
    /// What `undo` gives back.
    type View;

    ghost present: { Self → Self.View };

    ghost marked: { Self → List Self.View };

    /// Sets a mark on what the value is now.
    ///
    /// # Errors
    ///
    /// `Memory` leaves the value as it was.
    fn mark(&mut self, alloc: Global) -> Result<Mark, Memory>
        ensures place { IfOk result (λ mark. mark ≡ length (marked self.old)) }
        ensures marked { OnOk result (marked self.new ≡ marked self.old ++ present self.old ∷ []) }
        ensures present { OnOk result (present self.new ≡ present self.old) }
        ensures err { OnErr result (self.new ≡ self.old) };

    /// Goes back to a mark in force, and ends it and all later ones. It takes no memory.
    fn undo(&mut self, mark: Mark)
        requires { mark < length (marked self.old) }
        ensures present { slice_get (marked self.old) mark ≡ Some (present self.new) }
        ensures marked { marked self.new ≡ take mark (marked self.old) };
}

/// Makes any calls between a mark and its `undo`: the value is what it was. The calls may set marks of their own and
/// go back to them, and they may be refused.
///
/// # Errors
///
/// `Memory` where there was none for the mark. Then no call was made.
pub fn between_marks<T: Undo, F: FnOnce(&mut T)>(
    alloc: Global,
    value: &mut T,
    calls: F,
) -> Result<(), Memory>
    requires callable { F.IsAlwaysCallable calls }
    requires keeps { (old new : T) (r : _) → FnOnceReturnsAtMut F.FnOnce calls old r new → Keeps (T.marked old) (T.marked new) }
    ensures present { T.present value.new ≡ T.present value.old }
    ensures marked { T.marked value.new ≡ T.marked value.old }
{
    let mark = value.mark(alloc)?;
    calls(value);
    value.undo(mark);
    Ok(())
}

/// After any calls, `undo` gives the view at the mark.
pub fn undo_after_any_calls<T: Undo>()
    ensures { UndoIsExact T.View }
{}

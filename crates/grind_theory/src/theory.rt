//! What the declarations of a file make, or what is wrong with them.
use grind_outside::{List, Memory};
use grind_schemes::{Goal, Lemmas};
use grind_signature::Signature;

/// A theory: its declared names, what it gives to prove with, and its goals in order. Every theorem and limit of
/// the file serves every goal.
#[derive(Drop)]
pub struct Theory {
    /// The declared names.
    pub signature: Signature,
    /// The theorems, and the limits of a search.
    pub lemmas: Lemmas,
    /// The goals, in order.
    pub goals: List<Goal>,
}

/// What is wrong with a declaration. Each fault is looked for only where none before it stands.
#[derive(Clone, Copy, Debug, PartialEq, Eq)]
pub enum Fault {
    /// Its name is held already, or a limit is set already; or the name of a binder is held already, or stands
    /// twice among the binders.
    Duplicate,
    /// A name of a sort, a function, a constant, a variable or a limit that nothing before it gives.
    Unknown,
    /// A name has another number of arguments than it asks for.
    Arity,
    /// A term has another sort than is asked for, or an argument or a variable has the sort `Prop`.
    Sort,
    /// The annotations give no patterns that hold every variable, or there are none, or there is no variable.
    Pattern,
    /// Too many arguments, variables or nodes, or the value of a limit outside its range.
    Size,
}

/// Why no theory was made.
#[derive(Clone, Copy, Debug, PartialEq, Eq)]
pub enum TheoryRefusal {
    /// The first declaration that has a fault.
    Bad {
        /// Its number, counted from 1.
        decl: u32,
        /// The first fault that it has.
        fault: Fault,
    },
    /// Out of memory.
    Memory,
}

/// Why a declaration was not taken.
#[derive(Clone, Copy, Debug, PartialEq, Eq)]
pub(crate) enum DeclRefusal {
    /// This is its first fault.
    Faulty(Fault),
    /// Out of memory.
    Memory,
}

impl From<Memory> for DeclRefusal {
    ghost use Rattle.std.specs.Prelude.{◌≡◌};
    ghost use Rattle.grind_theory.specs.declared.theory.DeclRefusal.{DeclRefusal};

    ghost from_gives = { λ _ refusal. refusal ≡ DeclRefusal.Memory };

    fn from(_want: Memory) -> DeclRefusal {
        DeclRefusal::Memory
    }
}

//! Marks. Contracts see each as its number.
ghost use Rattle.std.specs.Prelude.{◌≡◌};

use std::marker::Model;

/// A mark that was set on a value: its place among the marks in force.
#[derive(Clone, Copy, Debug, PartialEq, Eq)]
pub struct Mark {
    number: u32,
}

impl Model for Mark {
    ghost use Rattle.std.specs.Prelude.{ℕ};

    ghost Value = { ℕ };

    ghost view = { λ a. a.number };

    ghost inverse = { λ n. record { number = n } };
}

impl Mark {
    /// The mark of this number.
    pub fn new(number: u32) -> Mark
        ensures { result ≡ number }
    {
        Mark { number }
    }

    /// The number of the mark.
    pub fn number(self) -> u32
        ensures { result ≡ self }
    {
        self.number
    }
}

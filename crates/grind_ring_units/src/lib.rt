//! The units of work of the ring solver, over what it knows: equalities whose polynomial no post says to be 0, facts and
//! pairs of basis elements whose normal forms join the basis, basis elements that are numbers, and terms that have the
//! same normal form. Each unit names a case, or says that there is none; and where nothing joins, which numbers do not
//! fit in 128 bits, and which normal forms would join if one more might.
#![tactic(auto)]

pub mod findings;
mod known;
pub mod types;
pub mod units;

pub use findings::{Marks, Posts, Scan};
pub use types::{Agenda, Equality, State};
pub use units::conflicts::first_conflict;
pub use units::equal_terms::{EqualTerms, first_equal};
pub use units::pairs::scan_pairs;
pub use units::posts::scan_posts;
pub use units::zeroed::{first_unread, first_zeroed};

//! What a case asks for, the directives that change it, and its runs over shelves and sinks in memory. It promises nothing of what it
//! shows: the program `grind_rows` reads cases from files, and its stored output says what must come.
#![tactic(auto)]

pub mod case;
pub mod preparing;
pub mod runs;
pub mod texts;
pub mod unfollowed;

//! What follows from the definitions of this crate. Each law is the contract of a function with an empty body.
ghost use Rattle.grind_resolution.specs.Laws.{OneMeaning, SortedIsCounted, OneSort, OneScheme, SchemesAreFormed, SchemesAreDeclared};

/// A name stands for at most one thing, if the binders have different names that the signature does not hold.
pub fn one_meaning()
    ensures { OneMeaning }
{}

/// A term that has a sort is known and counted.
pub fn sorted_is_counted()
    ensures { SortedIsCounted }
{}

/// A term has at most one sort.
pub fn one_sort()
    ensures { OneSort }
{}

/// A term stands for at most one scheme, up to the capacity of lists of arguments.
pub fn one_scheme()
    ensures { OneScheme }
{}

/// The scheme of a term of a sort is well formed over the variables in force, and has that sort.
pub fn schemes_are_formed()
    ensures { SchemesAreFormed }
{}

/// The constants and functions in the scheme of a term of a sort are declared, with the sorts that they have.
pub fn schemes_are_declared()
    ensures { SchemesAreDeclared }
{}

//! What holds of every theory. Each law is the contract of a function that does nothing.
ghost use Rattle.grind_theory.specs.Laws.{OneFault, NoneFaulty, EachJudged, NoneRefused, OneRefusal, OneTheory};

use grind_resolution::laws::one_scheme;

/// A declaration has at most one first fault, and none if it is taken.
pub fn one_fault()
    ensures one { OneFault }
    ensures none { NoneFaulty }
{}

/// No declaration is neither taken nor at fault.
pub fn each_is_judged()
    ensures { EachJudged }
{}

/// Declarations that make a theory are not refused; others are refused at no more than one of them, with one fault.
pub fn one_refusal()
    ensures apart { NoneRefused }
    ensures one { OneRefusal }
{}

/// Declarations make at most one theory, up to the capacity of lists in the schemes of its theorems.
pub fn one_theory()
    ensures { OneTheory }
{
    one_scheme();
}

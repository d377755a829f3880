//! What holds of the grammar. Each law is a call without a body: who makes the call knows the law.
ghost use Rattle.grind_grammar.specs.Laws.{DeclarationsAreComplete, DeclarationsAreSound, EachJudged, FaultsAreJudged, FormulasAreComplete, FormulasAreSound, NamesAreWords, NoneRefused, OneParse, OneRefusal, PiecesAreJudged, PlacesByParts, SumsAreComplete, SumsAreSound, TermsByParts};
ghost use Rattle.grind_grammar.specs.GrammarCases.{AndThenOr, DifferencesGoLeft, DotIsMissing, EquationsFirst, GoalWithHypotheses, ImplicationsGoRight, IntIsNoName, NegationOfEquation, NoDoubleEquation, OneLimit, ParenthesesAreTooMany, ParenthesesFit, SignsAreTooMany, SignsFit, TheoremWithPatterns, TwoSigns};

/// Lexemes are one list of declarations at most; those that are declarations are not refused; and they are refused
/// at one declaration at most, with one fault.
pub fn one_parse()
    ensures declarations { OneParse }
    ensures apart { NoneRefused }
    ensures refusal { OneRefusal }
{}

/// All lexemes are declarations, or are refused.
pub fn each_is_judged()
    ensures { EachJudged }
{}

/// What the reading function reads is derived by the grammar.
pub fn reading_is_sound()
    ensures formulas { FormulasAreSound }
    ensures sums { SumsAreSound }
    ensures declarations { DeclarationsAreSound }
{}

/// What the grammar derives, and what follows cannot go on with, is read.
pub fn reading_is_complete()
    ensures formulas { FormulasAreComplete }
    ensures sums { SumsAreComplete }
    ensures declarations { DeclarationsAreComplete }
{}

/// The reading function judges each piece as the grammar does.
pub fn pieces_are_judged()
    ensures declarations { PiecesAreJudged }
    ensures faults { FaultsAreJudged }
{}

/// A tree of a name with its parts keeps what the name and the parts keep.
pub fn trees_by_parts()
    ensures terms { TermsByParts }
    ensures places { PlacesByParts }
{}

/// Each name that a declaration of a file declares is a word of the file.
pub fn names_are_words()
    ensures { NamesAreWords }
{}

/// Worked cases of the grammar.
pub fn worked_cases()
    ensures equations { EquationsFirst }
    ensures no_chain { NoDoubleEquation }
    ensures right { ImplicationsGoRight }
    ensures left { DifferencesGoLeft }
    ensures levels { AndThenOr }
    ensures signs { TwoSigns }
    ensures negation { NegationOfEquation }
    ensures patterns { TheoremWithPatterns }
    ensures hypotheses { GoalWithHypotheses }
    ensures depth { SignsFit }
    ensures too_deep { SignsAreTooMany }
    ensures parentheses { ParenthesesFit }
    ensures too_many { ParenthesesAreTooMany }
    ensures limit { OneLimit }
    ensures reserved { IntIsNoName }
    ensures dot { DotIsMissing }
{}

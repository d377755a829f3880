//! What holds of reports. Each law is a call without a body: who makes the call knows the law.
ghost use Rattle.grind_report_words.specs.Laws.{BeginningsEnd, OneMalformedLine, OneReport, OneStep, StopsAtMalformed};
ghost use Rattle.grind_report_words.specs.StepCases.{EmptyReport, LeadingZero, MinusZero, PairOfNodes, TableLine, TermsOfNoGoal};

/// Bytes are one report at most, since a line leads to one end at most.
pub fn one_report()
    ensures report { OneReport }
    ensures step { OneStep }
{}

/// Lines begin a report exactly where each of them takes a step: whatever was taken so far can be ended.
pub fn beginnings_end()
    ensures { BeginningsEnd }
{}

/// Bytes are malformed at one line at most.
pub fn one_malformed_line()
    ensures { OneMalformedLine }
{}

/// Where each of the first lines takes a step, and what follows neither does nor ends a report, the next line is the malformed
/// one: it says something else, is cut off, or is not there.
pub fn stops_at_malformed()
    ensures { StopsAtMalformed }
{}

/// Worked cases of lines.
pub fn worked_cases()
    ensures none { EmptyReport }
    ensures table { TableLine }
    ensures pair { PairOfNodes }
    ensures zero { LeadingZero }
    ensures minus { MinusZero }
    ensures order { TermsOfNoGoal }
{}

//! What holds of proofs while they are written. Each law is a call without a body: its caller knows the law.
ghost use Rattle.grind_proof_writer.specs.Laws.{FinishedIsTyped, GoodIsReady, LinesKeepGood, PairKeepsGood, AbsurdCloses, TellsStays};

use grind_proof_kernel::laws::typed_lines_stay;

/// A proof is typed exactly where it is good so far and each of its branches ends.
pub fn finished_is_typed()
    ensures { FinishedIsTyped }
{}

#[tactic(auto, using(crate::proofs::FinishLemmas::good_is_ready))]
/// Lines may be written in each branch of a proof that is good so far.
pub fn good_is_ready()
    ensures { GoodIsReady }
{}

/// Lines that are written in a leaf keep the proof good, leave it a leaf, and change no other branch.
pub fn lines_keep_good()
    ensures { LinesKeepGood }
{}

/// A pair of opposite literals below a leaf keeps the proof good, and its two branches are open.
pub fn pair_keeps_good()
    ensures { PairKeepsGood }
{
    typed_lines_stay();
}

/// A branch that has the last line is closed exactly where that line claims a contradiction.
pub fn absurd_closes()
    ensures { AbsurdCloses }
{}

#[tactic(auto, using(crate::proofs::PlaceLemmas::tells_stays))]
/// What a line tells in a branch it still tells where terms, branches and lines are appended to the proof.
pub fn tells_stays()
    ensures { TellsStays }
{}

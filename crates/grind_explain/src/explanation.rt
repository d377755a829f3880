//! The explanation of one equality.
ghost use Rattle.std.specs.Prelude.{ℕ, ◌+◌, ◌<◌, ◌≤◌, ◌↔◌, IsTrue, IfOk, OnOk, length};
ghost use Rattle.grind_claims.specs.declared.claim.Claim.TheVariants.{Same};
ghost use Rattle.grind_classes.specs.Classes.{AreTogether};
ghost use Rattle.grind_congruence.specs.Congruence.{Fits};
ghost use Rattle.grind_congruence.specs.Edges.{Joins};
ghost use Rattle.grind_proof_writer.specs.Lines.{IsReady, Appends, EndsWith};
ghost use Rattle.grind_proof_writer.specs.Writing.{CanWrite, Writes, IsTold};
ghost use Rattle.grind_needed_edges.specs.Needed.{IsFewest, IsNeededEquality};
ghost use Rattle.grind_needed_edges.specs.Numbered.{HasNumber};
ghost use Rattle.grind_needed_edges.specs.Plans.{IsPlanned};
ghost use Rattle.grind_explain.specs.Explained.{HasReasons, IsBrief};
ghost use Rattle.grind_explain.specs.Deriving.{IsGiven, IsLast};

use crate::known::Course;
use grind_congruence::Closure;
use grind_needed_edges::{Pairs, Planner, Why};
use grind_outside::{List, Memory};
use grind_proof_kernel::Proof;
use grind_proof_writer::{Equality, Writer};
use grind_schemes::{Goal, Lemmas};
use grind_term_graph::NodeId;
use std::alloc::Global;

/// Derives in a branch that two nodes of one class are equal, and answers the number of the line that claims it, which is
/// then the last. `whys` has for each number of a fact why it holds; the least number of first edges that join the two
/// nodes is to have reasons there. It writes nothing but what the equality needs: at most two lines for an edge that a way
/// passes, one for a congruence on it, and two at the end; and no equality twice, but for those two.
///
/// # Errors
///
/// `Memory`. Some typed lines of the branch may stand after the proof then.
pub fn explain(
    alloc: Global,
    closure: &Closure,
    whys: &List<Why>,
    lemmas: &Lemmas,
    goal: &Goal,
    proof: &mut Proof,
    branch: u32,
    a: NodeId,
    b: NodeId,
) -> Result<u32, Memory>
    requires together { AreTogether closure.now.lists a b }
    requires fits { Fits closure.now proof.old.terms.nodes }
    requires ready { IsReady lemmas.now goal.now proof.old branch }
    requires reasons { (count : ℕ) → IsFewest closure.now.edges count a b
        → HasReasons proof.old branch closure.now.edges whys.now count }
    ensures appends { Appends lemmas.now goal.now proof.old proof.new branch }
    ensures ready { IsReady lemmas.now goal.now proof.new branch }
    ensures last { IfOk result (λ number. EndsWith proof.new branch number (Same a b)) }
    ensures brief { OnOk result (IsBrief (IsNeededEquality proof.old.terms.nodes closure.now.edges whys.now a b)
        proof.old proof.new) }
{
    let writer = Writer {
        alloc,
        lemmas,
        goal,
        branch,
    };
    let planner = Planner {
        alloc,
        closure,
        whys: whys.as_slice(),
        terms: &proof.terms,
        left: a,
        right: b,
    };
    let plan = planner.plan_of()?;
    let course = Course {
        writer: &writer,
        closure,
        whys: whys.as_slice(),
        plan: &plan,
    };
    let last = derive(&course, proof, a, b)?;
    Ok(last)
}

// Derives that two nodes are equal for which all is planned, by a line that is then the last.
fn derive(course: &Course, proof: &mut Proof, a: NodeId, b: NodeId) -> Result<u32, Memory>
    requires ready { CanWrite course.now.writer.now proof.old }
    requires given { IsGiven course.now.closure.now course.now.whys.now course.now.plan.now course.now.writer.now.branch proof.old }
    requires count { length course.now.plan.now.needed ≤ length course.now.closure.now.edges }
    requires together { AreTogether course.now.closure.now.lists a b }
    requires joined { Joins course.now.closure.now.edges (length course.now.plan.now.needed) a b }
    requires planned { HasNumber course.now.plan.now.pairs a b }
    ensures writes { Writes course.now.writer.now proof.old proof.new }
    ensures ready { CanWrite course.now.writer.now proof.new }
    ensures ends { IfOk result (λ last. EndsWith proof.new course.now.writer.now.branch last (Same a b)) }
    ensures brief { OnOk result (IsBrief (IsPlanned course.now.closure.now.edges course.now.whys.now course.now.plan.now)
        proof.old proof.new) }
{
    let mut told = Pairs::new(course.writer.alloc);
    let number = course.line_of(proof, &mut told, a, b)?;
    let equality = Equality {
        line: number,
        left: a,
        right: b,
    };
    let last = at_the_end(course.writer, proof, &equality)?;
    Ok(last)
}

// The last line, once it claims what a line tells already.
fn at_the_end(writer: &Writer, proof: &mut Proof, told: &Equality) -> Result<u32, Memory>
    requires ready { CanWrite writer.now proof.old }
    requires within { told.now.right < length proof.old.terms.nodes }
    requires told { IsTold writer.now proof.old told.now }
    ensures writes { Writes writer.now proof.old proof.new }
    ensures ready { CanWrite writer.now proof.new }
    ensures ends { IfOk result (λ last. EndsWith proof.new writer.now.branch last (Same told.now.left told.now.right)) }
    ensures short { OnOk result (length proof.new.lines ≤ length proof.old.lines + 2) }
{
    if is_last(proof, writer.branch, told.line) {
        return Ok(told.line);
    }
    let line = writer.reflexive(proof, told.right)?;
    let same = Equality {
        line,
        left: told.right,
        right: told.right,
    };
    let last = writer.transitive(proof, told, &same)?;
    Ok(last)
}

// Whether the line of that number is the last, and stands in the branch itself.
fn is_last(proof: &Proof, branch: u32, number: u32) -> bool
    requires { number < length proof.now.lines }
    ensures { IsTrue result ↔ IsLast proof.now branch number }
{
    let lines = proof.lines.as_slice();
    if number as usize + 1 != lines.len() {
        return false;
    }
    lines[number as usize].branch == branch
}

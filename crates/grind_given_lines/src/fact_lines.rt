//! Lines of the root that say what a fact does.
ghost use Rattle.std.specs.Prelude.{◌≡◌, ◌∷◌, [], None, IfOk, OnOk, false, not};
ghost use Rattle.grind_claims.specs.declared.claim.Claim.TheVariants.{Absurd};
ghost use Rattle.grind_claims.specs.declared.proof.Rule.TheVariants.{Clash};
ghost use Rattle.grind_claims.specs.Claims.{IsFormed};
ghost use Rattle.grind_rules.specs.Rules.{RuleAllows};
ghost use Rattle.grind_proof_kernel.specs.Typing.{LinesAllow};
ghost use Rattle.grind_proof_writer.specs.Lines.{IsUsable, Tells};
ghost use Rattle.grind_proof_writer.specs.Writing.{Writes, MayWrite};
ghost use Rattle.grind_goal_equations.specs.Facts.{IsFact, equates};
ghost use Rattle.grind_given_lines.specs.Writing.{IsProofOf, literal, sides_claim, WritesRoot};

use grind_goal_equations::Fact;
use grind_outside::{List, Memory};
use grind_proof_kernel::{Claim, Proof, Rule};
use grind_proof_writer::Writer;
use grind_proof_writer::laws::{absurd_closes, finished_is_typed};
use grind_term_graph::NodeId;

// Writes a line without premises in the root.
pub(crate) fn put_first(
    writer: &Writer,
    proof: &mut Proof,
    rule: Rule,
    claim: Claim,
) -> Result<u32, Memory>
    requires root { WritesRoot writer.now proof.old }
    requires formed { IsFormed writer.now.goal.now.terms.nodes claim }
    requires says { RuleAllows writer.now.lemmas.now writer.now.goal.now writer.now.goal.now.terms.nodes None rule [] claim }
    ensures root { WritesRoot writer.now proof.new }
    ensures writes { Writes writer.now proof.old proof.new }
    ensures tells { IfOk result (λ number. Tells proof.new writer.now.branch number claim) }
{
    let number = writer.put_alone(proof, rule, claim)?;
    Ok(number)
}

// Writes a line of one premise in the root.
fn put_next(
    writer: &Writer,
    proof: &mut Proof,
    rule: Rule,
    premise: u32,
    claim: Claim,
) -> Result<u32, Memory>
    requires root { WritesRoot writer.now proof.old }
    requires formed { IsFormed writer.now.goal.now.terms.nodes claim }
    requires usable { IsUsable proof.old writer.now.branch premise }
    requires says { LinesAllow writer.now.lemmas.now writer.now.goal.now writer.now.goal.now.terms.nodes proof.old.lines None rule (premise ∷ []) claim }
    ensures root { WritesRoot writer.now proof.new }
    ensures writes { Writes writer.now proof.old proof.new }
    ensures tells { IfOk result (λ number. Tells proof.new writer.now.branch number claim) }
{
    let number = writer.put_from(proof, rule, premise, claim)?;
    Ok(number)
}

// That a formula holds, or fails.
fn literal_claim(holds: bool, node: NodeId) -> Claim
    ensures { result ≡ literal holds node }
{
    if holds {
        return Claim::Holds(node);
    }
    Claim::Fails(node)
}

// That two terms are equal, or different.
fn claim_of_sides(same: bool, left: NodeId, right: NodeId) -> Claim
    ensures { result ≡ sides_claim same left right }
{
    if same {
        return Claim::Same(left, right);
    }
    Claim::Differ(left, right)
}

// The line of a source: its formula holds, or fails.
fn source_line(writer: &Writer, proof: &mut Proof, fact: &Fact) -> Result<u32, Memory>
    requires root { WritesRoot writer.now proof.old }
    requires fact { IsFact writer.now.goal.now fact.now }
    ensures root { WritesRoot writer.now proof.new }
    ensures writes { Writes writer.now proof.old proof.new }
    ensures tells { IfOk result (λ number. Tells proof.new writer.now.branch number (literal fact.now.holds fact.now.node)) }
{
    let goal = writer.goal;
    let count = goal.hyps.len();
    let claim = literal_claim(fact.holds, fact.node);
    if fact.holds && (fact.source as usize) < count {
        let number = put_first(writer, proof, Rule::Hyp(fact.source + 1), claim)?;
        return Ok(number);
    }
    let number = put_first(writer, proof, Rule::Negated, claim)?;
    Ok(number)
}

// The line of the equation that a formula negates.
fn turned_line(writer: &Writer, proof: &mut Proof, fact: &Fact, said: u32) -> Result<u32, Memory>
    requires root { WritesRoot writer.now proof.old }
    requires fact { IsFact writer.now.goal.now fact.now }
    requires negated { fact.now.reading.plain ≡ false }
    requires said { Tells proof.old writer.now.branch said (literal fact.now.holds fact.now.node) }
    ensures root { WritesRoot writer.now proof.new }
    ensures writes { Writes writer.now proof.old proof.new }
    ensures tells { IfOk result (λ number. Tells proof.new writer.now.branch number (literal (not fact.now.holds) fact.now.reading.equation)) }
{
    let goal = writer.goal;
    let _count = goal.terms.len();
    let reading = fact.reading;
    let claim = literal_claim(!fact.holds, reading.equation);
    let mut free = List::new(writer.alloc);
    free.push(reading.equation)?;
    let number = put_next(writer, proof, Rule::Table(free), said, claim)?;
    Ok(number)
}

// The line of the sides of an equation that holds, or fails.
fn sides_line(
    writer: &Writer,
    proof: &mut Proof,
    fact: &Fact,
    holds: bool,
    told: u32,
) -> Result<u32, Memory>
    requires root { WritesRoot writer.now proof.old }
    requires fact { IsFact writer.now.goal.now fact.now }
    requires told { Tells proof.old writer.now.branch told (literal holds fact.now.reading.equation) }
    ensures root { WritesRoot writer.now proof.new }
    ensures writes { Writes writer.now proof.old proof.new }
    ensures tells { IfOk result (λ number. Tells proof.new writer.now.branch number
        (sides_claim holds fact.now.reading.left fact.now.reading.right)) }
{
    let reading = fact.reading;
    let claim = claim_of_sides(holds, reading.left, reading.right);
    let number = put_next(writer, proof, Rule::Eq, told, claim)?;
    Ok(number)
}

// Whether the formula of a fact is the equation itself.
fn is_plain(fact: &Fact) -> bool
    ensures { result ≡ fact.now.reading.plain }
{
    fact.reading.plain
}

/// The lines of a fact. The last says of its terms that they are equal, or different.
///
/// # Errors
///
/// `Memory`.
pub fn fact_line(writer: &Writer, proof: &mut Proof, fact: &Fact) -> Result<u32, Memory>
    requires root { WritesRoot writer.now proof.old }
    requires fact { IsFact writer.now.goal.now fact.now }
    ensures root { WritesRoot writer.now proof.new }
    ensures writes { Writes writer.now proof.old proof.new }
    ensures tells { IfOk result (λ number. Tells proof.new writer.now.branch number
        (sides_claim (equates fact.now) fact.now.reading.left fact.now.reading.right)) }
{
    let said = source_line(writer, proof, fact)?;
    if is_plain(fact) {
        let number = sides_line(writer, proof, fact, fact.holds, said)?;
        return Ok(number);
    }
    let turned = turned_line(writer, proof, fact, said)?;
    let number = sides_line(writer, proof, fact, !fact.holds, turned)?;
    Ok(number)
}

/// Ends the proof with two lines that contradict each other.
///
/// # Errors
///
/// `Memory`.
pub fn clash_line(writer: &Writer, proof: &mut Proof, one: u32, other: u32) -> Result<(), Memory>
    requires root { WritesRoot writer.now proof.old }
    requires one { IsUsable proof.old writer.now.branch one }
    requires other { IsUsable proof.old writer.now.branch other }
    requires clash { MayWrite writer.now proof.old Clash (one ∷ other ∷ []) Absurd }
    ensures { OnOk result (IsProofOf writer.now.lemmas.now writer.now.goal.now proof.new) }
{
    finished_is_typed();
    absurd_closes();
    writer.close(proof, one, other)?;
    Ok(())
}

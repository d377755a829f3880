//! The parts of a block.
ghost use Rattle.std.specs.Prelude.{◌≡◌, ◌++◌, ◌∷◌, [], length, All, OnOk, decimal, codes};
ghost use Rattle.grind_schemes.specs.Labels.{IsLabel};
ghost use Rattle.grind_schemes.specs.declared.goal.Constant.{Constant as GoalConstant};
ghost use Rattle.grind_report.specs.Report.{spelled, line_bytes, counted_lines, branch_words, line_words, BranchFits, LineFits, TermFits, TakesPremises, block_bytes, Closed, Unexplored};
ghost use Rattle.grind_report.specs.Naming.{node_words, term_of, raw_of, HasTerm};
ghost use Rattle.grind_claims.specs.declared.proof.Line.{Line as ProofLine};
ghost use Rattle.grind_term_graph.specs.declared.node.Node.{Node as TermNode};

use crate::report::{lines, terms, words};
use grind_outside::{List, Memory};
use grind_proof_kernel::{Branch, Line, Proof};
use grind_schemes::Constant;
use grind_signature::signature::Signature;
use grind_term_graph::{NodeId, TermTable};

/// The first line of a block: the goal's name, and what became of it.
pub fn put_title(out: &mut List<u8>, name: &[u8], state: &[u8]) -> Result<(), Memory>
    ensures { OnOk result (out.new ≡ out.old ++ line_bytes (codes "goal" ∷ name.now ∷ state.now ∷ [])) }
{
    out.extend(b"goal")?;
    words::put_word(out, name)?;
    words::put_word(out, state)?;
    words::end_line(out)?;
    Ok(())
}

/// The line that says how many lines of a kind follow.
fn put_count(out: &mut List<u8>, title: &[u8], count: u32) -> Result<(), Memory>
    ensures { OnOk result (out.new ≡ out.old ++ line_bytes (title.now ∷ decimal count ∷ [])) }
{
    out.extend(title)?;
    words::put_number(out, count)?;
    words::end_line(out)?;
    Ok(())
}

/// The terms of a proof.
fn put_terms(
    out: &mut List<u8>,
    signature: &Signature,
    constants: &[Constant],
    terms: &TermTable,
) -> Result<(), Memory>
    requires named { All (HasTerm signature.now constants.now) terms.now.nodes }
    requires labels { All (λ (constant : GoalConstant). IsLabel constant.name) constants.now }
    ensures text { OnOk result (out.new ≡ out.old ++ spelled (counted_lines (codes "terms")
        (node_words signature.now constants.now) 0 terms.now.nodes)) }
    ensures fits { OnOk result (All (λ (node : TermNode).
        TermFits (term_of signature.now constants.now node)) terms.now.nodes) }
{
    put_count(out, b"terms", terms.len())?;
    for index in 0..terms.len() {
        terms::put_term_line(
            out,
            index,
            signature,
            constants,
            terms.node(NodeId::new(index)),
        )?;
    }
    Ok(())
}

/// The branches of a proof, counted from 1.
fn put_branches(out: &mut List<u8>, branches: &List<Branch>) -> Result<(), Memory>
    ensures text { OnOk result (out.new ≡ out.old ++ spelled (counted_lines (codes "branches") branch_words 1 branches.now)) }
    ensures fits { OnOk result (All BranchFits branches.now) }
{
    let branches = branches.as_slice();
    put_count(out, b"branches", branches.len() as u32)?;
    for (index, branch) in branches.iter().enumerate() {
        lines::put_branch(out, index as u32 + 1, branch)?;
    }
    Ok(())
}

/// The lines of a proof.
fn put_lines(out: &mut List<u8>, lines: &List<Line>) -> Result<(), Memory>
    requires { All (λ (line : ProofLine). TakesPremises line.rule (length line.premises)) lines.now }
    ensures text { OnOk result (out.new ≡ out.old ++ spelled (counted_lines (codes "lines") line_words 0 lines.now)) }
    ensures fits { OnOk result (All LineFits lines.now) }
{
    let lines = lines.as_slice();
    put_count(out, b"lines", lines.len() as u32)?;
    for (index, line) in lines.iter().enumerate() {
        lines::put_line(out, index as u32, line)?;
    }
    Ok(())
}

/// A block with a proof.
pub fn put_closed(
    out: &mut List<u8>,
    signature: &Signature,
    constants: &[Constant],
    name: &[u8],
    proof: &Proof,
) -> Result<(), Memory>
    requires named { All (HasTerm signature.now constants.now) proof.now.terms.nodes }
    requires labels { All (λ (constant : GoalConstant). IsLabel constant.name) constants.now }
    requires counts { All (λ (line : ProofLine). TakesPremises line.rule (length line.premises))
        proof.now.lines }
    ensures text { OnOk result (out.new
        ≡ out.old ++ block_bytes (Closed name.now (raw_of signature.now constants.now proof.now))) }
    ensures terms { OnOk result (All (λ (node : TermNode).
        TermFits (term_of signature.now constants.now node)) proof.now.terms.nodes) }
    ensures branches { OnOk result (All BranchFits proof.now.branches) }
    ensures lines { OnOk result (All LineFits proof.now.lines) }
{
    put_title(out, name, b"closed")?;
    put_terms(out, signature, constants, &proof.terms)?;
    put_branches(out, &proof.branches)?;
    put_lines(out, &proof.lines)?;
    Ok(())
}

/// A block without a proof.
pub fn put_open(out: &mut List<u8>, name: &[u8]) -> Result<(), Memory>
    ensures { OnOk result (out.new ≡ out.old ++ block_bytes (Unexplored name.now)) }
{
    out.extend(b"goal")?;
    words::put_word(out, name)?;
    words::put_word(out, b"open")?;
    words::put_word(out, b"unexplored")?;
    words::end_line(out)?;
    Ok(())
}

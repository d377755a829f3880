//! The lines of branches and of proofs.
ghost use Rattle.std.specs.Prelude.{◌≡◌, ◌++◌, ◌∷◌, [], length, OnOk, decimal};
ghost use Rattle.grind_report.specs.Report.{spaced, line_bytes, claim_words, branch_words, line_words, IsShort, ClaimFits, BranchFits, LineFits, TakesPremises};

use crate::report::{forms, rules, words};
use grind_outside::{List, Memory};
use grind_proof_kernel::{Branch, Claim, Line};
use grind_term_graph::NodeId;

/// A word, and two nodes after it.
fn put_two(out: &mut List<u8>, word: &[u8], left: NodeId, right: NodeId) -> Result<(), Memory>
    ensures text { OnOk result (out.new
        ≡ out.old ++ spaced (word.now ∷ decimal left ∷ decimal right ∷ [])) }
    ensures left { OnOk result (IsShort left) }
    ensures right { OnOk result (IsShort right) }
{
    words::put_word(out, word)?;
    words::put_number(out, left.number())?;
    words::put_number(out, right.number())?;
    Ok(())
}

/// The words of a claim.
fn put_claim(out: &mut List<u8>, claim: &Claim) -> Result<(), Memory>
    ensures { OnOk result ((out.new ≡ out.old ++ spaced (claim_words claim.now)) × ClaimFits claim.now) }
{
    match claim {
        Claim::Holds(node) => {
            words::put_word(out, b"holds")?;
            words::put_number(out, node.number())?;
            Ok(())
        }
        Claim::Fails(node) => {
            words::put_word(out, b"fails")?;
            words::put_number(out, node.number())?;
            Ok(())
        }
        Claim::Same(left, right) => {
            put_two(out, b"same", *left, *right)?;
            Ok(())
        }
        Claim::Differ(left, right) => {
            put_two(out, b"differ", *left, *right)?;
            Ok(())
        }
        Claim::AtMost(form) => {
            words::put_word(out, b"atmost")?;
            forms::put_form(out, form)?;
            Ok(())
        }
        Claim::Zero(poly) => {
            words::put_word(out, b"zero")?;
            forms::put_poly(out, poly)?;
            Ok(())
        }
        Claim::Absurd => {
            words::put_word(out, b"absurd")?;
            Ok(())
        }
    }
}

/// The line of a branch, after its index.
pub fn put_branch(out: &mut List<u8>, index: u32, branch: &Branch) -> Result<(), Memory>
    ensures text { OnOk result (out.new ≡ out.old ++ line_bytes (decimal index ∷ branch_words branch.now)) }
    ensures fits { OnOk result (BranchFits branch.now) }
{
    words::put_digits(out, index)?;
    words::put_number(out, branch.parent)?;
    words::put_number(out, branch.after)?;
    put_claim(out, &branch.literal)?;
    words::end_line(out)?;
    Ok(())
}

/// The line of a proof, after its index.
pub fn put_line(out: &mut List<u8>, index: u32, line: &Line) -> Result<(), Memory>
    requires { TakesPremises line.now.rule (length line.now.premises) }
    ensures text { OnOk result (out.new ≡ out.old ++ line_bytes (decimal index ∷ line_words line.now)) }
    ensures fits { OnOk result (LineFits line.now) }
{
    words::put_digits(out, index)?;
    words::put_number(out, line.branch)?;
    rules::put_rule(out, &line.rule)?;
    rules::put_premises(out, &line.rule, line.premises.as_slice())?;
    words::put_word(out, b":")?;
    put_claim(out, &line.claim)?;
    words::end_line(out)?;
    Ok(())
}

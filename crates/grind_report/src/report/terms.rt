//! The lines of terms.
ghost use Rattle.std.specs.Prelude.{◌≡◌, ◌<◌, ◌++◌, ◌∷◌, ℕ, List as Sequence, [], length, map, All, OnOk, decimal};
ghost use Rattle.grind_schemes.specs.Labels.{IsLabel};
ghost use Rattle.grind_schemes.specs.declared.goal.Constant.{Constant as GoalConstant};
ghost use Rattle.grind_signature.specs.Signatures.{SignatureData};
ghost use Rattle.grind_report.specs.Report.{spaced, line_bytes, term_word, term_details, IsShort, TermFits};
ghost use Rattle.grind_report.specs.Naming.{constant_name, function_name, node_words, term_of_head, term_of, HasTerm};

use crate::report::words;
use grind_outside::{List, Memory};
use grind_schemes::Constant;
use grind_signature::signature::Signature;
use grind_term_graph::{FunId, Head, Node, NodeId};

/// The word that a term of this head begins with.
fn word_of_head(head: Head) -> &'static [u8]
    ensures { (signature : SignatureData) (constants : Sequence GoalConstant) (args : Sequence ℕ) →
        result.now ≡ term_word (term_of_head signature constants args head) }
{
    match head {
        Head::True => b"true",
        Head::False => b"false",
        Head::Not => b"not",
        Head::And => b"and",
        Head::Or => b"or",
        Head::Implies => b"implies",
        Head::Eq => b"eq",
        Head::Le => b"le",
        Head::Int(_) => b"int",
        Head::Add => b"add",
        Head::Neg => b"neg",
        Head::Mul => b"mul",
        Head::Fun(_) => b"fun",
        Head::Const(_) => b"const",
    }
}

/// The name of a constant.
fn put_constant(out: &mut List<u8>, constants: &[Constant], number: u32) -> Result<(), Memory>
    requires stands { number < length constants.now }
    requires labels { All (λ (constant : GoalConstant). IsLabel constant.name) constants.now }
    ensures text { OnOk result (out.new
        ≡ out.old ++ spaced (constant_name constants.now number ∷ [])) }
    ensures label { IsLabel (constant_name constants.now number) }
{
    let constant = &constants[number as usize];
    words::put_word(out, constant.name.as_slice())?;
    Ok(())
}

/// The name of a function, and its arguments.
fn put_function(
    out: &mut List<u8>,
    signature: &Signature,
    function: FunId,
    args: &[NodeId],
) -> Result<(), Memory>
    requires { function < length signature.now.functions }
    ensures text { OnOk result (out.new
        ≡ out.old ++ spaced (function_name signature.now function ∷ map decimal args.now)) }
    ensures label { OnOk result (IsLabel (function_name signature.now function)) }
    ensures short { OnOk result (All IsShort args.now) }
{
    let name = signature.name_of(function);
    words::put_word(out, name)?;
    words::put_nodes(out, args)?;
    Ok(())
}

/// The words of a node after the first one.
fn put_details(
    out: &mut List<u8>,
    signature: &Signature,
    constants: &[Constant],
    node: &Node,
) -> Result<(), Memory>
    requires named { HasTerm signature.now constants.now node.now }
    requires labels { All (λ (constant : GoalConstant). IsLabel constant.name) constants.now }
    ensures text { OnOk result (out.new
        ≡ out.old ++ spaced (term_details (term_of signature.now constants.now node.now))) }
    ensures fits { OnOk result (TermFits (term_of signature.now constants.now node.now)) }
{
    match node.head {
        Head::Int(value) => {
            words::put_integer(out, value)?;
            Ok(())
        }
        Head::Const(number) => {
            put_constant(out, constants, number)?;
            Ok(())
        }
        Head::Fun(function) => {
            put_function(out, signature, function, node.args.as_slice())?;
            Ok(())
        }
        _ => {
            words::put_nodes(out, node.args.as_slice())?;
            Ok(())
        }
    }
}

/// The line of a term, after its index.
pub fn put_term_line(
    out: &mut List<u8>,
    index: u32,
    signature: &Signature,
    constants: &[Constant],
    node: &Node,
) -> Result<(), Memory>
    requires named { HasTerm signature.now constants.now node.now }
    requires labels { All (λ (constant : GoalConstant). IsLabel constant.name) constants.now }
    ensures text { OnOk result (out.new
        ≡ out.old ++ line_bytes (decimal index ∷ node_words signature.now constants.now node.now)) }
    ensures fits { OnOk result (TermFits (term_of signature.now constants.now node.now)) }
{
    words::put_digits(out, index)?;
    words::put_word(out, word_of_head(node.head))?;
    put_details(out, signature, constants, node)?;
    words::end_line(out)?;
    Ok(())
}

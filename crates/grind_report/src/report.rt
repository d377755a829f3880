//! Reports: what `solve` prints. A report is a header, a block for each goal, and an end line.
ghost use Rattle.std.specs.Prelude.{◌≡◌, ◌<◌, ◌^◌, ◌++◌, ℕ, List as Sequence, All, length, flat_map, IfOk};
ghost use Rattle.grind_report.specs.Report.{Block, Closed, Unexplored, BlockFits, Report, ReportOf, block_bytes, header_bytes, end_bytes};
ghost use Rattle.grind_report.specs.Naming.{raw_of};
ghost use Rattle.grind_report.specs.Blocks.{ProofOf, IsBlockOf, IsPrintable, OutcomePrintable};

mod block;
mod forms;
mod lines;
mod rules;
mod terms;
mod words;

use grind_outside::{List, Memory};
use grind_proof_kernel::Proof;
use grind_schemes::{Constant, Goal};
use grind_signature::signature::Signature;
use std::alloc::Global;

/// What became of a goal.
#[derive(Drop)]
pub enum Outcome {
    /// It was proved.
    Closed(Proof),
    /// It was not proved, and no search was made.
    Unexplored,
}

/// The first line of a report.
///
/// # Errors
///
/// Out of memory.
pub fn header(alloc: Global) -> Result<List<u8>, Memory>
    ensures { IfOk result (λ bytes. bytes ≡ header_bytes) }
{
    let mut out = List::new(alloc);
    out.extend(b"grind report 1\n")?;
    Ok(out)
}

/// The last line of a report of so many blocks.
///
/// # Errors
///
/// Out of memory.
pub fn end_line(alloc: Global, count: u32) -> Result<List<u8>, Memory>
    ensures { IfOk result (λ bytes. bytes ≡ end_bytes count) }
{
    let mut out = List::new(alloc);
    out.extend(b"end")?;
    words::put_number(&mut out, count)?;
    words::end_line(&mut out)?;
    Ok(out)
}

/// The block of a goal, once it is known what became of it.
///
/// # Errors
///
/// Out of memory.
pub fn render_block(
    alloc: Global,
    signature: &Signature,
    goal: &Goal,
    outcome: &Outcome,
) -> Result<List<u8>, Memory>
    requires { OutcomePrintable signature.now goal.now outcome.now }
    ensures { IfOk result (λ bytes. (block : Block) × (bytes ≡ block_bytes block) × BlockFits block
        × IsBlockOf signature.now goal.now outcome.now block) }
{
    match outcome {
        Outcome::Closed(proof) => {
            let bytes = render_closed(alloc, signature, goal, proof)?;
            Ok(bytes)
        }
        Outcome::Unexplored => {
            let bytes = render_unexplored(alloc, goal)?;
            Ok(bytes)
        }
    }
}

/// The block of a goal with a proof.
fn render_closed(
    alloc: Global,
    signature: &Signature,
    goal: &Goal,
    proof: &Proof,
) -> Result<List<u8>, Memory>
    requires { IsPrintable signature.now goal.now proof.now }
    ensures text { IfOk result (λ bytes.
        bytes ≡ block_bytes (Closed goal.now.name (raw_of signature.now goal.now.constants proof.now))) }
    ensures fits { IfOk result (λ _.
        BlockFits (Closed goal.now.name (raw_of signature.now goal.now.constants proof.now))) }
    ensures proof { ProofOf signature.now goal.now (raw_of signature.now goal.now.constants proof.now) proof.now }
{
    let name = goal.name();
    let constants = constants_of(goal);
    let _terms = proof.terms.len();
    let _branches = proof.branches.len();
    let _lines = proof.lines.len();
    let mut out = List::new(alloc);
    block::put_closed(&mut out, signature, constants, name, proof)?;
    Ok(out)
}

/// The block of a goal without one.
fn render_unexplored(alloc: Global, goal: &Goal) -> Result<List<u8>, Memory>
    ensures text { IfOk result (λ bytes. bytes ≡ block_bytes (Unexplored goal.now.name)) }
    ensures fits { BlockFits (Unexplored goal.now.name) }
{
    let mut out = List::new(alloc);
    block::put_open(&mut out, goal.name())?;
    Ok(out)
}

/// The constants of a goal.
fn constants_of(goal: &Goal) -> &[Constant]
    ensures { result.now ≡ goal.now.constants }
{
    goal.constants.as_slice()
}

/// The header, blocks that fit, and the end line with their count are a report of these blocks.
pub fn blocks_make_a_report()
    ensures { (blocks : Sequence Block) → All BlockFits blocks → length blocks < 2 ^ 32 → ReportOf
        (header_bytes ++ (flat_map block_bytes blocks ++ end_bytes (length blocks))) (record { blocks = blocks }) }
{}

/// At most one report stands for given bytes.
pub fn one_report()
    ensures { (bytes : Sequence ℕ) → (a : Report) → (b : Report) → ReportOf bytes a → ReportOf bytes b → a ≡ b }
{}

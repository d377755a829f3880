//! Equalities along ways of edges.
ghost use Rattle.std.specs.Prelude.{◌≡◌, ℕ, ◌<◌, ◌⊎◌, [], ◌∷◌, All, IfOk, OnOk, length};
ghost use Rattle.grind_claims.specs.declared.claim.Claim.TheVariants.{Same};
ghost use Rattle.grind_congruence.specs.Edges.{Passes, Leads};
ghost use Rattle.grind_proof_writer.specs.Lines.{Tells};
ghost use Rattle.grind_proof_writer.specs.Writing.{CanWrite, Writes, IsTold};
ghost use Rattle.grind_needed_edges.specs.Needed.{PassesAt, IsAlong, IsOfWay};
ghost use Rattle.grind_needed_edges.specs.Numbered.{HasNumber};
ghost use Rattle.grind_explain.specs.Deriving.{IsKnown, AreLines, Goes};

use grind_congruence::Edge;
use grind_needed_edges::Pairs;
use grind_outside::Memory;
use grind_proof_kernel::Proof;
use grind_proof_writer::{Equality, Writer};
use grind_term_graph::NodeId;

// Edges along which lines are written.
#[derive(Drop)]
pub(crate) struct Way<'a> {
    // Where lines are written.
    pub(crate) writer: &'a Writer<'a>,
    // The edges of the closure.
    pub(crate) edges: &'a [Edge],
}

impl<'a> Way<'a> {
    // A line that tells that the first node of a way is equal to its last, from the lines that tell its edges.
    pub(crate) fn chain(
        &self,
        proof: &mut Proof,
        told: &mut Pairs,
        places: &[u32],
        a: NodeId,
    ) -> Result<u32, Memory>
        requires ready { CanWrite self.now.writer.now proof.old }
        requires lines { AreLines proof.old self.now.writer.now.branch told.old }
        requires within { a < length proof.old.terms.nodes }
        requires known { All (IsKnown self.now.edges.now told.old) places.now }
        requires leads { (b : ℕ) × Leads self.now.edges.now places.now a b }
        ensures writes { Writes self.now.writer.now proof.old proof.new }
        ensures ready { CanWrite self.now.writer.now proof.new }
        ensures goes { OnOk result (Goes (IsOfWay self.now.edges.now a places.now) proof.old told.old proof.new told.new) }
        ensures lines { OnOk result (AreLines proof.new self.now.writer.now.branch told.new) }
        ensures tells { IfOk result (λ number. (b : ℕ) → Leads self.now.edges.now places.now a b
            → Tells proof.new self.now.writer.now.branch number (Same a b)) }
    {
        let Some((place, tail)) = places.split_first() else {
            let number = itself(self.writer, proof, told, a)?;
            return Ok(number);
        };
        let first = self.passed(proof, told, *place, a)?;
        let last = self.go_along(proof, told, tail, &first)?;
        Ok(last)
    }

    // The same from an equality on that is told, along the rest of the way.
    fn go_along(
        &self,
        proof: &mut Proof,
        told: &mut Pairs,
        places: &[u32],
        first: &Equality,
    ) -> Result<u32, Memory>
        requires ready { CanWrite self.now.writer.now proof.old }
        requires lines { AreLines proof.old self.now.writer.now.branch told.old }
        requires first { IsTold self.now.writer.now proof.old first.now }
        requires known { All (IsKnown self.now.edges.now told.old) places.now }
        requires leads { (b : ℕ) × Leads self.now.edges.now places.now first.now.right b }
        ensures writes { Writes self.now.writer.now proof.old proof.new }
        ensures ready { CanWrite self.now.writer.now proof.new }
        ensures goes { OnOk result (Goes (IsAlong self.now.edges.now first.now.left first.now.right places.now)
            proof.old told.old proof.new told.new) }
        ensures lines { OnOk result (AreLines proof.new self.now.writer.now.branch told.new) }
        ensures tells { IfOk result (λ number. (b : ℕ) → Leads self.now.edges.now places.now first.now.right b
            → Tells proof.new self.now.writer.now.branch number (Same first.now.left b)) }
    {
        let a = first.left;
        let mut number = first.line;
        let mut here = first.right;
        let mut rest = places;
        while let Some((place, tail)) = rest.split_first() {
            let so_far = Equality {
                line: number,
                left: a,
                right: here,
            };
            let next = self.go_on(proof, told, &so_far, *place)?;
            number = next.line;
            here = next.right;
            rest = tail;
        }
        Ok(number)
    }

    // The equality of the first node of a way and the next one, from that with the present one and that of the edge's ends.
    fn go_on(
        &self,
        proof: &mut Proof,
        told: &mut Pairs,
        so_far: &Equality,
        place: u32,
    ) -> Result<Equality, Memory>
        requires ready { CanWrite self.now.writer.now proof.old }
        requires lines { AreLines proof.old self.now.writer.now.branch told.old }
        requires so_far { IsTold self.now.writer.now proof.old so_far.now }
        requires known { IsKnown self.now.edges.now told.old place }
        requires passes { (next : ℕ) × PassesAt self.now.edges.now place so_far.now.right next }
        ensures writes { Writes self.now.writer.now proof.old proof.new }
        ensures ready { CanWrite self.now.writer.now proof.new }
        ensures goes { OnOk result (Goes (IsAlong self.now.edges.now so_far.now.left so_far.now.right (place ∷ []))
            proof.old told.old proof.new told.new) }
        ensures lines { OnOk result (AreLines proof.new self.now.writer.now.branch told.new) }
        ensures told { IfOk result (λ it. IsTold self.now.writer.now proof.new it) }
        ensures left { IfOk result (λ it. it.left ≡ so_far.now.left) }
        ensures only { IfOk result (λ it. (next : ℕ) → PassesAt self.now.edges.now place so_far.now.right next → it.right ≡ next) }
    {
        let passed = self.passed(proof, told, place, so_far.right)?;
        let line = joined(self.writer, proof, told, so_far, &passed)?;
        Ok(Equality {
            line,
            left: so_far.left,
            right: passed.right,
        })
    }

    // The equality of the node where an edge is entered and the one where it is left.
    fn passed(
        &self,
        proof: &mut Proof,
        told: &mut Pairs,
        place: u32,
        here: NodeId,
    ) -> Result<Equality, Memory>
        requires ready { CanWrite self.now.writer.now proof.old }
        requires lines { AreLines proof.old self.now.writer.now.branch told.old }
        requires known { IsKnown self.now.edges.now told.old place }
        requires passes { (next : ℕ) × PassesAt self.now.edges.now place here next }
        ensures writes { Writes self.now.writer.now proof.old proof.new }
        ensures ready { CanWrite self.now.writer.now proof.new }
        ensures goes { OnOk result (Goes (λ x y. (x ≡ here) × PassesAt self.now.edges.now place here y)
            proof.old told.old proof.new told.new) }
        ensures lines { OnOk result (AreLines proof.new self.now.writer.now.branch told.new) }
        ensures told { IfOk result (λ it. IsTold self.now.writer.now proof.new it) }
        ensures left { IfOk result (λ it. it.left ≡ here) }
        ensures only { IfOk result (λ it. (next : ℕ) → PassesAt self.now.edges.now place here next → it.right ≡ next) }
    {
        let edge = &self.edges[place as usize];
        let next = other_end(edge, here);
        let line = turned(self.writer, proof, told, here, next)?;
        Ok(Equality {
            line,
            left: here,
            right: next,
        })
    }
}

// The node to which an edge leads from one of its ends.
fn other_end(edge: &Edge, here: NodeId) -> NodeId
    requires { (next : ℕ) × Passes edge.now here next }
    ensures passes { Passes edge.now here result }
    ensures only { (next : ℕ) → Passes edge.now here next → result ≡ next }
{
    if edge.left == here {
        return edge.right;
    }
    edge.left
}

// A line that tells that a node is equal to itself.
fn itself(writer: &Writer, proof: &mut Proof, told: &mut Pairs, a: NodeId) -> Result<u32, Memory>
    requires ready { CanWrite writer.now proof.old }
    requires lines { AreLines proof.old writer.now.branch told.old }
    requires within { a < length proof.old.terms.nodes }
    ensures writes { Writes writer.now proof.old proof.new }
    ensures ready { CanWrite writer.now proof.new }
    ensures goes { OnOk result (Goes (λ x y. (x ≡ a) × (y ≡ a)) proof.old told.old proof.new told.new) }
    ensures lines { OnOk result (AreLines proof.new writer.now.branch told.new) }
    ensures tells { IfOk result (λ number. Tells proof.new writer.now.branch number (Same a a)) }
{
    if let Some(number) = told.find(a, a) {
        return Ok(number);
    }
    let number = writer.reflexive(proof, a)?;
    told.put(a, a, number)?;
    Ok(number)
}

// A line that tells the equality of these two, which a line tells in one of both directions.
fn turned(
    writer: &Writer,
    proof: &mut Proof,
    told: &mut Pairs,
    here: NodeId,
    next: NodeId,
) -> Result<u32, Memory>
    requires ready { CanWrite writer.now proof.old }
    requires lines { AreLines proof.old writer.now.branch told.old }
    requires either { HasNumber told.old here next ⊎ HasNumber told.old next here }
    ensures writes { Writes writer.now proof.old proof.new }
    ensures ready { CanWrite writer.now proof.new }
    ensures goes { OnOk result (Goes (λ x y. (x ≡ here) × (y ≡ next)) proof.old told.old proof.new told.new) }
    ensures lines { OnOk result (AreLines proof.new writer.now.branch told.new) }
    ensures tells { IfOk result (λ number. Tells proof.new writer.now.branch number (Same here next)) }
{
    if let Some(number) = told.find(here, next) {
        return Ok(number);
    }
    let other = Equality {
        line: told.number_of(next, here),
        left: next,
        right: here,
    };
    let number = writer.symmetric(proof, &other)?;
    told.put(here, next, number)?;
    Ok(number)
}

// A line that tells two equalities, of which the first ends with what the second begins with, as one.
fn joined(
    writer: &Writer,
    proof: &mut Proof,
    told: &mut Pairs,
    first: &Equality,
    second: &Equality,
) -> Result<u32, Memory>
    requires ready { CanWrite writer.now proof.old }
    requires lines { AreLines proof.old writer.now.branch told.old }
    requires first { IsTold writer.now proof.old first.now }
    requires second { IsTold writer.now proof.old second.now }
    requires meets { first.now.right ≡ second.now.left }
    ensures writes { Writes writer.now proof.old proof.new }
    ensures ready { CanWrite writer.now proof.new }
    ensures goes { OnOk result (Goes (λ x y. (x ≡ first.now.left) × (y ≡ second.now.right))
        proof.old told.old proof.new told.new) }
    ensures lines { OnOk result (AreLines proof.new writer.now.branch told.new) }
    ensures tells { IfOk result (λ number.
        Tells proof.new writer.now.branch number (Same first.now.left second.now.right)) }
{
    let a = first.left;
    let b = second.right;
    if let Some(number) = told.find(a, b) {
        return Ok(number);
    }
    let number = writer.transitive(proof, first, second)?;
    told.put(a, b, number)?;
    Ok(number)
}

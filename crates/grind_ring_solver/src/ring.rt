//! The solver.
ghost use Rattle.std.specs.Prelude.{◌≡◌, IfOk, OnOk};
ghost use Rattle.grind_ring_solver.specs.Given.{nothing_known, no_agenda, IsTaken};
ghost use Rattle.grind_ring_solver.specs.Steps.{IsStep};

use crate::changes::{answer, take};
use crate::copies::{agenda_copied, state_copied};
use crate::decision::Setting;
use crate::types::RingStep;
use grind_claims::Claim;
use grind_classes::Classes;
use grind_outside::{List, Memory};
use grind_ring_basis::Basis;
use grind_ring_units::{Agenda, State};
use grind_term_graph::TermTable;
use std::alloc::Global;
use std::marker::Model;
use std::mem::replace;

/// The ring solver: what it took, what it knows from its own answers, and its basis. Contracts see it as a `State`. Besides it
/// keeps which pairs of basis elements need not be looked at again.
#[derive(Drop)]
pub struct Ring {
    state: State,
    agenda: Agenda,
}

impl Model for Ring {
    ghost use Rattle.grind_ring_units.specs.declared.types.State.{State};
    ghost use Rattle.grind_ring_units.specs.Agendas.{IsAgenda};
    ghost use Rattle.grind_ring_solver.specs.Given.{IsState};

    ghost Value = { State };

    ghost view = { λ a. a.state };

    ghost invariant = { λ a. IsState a.state × IsAgenda a.state.basis a.agenda };
}

// No pairs were looked at.
fn no_agenda(alloc: Global) -> Agenda
    ensures { result ≡ no_agenda }
{
    Agenda {
        rows: 0,
        pairs: List::new(alloc),
    }
}

impl Ring {
    /// A solver that knows nothing, and lets so many normal forms join its basis. It takes no memory.
    pub fn new(alloc: Global, limit: u32) -> Ring
        ensures { result ≡ nothing_known limit }
    {
        let basis = Basis {
            posts: List::new(alloc),
            elements: List::new(alloc),
        };
        let state = State {
            limit,
            made: 0,
            equalities: List::new(alloc),
            taken: List::new(alloc),
            own: List::new(alloc),
            basis,
        };
        let agenda = no_agenda(alloc);
        Ring { state, agenda }
    }

    /// Takes the claim of a post: an equality of two whole numbers, or that a polynomial is 0, by the rule `poly`.
    ///
    /// # Errors
    ///
    /// `Memory` if out of memory; what is known then is not said.
    pub fn take(&mut self, alloc: Global, post: u32, claim: &Claim) -> Result<(), Memory>
        ensures { OnOk result (IsTaken self.old post claim.now self.new) }
    {
        let agenda = replace(&mut self.agenda, no_agenda(alloc));
        take(alloc, &mut self.state, post, claim)?;
        self.agenda = agenda;
        Ok(())
    }

    /// The next answer, and what is known after it. `next` is the number of the next post.
    ///
    /// # Errors
    ///
    /// `Memory` if out of memory; what is known then is not said.
    pub fn step(
        &mut self,
        alloc: Global,
        terms: &TermTable,
        classes: &Classes,
        next: u32,
    ) -> Result<RingStep, Memory>
        ensures { IfOk result (λ step. IsStep self.old terms.now.nodes classes.now.lists next step self.new) }
    {
        let mut agenda = replace(&mut self.agenda, no_agenda(alloc));
        let setting = Setting { terms, classes };
        let step = answer(alloc, &mut self.state, &mut agenda, &setting, next)?;
        self.agenda = agenda;
        Ok(step)
    }

    /// The same solver once more.
    ///
    /// # Errors
    ///
    /// `Memory` if out of memory.
    pub fn copy(&self, alloc: Global) -> Result<Ring, Memory>
        ensures { IfOk result (λ ring. ring ≡ self.now) }
    {
        let state = state_copied(alloc, &self.state)?;
        let agenda = agenda_copied(alloc, &self.agenda)?;
        Ok(Ring { state, agenda })
    }

    /// The posts of the basis, in the order in which they joined.
    pub fn basis(&self) -> &List<u32>
        ensures { result.now ≡ self.now.basis.posts }
    {
        &self.state.basis.posts
    }
}

//! The state of a board.
ghost use Rattle.std.specs.Prelude.{◌≡◌, ◌<◌, ◌^◌, ℕ, List, [], ◌∷◌, ◌++◌, length, All, Contains, IfOk, OnOk, OnErr, ◌↔◌};
ghost use Rattle.grind_claims.specs.Claims.{IsFormed};
ghost use Rattle.grind_truth_prop.specs.Given.{Fits};
ghost use Rattle.grind_known_posts.specs.Known.{HasMarks, KnowsAll};
ghost use Rattle.grind_known_posts.specs.Laws.{SpeaksOf};
ghost use Rattle.grind_board_state.specs.Agents.{cursor_of};
ghost use Rattle.grind_board_state.specs.States.{active_nodes, IsBegun, IsPosted, IsRead};

use crate::agent::{Agent, Cursors, advance};
use crate::beginning::{Activation, all_active};
use crate::reading::take_in;
use grind_classes::Classes;
use grind_congruence::Closure;
use grind_journal::{Journal, Post};
use grind_known_posts::{learn, nothing_known};
use grind_outside::{List, Memory};
use grind_term_graph::TermTable;
use grind_truth_prop::Known;
use std::alloc::Global;
use std::marker::Model;

/// The state of a board. Contracts see its parts.
#[derive(Drop)]
pub struct BoardState {
    known: Known,
    closure: Closure,
    journal: Journal,
    active: List<Activation>,
    cursors: Cursors,
}

impl Model for BoardState {
    ghost use Rattle.grind_board_state.specs.States.{BoardData, IsBoard};

    ghost Value = { BoardData };

    ghost view = { λ a. record { known = a.known; closure = a.closure; posts = a.journal; active = a.active; cursors = a.cursors } };

    ghost invariant = { λ a. IsBoard (record { known = a.known; closure = a.closure; posts = a.journal; active = a.active; cursors = a.cursors }) };
}

impl BoardState {
    /// A board over these terms, without posts: all of them are active, in the goal's generation, and each is a class of its
    /// own.
    ///
    /// # Errors
    ///
    /// `Memory` if out of memory.
    pub fn new(alloc: Global, terms: TermTable) -> Result<BoardState, Memory>
        ensures { IfOk result (λ board. IsBegun terms board) }
    {
        let begun = all_active(alloc, &terms)?;
        let known = nothing_known(alloc, terms)?;
        Ok(BoardState {
            known,
            closure: begun.closure,
            journal: Journal::new(alloc),
            active: begun.active,
            cursors: Cursors {
                closure: 0,
                truth: 0,
                ring: 0,
                cutsat: 0,
                matching: 0,
            },
        })
    }

    /// What is known by the posts.
    pub fn known(&self) -> &Known
        ensures value { result.now ≡ self.now.known }
        ensures fits { Fits self.now.known self.now.closure.lists }
    {
        &self.known
    }

    /// The classes, by the equalities that congruence closure has read.
    pub fn classes(&self) -> &Classes
        ensures { result.now.lists ≡ self.now.closure.lists }
    {
        self.closure.classes()
    }

    /// The posts, in order.
    pub fn posts(&self) -> &[Post]
        ensures value { result.now ≡ self.now.posts }
        ensures bound { length self.now.posts < 2 ^ 32 }
    {
        self.journal.as_slice()
    }

    /// The active nodes, in the order in which they became active.
    pub fn active(&self) -> &[Activation]
        ensures { result.now ≡ self.now.active }
    {
        self.active.as_slice()
    }

    /// How many posts each agent has read.
    pub fn cursors(&self) -> Cursors
        ensures { result ≡ self.now.cursors }
    {
        self.cursors
    }

    /// Makes a post, which no agent has read yet.
    ///
    /// # Errors
    ///
    /// `Memory` leaves the board as it was.
    pub fn post(&mut self, post: Post) -> Result<(), Memory>
        requires formed { IsFormed self.old.known.terms.nodes post.claim }
        requires speaks { SpeaksOf (active_nodes self.old.active) post.claim }
        ensures ok { OnOk result (IsPosted post self.old self.new) }
        ensures err { OnErr result (self.new ≡ self.old) }
    {
        make(&mut self.journal, &mut self.known, post)?;
        Ok(())
    }

    /// The agent reads the next post: congruence closure joins the classes of two nodes that it says to be equal.
    ///
    /// # Errors
    ///
    /// `Memory` leaves the board as it was.
    pub fn read(&mut self, alloc: Global, agent: Agent) -> Result<(), Memory>
        requires { cursor_of agent self.old.cursors < length self.old.posts }
        ensures ok { OnOk result (IsRead agent self.old self.new) }
        ensures err { OnErr result (self.new ≡ self.old) }
    {
        if agent == Agent::Closure {
            self.read_by_closure(alloc)?;
            return Ok(());
        }
        self.pass(agent);
        Ok(())
    }

    // Congruence closure reads the next post.
    fn read_by_closure(&mut self, alloc: Global) -> Result<(), Memory>
        requires { self.old.cursors.closure < length self.old.posts }
        ensures ok { OnOk result (IsRead Agent.Closure self.old self.new) }
        ensures err { OnErr result (self.new ≡ self.old) }
    {
        let number = self.cursors.closure;
        let post = &self.journal.as_slice()[number as usize];
        take_in(
            alloc,
            &self.known.terms,
            &mut self.closure,
            &post.claim,
            number,
        )?;
        self.cursors.closure += 1;
        Ok(())
    }

    // Another agent reads the next post, which changes nothing but its cursor.
    fn pass(&mut self, agent: Agent)
        requires other { ¬ (agent ≡ Agent.Closure) }
        requires within { cursor_of agent self.old.cursors < length self.old.posts }
        ensures { IsRead agent self.old self.new }
    {
        let _posts = self.journal.as_slice();
        advance(&mut self.cursors, agent);
    }
}

// Makes a post, and takes in what it claims.
fn make(journal: &mut Journal, known: &mut Known, post: Post) -> Result<(), Memory>
    requires formed { IsFormed known.old.terms.nodes post.claim }
    requires marks { HasMarks known.old }
    ensures made { OnOk result (journal.new ≡ journal.old ++ post ∷ []) }
    ensures known { OnOk result (KnowsAll journal.old known.old → KnowsAll (journal.old ++ post ∷ []) known.new) }
    ensures terms { known.new.terms ≡ known.old.terms }
    ensures unmade { OnErr result (journal.new ≡ journal.old) }
    ensures unknown { OnErr result (known.new ≡ known.old) }
{
    let len = journal.as_slice().len();
    journal.push(post)?;
    let last = &journal.as_slice()[len];
    match learn(known, &last.claim) {
        Ok(()) => Ok(()),
        Err(_) => {
            journal.truncate(len as u32);
            Err(Memory)
        }
    }
}

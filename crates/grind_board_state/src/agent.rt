//! The agents, and how far each has read.
ghost use Rattle.std.specs.Prelude.{◌≡◌, ◌+◌, ◌<◌, ◌^◌};
ghost use Rattle.grind_board_state.specs.Agents.{cursor_of, advanced};

/// The agents that work on a board.
#[derive(Clone, Copy, Debug, PartialEq, Eq)]
pub enum Agent {
    /// Congruence closure.
    Closure,
    /// Truth propagation.
    Truth,
    /// The commutative ring solver.
    Ring,
    /// The linear integer solver.
    Cutsat,
    /// E-matching.
    Match,
}

/// How many posts each agent has read.
#[derive(Clone, Copy, Debug, PartialEq, Eq)]
pub struct Cursors {
    /// The posts that congruence closure has read.
    pub closure: u32,
    /// The posts that truth propagation has read.
    pub truth: u32,
    /// The posts that the ring solver has read.
    pub ring: u32,
    /// The posts that the linear integer solver has read.
    pub cutsat: u32,
    /// The posts that E-matching has read.
    pub matching: u32,
}

impl Cursors {
    /// How many posts the agent has read.
    pub fn of(&self, agent: Agent) -> u32
        ensures { result ≡ cursor_of agent self.now }
    {
        match agent {
            Agent::Closure => self.closure,
            Agent::Truth => self.truth,
            Agent::Ring => self.ring,
            Agent::Cutsat => self.cutsat,
            Agent::Match => self.matching,
        }
    }
}

// The cursors once the agent has read one post more.
pub(crate) fn advance(cursors: &mut Cursors, agent: Agent)
    requires { cursor_of agent cursors.old + 1 < 2 ^ 32 }
    ensures { cursors.new ≡ advanced agent cursors.old }
{
    match agent {
        Agent::Closure => cursors.closure += 1,
        Agent::Truth => cursors.truth += 1,
        Agent::Ring => cursors.ring += 1,
        Agent::Cutsat => cursors.cutsat += 1,
        Agent::Match => cursors.matching += 1,
    }
}

//! The peer of a session: what makes a reply of each payload.
ghost use Rattle.std.specs.Prelude.{List, ℕ};
ghost use Rattle.frames.specs.Outcomes.{Outcome, outcome_of};

use calendar::Moment;

/// What is made of a payload.
#[derive(Drop)]
pub enum Answer {
    /// A reply, after which the session goes on.
    Reply(Vec<u8>),
    /// The session's last reply.
    LastReply(Vec<u8>),
    /// The command could not be carried out. The session goes on.
    Failed,
    /// The reply found no memory. What the command did is kept, and the session ends.
    Lost,
}

/// What makes replies of payloads.
pub trait Peer {
    /// From the first state, at a moment, this is made of a payload, and the second state is left.
    ghost answers: { Self → ℕ → List ℕ → Outcome → Self → Type 0 };

    fn answer(&mut self, payload: &[u8], moment: Moment) -> Answer
        ensures { answers self.old moment payload.now (outcome_of result) self.new };
}

//! A peer of a session that knows no registry, and answers with lengths.

use calendar::Moment;
use frames::{Answer, Peer};
use std::alloc::Global;

/// Answers `no` as what can't be carried out, `lost` as a reply that found no memory, `bye` with a last
/// reply, and all else with its own length in bars.
#[derive(Drop)]
pub struct LengthPeer {
    alloc: Global,
}

impl LengthPeer {
    pub fn new(alloc: Global) -> LengthPeer {
        LengthPeer { alloc }
    }
}

impl Peer for LengthPeer {
    ghost use Rattle.std.specs.Prelude.{⊤};

    ghost answers = { λ _ _ _ _ _. ⊤ };

    fn answer(&mut self, payload: &[u8], _moment: Moment) -> Answer {
        match payload {
            b"no" => Answer::Failed,
            b"lost" => Answer::Lost,
            _ => in_bars(self.alloc, payload),
        }
    }
}

fn in_bars(alloc: Global, payload: &[u8]) -> Answer {
    let Ok(reply) = vec![in alloc; b'|'; payload.len()] else {
        return Answer::Lost;
    };
    if payload == b"bye".as_slice() {
        Answer::LastReply(reply)
    } else {
        Answer::Reply(reply)
    }
}

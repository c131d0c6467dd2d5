//! A session: frames in, the frames of the replies out.
ghost use Rattle.std.specs.Prelude.{◌≡◌, if◌then◌else◌, None, Some, IfOk, OnOk, OnErr};
ghost use Rattle.std.specs.Io.KnownBytes.{Appends};
ghost use Rattle.frames.specs.{Frames.frame, Outcomes.{end_with, outcome_of, sent}};
ghost use Rattle.frames.specs.Sessions.{Session, WritesFrames};
ghost use Rattle.frames.specs.Outcomes as spec;
ghost use Rattle.streams.specs.Moves.{AppendsLess};

use crate::peer::{Answer, Peer};
use crate::{Clock, Received, frame_buffer, read_frame, write_closing, write_failed, write_frame};
use std::alloc::Global;
use std::io::{Read, Write};
use streams::WriteFault;

/// The least length of a reply that has no frame: its total length takes more than four bytes.
const TOO_LONG: usize = 0xffff_fffc;

/// How a session ended.
#[derive(Clone, Copy, Debug, PartialEq, Eq)]
pub enum SessionEnd {
    /// With the peer's last reply.
    Logout,
    /// The input ended between two frames.
    End,
    /// The input ended inside a frame.
    Cut,
    /// A frame's length was one that no frame may have, and the closing text was sent.
    Length,
    /// A read failed.
    ReadFault,
    /// A write failed, and left a beginning of a frame, never the whole.
    WriteFault,
    /// There was no memory for a frame or for a reply, or a reply was too long for a frame, and the
    /// closing text was sent. What a command did is kept.
    Lost,
}

/// Answers each frame of the input, up to the peer's last reply.
pub fn serve_session<R: Read, W: Write, C: Clock, P: Peer>(
    alloc: Global,
    reader: &mut R,
    writer: &mut W,
    clock: &mut C,
    peer: &mut P,
) -> SessionEnd
    ensures { WritesFrames (W.contents writer.old) (W.contents writer.new) (λ written. Session P.answers
        (record { input = R.remaining reader.old; clock = C.moments clock.old; peer = peer.old }) written
        (record { input = R.remaining reader.new; clock = C.moments clock.new; peer = peer.new }) result) }
{
    match serve_frames(alloc, reader, writer, clock, peer) {
        Ok(end) => end,
        Err(WriteFault) => SessionEnd::WriteFault,
    }
}

/// Answers each frame of the input, up to the peer's last reply or a write that fails.
fn serve_frames<R: Read, W: Write, C: Clock, P: Peer>(
    alloc: Global,
    reader: &mut R,
    writer: &mut W,
    clock: &mut C,
    peer: &mut P,
) -> Result<SessionEnd, WriteFault>
    ensures ended { IfOk result (λ end. WritesFrames (W.contents writer.old) (W.contents writer.new) (λ written. Session P.answers
        (record { input = R.remaining reader.old; clock = C.moments clock.old; peer = peer.old }) written
        (record { input = R.remaining reader.new; clock = C.moments clock.new; peer = peer.new }) end)) }
    ensures broken { OnErr result (WritesFrames (W.contents writer.old) (W.contents writer.new) (λ written. Session P.answers
        (record { input = R.remaining reader.old; clock = C.moments clock.old; peer = peer.old }) written
        (record { input = R.remaining reader.new; clock = C.moments clock.new; peer = peer.new }) SessionEnd.WriteFault)) }
{
    let Ok(mut buffer) = frame_buffer(alloc) else {
        write_closing(writer)?;
        return Ok(SessionEnd::Lost);
    };
    'frames: for _ in 0..u64::MAX {
        let len = match read_frame(reader, &mut buffer) {
            Received::Frame(len) => len,
            Received::End => return Ok(SessionEnd::End),
            Received::Cut => return Ok(SessionEnd::Cut),
            Received::BadLength => {
                write_closing(writer)?;
                return Ok(SessionEnd::Length);
            }
            Received::ReadFault => return Ok(SessionEnd::ReadFault),
        };
        let moment = clock.moment();
        let answer = peer.answer(&buffer[..len], moment);
        if let Some(end) = send(writer, &answer)? {
            return Ok(end);
        }
    }
    Ok(SessionEnd::ReadFault)
}

/// Sends what is made of a payload, and says how the session ends with it, if it does.
fn send<W: Write>(writer: &mut W, answer: &Answer) -> Result<Option<SessionEnd>, WriteFault>
    ensures end { IfOk result (λ end. end ≡ end_with (outcome_of answer.now)) }
    ensures ok { OnOk result (Appends (W.contents writer.old) (W.contents writer.new)
        (frame (sent (outcome_of answer.now)))) }
    ensures err { OnErr result (AppendsLess (W.contents writer.old) (W.contents writer.new)
        (frame (sent (outcome_of answer.now)))) }
{
    match answer {
        Answer::Reply(reply) => send_reply(writer, reply, None),
        Answer::LastReply(reply) => send_reply(writer, reply, Some(SessionEnd::Logout)),
        Answer::Failed => {
            write_failed(writer)?;
            Ok(None)
        }
        Answer::Lost => {
            write_closing(writer)?;
            Ok(Some(SessionEnd::Lost))
        }
    }
}

/// Sends a reply, or the closing text in place of one that has no frame.
fn send_reply<W: Write>(
    writer: &mut W,
    reply: &[u8],
    end: Option<SessionEnd>,
) -> Result<Option<SessionEnd>, WriteFault>
    ensures end { IfOk result (λ ended. ended
        ≡ (if spec.has_frame reply.now then end else Some SessionEnd.Lost)) }
    ensures ok { OnOk result (Appends (W.contents writer.old) (W.contents writer.new)
        (frame (spec.framed reply.now))) }
    ensures err { OnErr result (AppendsLess (W.contents writer.old) (W.contents writer.new)
        (frame (spec.framed reply.now))) }
{
    if has_frame(reply) {
        write_frame(writer, reply)?;
        return Ok(end);
    }
    write_closing(writer)?;
    Ok(Some(SessionEnd::Lost))
}

/// Whether a reply has a frame.
fn has_frame(reply: &[u8]) -> bool
    ensures { result ≡ spec.has_frame reply.now }
{
    reply.len() < TOO_LONG
}

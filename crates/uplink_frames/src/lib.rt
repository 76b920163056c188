// The information frames of an uplink message: its payload, the message from its fifth byte on, is passed as a part to the walk
// (RULES 'Uplink', 'Uplink payloads').
#![tactic(auto)]

ghost use Rattle.std.specs.Prelude.{◌≡◌, MatchResult};
ghost use Rattle.numbers.specs.Lent.{behind};
ghost use Rattle.uplink.specs.Uplink.{payload_start, payload_of};
ghost use Rattle.information_frames.specs.Walk.{refused, payload_frames};
ghost use Rattle.information_frames.specs.Answers.{frame_list, nth_frame, DataPart};
ghost use Rattle.uplink_frames.specs.Frames.{message_frames};

use information_frames::{Frame, FrameList};
use refusals::Refusal;

// How many frames the message has.
pub fn list(message: &[u8]) -> Result<FrameList, Refusal>
    ensures { result ≡ frame_list (message_frames message.now) }
{
    information_frames::list(payload_in(message)?)
}

// Frame n, numbered from 0.
pub fn nth(message: &[u8], n: usize) -> Result<Frame, Refusal>
    ensures { result ≡ nth_frame (message_frames message.now) n }
{
    information_frames::nth(payload_in(message)?, n)
}

// The data of frame n, in the caller's own memory; an empty part on a refusal.
pub fn data<'a>(message: &'a [u8], n: usize) -> &'a [u8]
    ensures { DataPart (nth_frame (message_frames message.now) n) (payload_of message.now) (behind (payload_start message.now) message.entry.ref_ptr) result.now result.ref_ptr }
{
    information_frames::data(uplink::payload(message), n)
}

// The payload whose frames are the message's.
fn payload_in(message: &[u8]) -> Result<&[u8], Refusal>
    ensures { MatchResult result (λ payload. message_frames message.now ≡ payload_frames payload.now) (λ refusal. message_frames message.now ≡ refused refusal) }
{
    uplink::read_uplink(message)?;
    Ok(&message[4..])
}

// The uplink message (001 §3.3; RULES 'Uplink'): its time of reception, and its payload as a part of it.
#![tactic(auto)]

ghost use Rattle.std.specs.Prelude.{◌≡◌};
ghost use Rattle.uplink.specs.Reception.{reception_of, reception_in, good_reception, reception_number};
ghost use Rattle.uplink.specs.Uplink.{head_bytes, read_uplink, PayloadPart, WroteUplink};

use message_types::Uplink;
use refusals::Refusal;

// 001 §3.3.1: the last step of a second, and the mark of none.
const LAST_STEP: u32 = 12499999;

const NO_STEP: u32 = 0xFFFFFF;

#[tactic(auto, unfolding(codec::specs::Reading::reading))]
pub fn read_uplink(message: &[u8]) -> Result<Uplink, Refusal>
    ensures { result ≡ read_uplink message.now }
{
    let reception = reception_in(codec::fit(message, Uplink::ID)?);
    if is_good_reception(reception) {
        Ok(Uplink { reception })
    } else {
        Err(Refusal::BadField)
    }
}

// An uplink's payload, in the caller's own memory; of any other message an empty part.
pub fn payload<'a>(message: &'a [u8]) -> &'a [u8]
    ensures { PayloadPart message.now message.entry.ref_ptr result.now result.ref_ptr }
{
    match read_uplink(message) {
        Ok(_) => &message[4..],
        Err(_) => &message[..0],
    }
}

#[tactic(auto, unfolding(crate::specs::Uplink::writing_uplink, codec::specs::Writing::writing, numbers::specs::Lent::written))]
pub fn write_uplink(uplink: Uplink, payload: &[u8], out: &mut [u8]) -> Result<usize, Refusal>
    ensures { WroteUplink uplink payload.now out.old result out.new }
{
    if payload.len() != 432 {
        return Err(Refusal::WrongLength);
    }
    if !is_good_reception(uplink.reception) {
        return Err(Refusal::BadField);
    }
    if out.len() < Uplink::LENGTH {
        return Err(Refusal::NoRoom);
    }
    out[..4].copy_from_slice(&head_of(uplink.reception));
    // for which there is room
    let _ = codec::put(payload, &mut out[4..Uplink::LENGTH]);
    Ok(Uplink::LENGTH)
}

fn reception_in(bytes: &[u8; Uplink::LENGTH]) -> Option<u32>
    ensures { result ≡ reception_in bytes.now }
{
    reception_of(bytes[1], bytes[2], bytes[3])
}

#[tactic(auto, unfolding(crate::specs::Reception::reception_of))]
fn reception_of(low: u8, middle: u8, high: u8) -> Option<u32>
    ensures { result ≡ reception_of low middle high }
{
    let steps = u32::from_le_bytes([low, middle, high, 0]);
    if steps == NO_STEP { None } else { Some(steps) }
}

fn is_good_reception(reception: Option<u32>) -> bool
    ensures { result ≡ good_reception reception }
{
    match reception {
        Some(steps) => steps <= LAST_STEP,
        None => true,
    }
}

// What stands before the payload.
fn head_of(reception: Option<u32>) -> [u8; 4]
    ensures { result ≡ head_bytes reception }
{
    let [low, middle, high, _] = reception.unwrap_or(NO_STEP).to_le_bytes();
    [Uplink::ID, low, middle, high]
}

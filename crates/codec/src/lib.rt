// What the message kinds share: the checks of id and length, and writing bytes to lent memory.
#![tactic(auto)]

ghost use Rattle.std.specs.Prelude.{true, ◌≡◌, MatchResult, Ok, Err};
ghost use Rattle.codec.specs.Reading.{fit, misfit};
ghost use Rattle.codec.specs.Writing.{Wrote};

use refusals::Refusal;

// The message as the bytes of a kind: 6 for no bytes or another id than the kind's; then 7 for another length than the kind's.
#[tactic(auto, unfolding(crate::specs::Reading::fit))]
pub fn fit<const N: usize>(message: &[u8], id: u8) -> Result<&[u8; N], Refusal>
    ensures { MatchResult result (λ bytes. fit id N message.now ≡ Ok bytes.now) (λ refusal. fit id N message.now ≡ Err refusal) }
{
    if message.len() == 0 || message[0] != id {
        return Err(Refusal::OtherId);
    }
    message.as_array().ok_or(Refusal::WrongLength)
}

// The number of that refusal, for a length that is told: 0 for none.
#[tactic(auto, unfolding(crate::specs::Reading::fit, crate::specs::Reading::misfit))]
pub fn misfit(message: &[u8], id: u8, length: usize) -> u8
    ensures { result ≡ misfit id length message.now }
{
    if message.is_empty() || message[0] != id {
        return Refusal::OtherId.number();
    }
    if message.len() != length {
        return Refusal::WrongLength.number();
    }
    0
}

// The bytes to the start of the output: 9 exactly when the output is shorter than the message.
pub fn put(bytes: &[u8], out: &mut [u8]) -> Result<usize, Refusal>
    ensures { Wrote true bytes.now out.old result out.new }
{
    if out.len() < bytes.len() {
        return Err(Refusal::NoRoom);
    }
    // not by `copy_from_slice`: of a length that the compiler doesn't know that calls memmove, which the archive for C is to do without
    for (i, byte) in bytes.iter().enumerate() {
        out[i] = *byte;
    }
    Ok(bytes.len())
}

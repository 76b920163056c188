// A tally of collecting's answers, lent by the caller: how often each was given (RULES 'Tally').
#![tactic(auto)]

ghost use Rattle.std.specs.Prelude.{◌≡◌};
ghost use Rattle.tallying.specs.Tally.{zero, raised_at, tallied};

use collecting::Answer;

#[repr(C)]
#[derive(Clone, Copy)]
pub struct Tally {
    // of the answers 0 to 5; each holds at 4,294,967,295
    pub counts: [u32; 6],
}

impl Tally {
    // No answer yet.
    pub fn zero() -> Self
        ensures { result ≡ zero }
    {
        Self { counts: [0u32; 6] }
    }
}

// The tally once an answer is given: its count is one higher, or holds; the others stay.
pub fn raised(tally: Tally, answer: Answer) -> Tally
    ensures { result ≡ tallied tally answer }
{
    match answer {
        Answer::None => tally,
        Answer::Accepted(_) => raised_at(tally, 0),
        Answer::Refused(n, _) => raised_at(tally, n),
    }
}

// One more of answer n, holding at 4,294,967,295.
#[tactic(auto, using(crate::proofs::Counting::no_count, crate::proofs::Counting::goes_up))]
fn raised_at(tally: Tally, n: u8) -> Tally
    ensures { result ≡ raised_at tally n }
{
    let mut next = tally;
    let i = usize::from(n);
    if i < 6 {
        next.counts[i] = next.counts[i].saturating_add(1);
    }
    next
}

// The same in the caller's tally.
pub fn raise(tally: &mut Tally, answer: Answer)
    ensures { tally.new ≡ tallied tally.old answer }
{
    *tally = raised(*tally, answer);
}

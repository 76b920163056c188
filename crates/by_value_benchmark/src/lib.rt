// Collecting a whole slice with the state by value, to measure what that layer costs.
#![tactic(auto)]

ghost use Rattle.std.specs.Prelude.{◌≡◌};
ghost use Rattle.collecting.specs.Step.{fresh};
ghost use Rattle.by_value_benchmark.specs.Answers.{answer_count};

use collecting::Collector;

// How many answers the bytes are given, from the fresh state.
#[unsafe(no_mangle)]
pub extern "C" fn by_value_answers(bytes: &[u8]) -> usize
    ensures { result ≡ answer_count fresh bytes.now }
{
    let mut collector = Collector::fresh();
    let mut n = 0;
    for byte in bytes {
        let collected = collector.step(*byte);
        collector = collected.state;
        n += usize::from(collecting::is_answered(collected.answer));
    }
    n
}

// The initialization (001 §3.2): what the receiver is told.
#![tactic(auto)]

ghost use Rattle.std.specs.Prelude.{◌≡◌};
ghost use Rattle.codec.specs.Writing.{Wrote};
ghost use Rattle.initialization.specs.Initialization.{good_initialization, initialization_bytes, read_initialization};

use message_types::Initialization;
use refusals::Refusal;

#[tactic(auto, unfolding(codec::specs::Reading::reading))]
pub fn read_initialization(message: &[u8]) -> Result<Initialization, Refusal>
    ensures { result ≡ read_initialization message.now }
{
    let bytes: &[u8; Initialization::LENGTH] = codec::fit(message, Initialization::ID)?;
    let [_, first, second] = *bytes;
    Ok(Initialization { first, second })
}

pub fn write_initialization(
    initialization: Initialization,
    out: &mut [u8],
) -> Result<usize, Refusal>
    ensures { Wrote (good_initialization initialization) (initialization_bytes initialization) out.old result out.new }
{
    let bytes = [
        Initialization::ID,
        initialization.first,
        initialization.second,
    ];
    codec::put(&bytes, out)
}

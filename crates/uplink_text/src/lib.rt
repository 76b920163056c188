// The weather texts of an uplink message: an information frame's data are passed as a part to the reading of a text
// (RULES 'Uplink payloads', 'Weather texts').
#![tactic(auto)]

ghost use Rattle.generic_text.specs.Answers.{ReadText};
ghost use Rattle.uplink_text.specs.Texts.{message_text};

use generic_text::Text;
use refusals::Refusal;

// Reads the text of frame n, numbered from 0, to the start of `out`. The frame's type is not looked at: `uplink_frames::nth` has it.
pub fn read(message: &[u8], n: usize, out: &mut [u8]) -> Result<Text, Refusal>
    ensures { ReadText (message_text message.now n) out.old result out.new }
{
    uplink_frames::nth(message, n)?;
    generic_text::read(uplink_frames::data(message, n), out)
}

// What the library refuses with (RULES 'Numbers'): each number from 6 on has its name here. Collecting's, 1 to 5, stand in its answer,
// since a tally takes an answer with any number.
#![tactic(auto)]

ghost use Rattle.std.specs.Prelude.{◌≡◌};
ghost use Rattle.refusals.specs.Numbers.{refusal_number};

use std::error::Error;
use std::fmt;

#[derive(Clone, Copy, Debug, PartialEq, Eq, Hash)]
pub enum Refusal {
    // no byte, or a first byte that is not the id of the kind, or of any kind where none is asked for
    OtherId = 6,
    // a message has another length than its id asks for; a payload has not 432 bytes
    WrongLength = 7,
    // a field is outside its range, does not fit into its bits, or does not go with another
    BadField = 8,
    // the output is too short, a payload has no room for one frame more, a list has too few places
    NoRoom = 9,
    // a message to be framed has no byte, or more than 436
    NotFramed = 10,
    // an information frame is longer than the application data behind its header
    PastTheEnd = 11,
    // a payload has no frame of the number that was asked for
    NoFrame = 13,
    // a text's data have fewer than four bytes
    NoHeader = 14,
    // a text's header is that of another product, or has a bit set that a text's has not
    NoText = 15,
    // a code is no character, or a tab has no count; a character has no code
    NoCharacter = 16,
    // a retired id
    RetiredId = 17,
}

impl Refusal {
    // The number of RULES 'Numbers'.
    pub fn number(self) -> u8
        ensures { result ≡ refusal_number self }
    {
        self as u8
    }
}

impl fmt::Display for Refusal {
    fn fmt<W: fmt::Write>(&self, f: &mut fmt::Formatter<W>) -> fmt::Result {
        write!(f, "refused with {}", self.number())
    }
}

impl Error for Refusal {}

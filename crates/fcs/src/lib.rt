// The frame check sequence (001 §2.2.3), from 16 words (RULES 'Check sequence').
#![tactic(auto)]

ghost use Rattle.std.specs.Prelude.{◌≡◌, ◌%◌, ◌≤◌, length};
ghost use Rattle.fcs.specs.Fcs.{fcs};
ghost use Rattle.fcs.specs.Words.{word_of, by_halves};

// The check sequence of a message: from zero, over the message's bits and no more. Two bytes a turn; the first
// of an odd number of bytes stands by itself: it is its own sequence.
pub fn check_sequence(message: &[u8]) -> u16
    ensures { result ≡ fcs message.now }
{
    let (unpaired, pairs) = message.as_rchunks::<2>();
    let mut r = unpaired_byte(unpaired);
    for pair in pairs {
        r = with_pair(r, pair[0], pair[1]);
    }
    r
}

// No byte, or one, which is its own sequence.
fn unpaired_byte(unpaired: &[u8]) -> u16
    requires { length unpaired.now ≤ 1 }
    ensures { result ≡ fcs unpaired.now }
{
    match unpaired {
        [byte, ..] => *byte as u16,
        [] => 0,
    }
}

// Two bytes more of the division: four half bytes leave above, and each comes back below as its word. They are the
// quotient's: r has the first, t the second, q the other two, so that no word waits for another. The upper part of a
// word leaves again; t and q have it counted in, so `% 16` and its like drop it.
fn with_pair(r: u16, a: u8, b: u8) -> u16
    ensures { result ≡ by_halves (by_halves r a) b }
{
    let t = r ^ (r / 16);
    let q = t ^ (t / 256) ^ (r / 2048);
    let first = word(r / 4096) % 16 * 4096;
    let second = word(t / 256) % 256 * 256;
    let third = word(q / 16) % 4096 * 16;
    first ^ second ^ third ^ word(q) ^ u16::from_be_bytes([a, b])
}

// The word of the lowest half byte: word i is the sequence of the message i, 00, 00. The table is a match, since a
// constant array is built on the stack wherever it is named.
fn word(i: u16) -> u16
    ensures { result ≡ word_of (i % 16) }
{
    match i % 16 {
        0 => 0x0000,
        1 => 0x1021,
        2 => 0x2042,
        3 => 0x3063,
        4 => 0x4084,
        5 => 0x50A5,
        6 => 0x60C6,
        7 => 0x70E7,
        8 => 0x8108,
        9 => 0x9129,
        10 => 0xA14A,
        11 => 0xB16B,
        12 => 0xC18C,
        13 => 0xD1AD,
        14 => 0xE1CE,
        _ => 0xF1EF,
    }
}

// The code characters of weather texts (001 §5.2.2.2; RULES 'Weather texts').
#![tactic(auto)]

ghost use Rattle.std.specs.Prelude.{◌≡◌};
ghost use Rattle.characters.specs.Characters.{is_listed, are_listed};

// The list has every byte of a text. It does not stop at one that the list lacks, as `all` would, so that many can be tested at once.
pub fn are_listed(text: &[u8]) -> bool
    ensures { result ≡ are_listed text.now }
{
    let mut all = true;
    for byte in text {
        all &= is_listed(*byte);
    }
    all
}

// The list has a byte.
fn is_listed(byte: u8) -> bool
    ensures { result ≡ is_listed byte }
{
    (((32 <= byte) & (byte <= 90)) & (byte != 64)) | ((byte == 0x1E) | (byte == 0x0A))
}

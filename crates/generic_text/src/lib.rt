// The Generic Text product of an information frame (001 §5.2; RULES 'Weather texts'): an APDU header, then characters of six bits.
#![tactic(auto)]

ghost use Rattle.std.specs.Prelude.{◌≡◌, true, [], ◌∷◌, ◌+◌, ◌-◌, ◌%◌, ◌^◌, ◌≤◌, ◌<◌, min, length, replicate};
ghost use Rattle.numbers.specs.Lent.{written, Stored};
ghost use Rattle.characters.specs.Characters.{code_of, are_listed};
ghost use Rattle.generic_text.specs.Texts.{text_of_codes};
ghost use Rattle.generic_text.specs.Product.{decode, is_generic_text, hours_in, minutes_in, padding_in, is_fit, text_with, header_of, closed_bytes};
ghost use Rattle.generic_text.specs.Putting.{three_of};
ghost use Rattle.generic_text.specs.Answers.{text_of, ReadText, WroteText};
ghost use Rattle.generic_text.specs.Codes.{codes_left, Fits, or_no_bytes, measured};

mod six_bits;

use refusals::Refusal;
use six_bits::{CHARACTERS, Codes};

// 001 §5.2.2.1.
const PRODUCT: u16 = 413;

// A text of so many bytes, and what its header carries.
#[derive(Clone, Copy)]
pub struct Text {
    pub hours: u8,
    pub minutes: u8,
    pub padding: u8,
    pub length: usize,
}

// Reads the text of an information frame's data to the start of `out`: `NoHeader`, fewer than four header bytes; `NoText`, no text's
// header; `NoCharacter`, a code that is none, or a tab with no count; `NoRoom`, `out` is too short.
pub fn read(apdu: &[u8], out: &mut [u8]) -> Result<Text, Refusal>
    ensures { ReadText (decode apdu.now) out.old result out.new }
{
    if apdu.len() < 4 {
        return Err(Refusal::NoHeader);
    }
    if !is_generic_text(apdu[0], apdu[1], apdu[2]) {
        return Err(Refusal::NoText);
    }
    let table = CHARACTERS;
    let codes = Codes::new(&table, &apdu[4..]);
    let n = measure(codes, out.len())?;
    if out.len() < n {
        return Err(Refusal::NoRoom);
    }
    expand(codes, out);
    Ok(accepted(apdu[2], apdu[3], n))
}

// A text of n bytes, and what the header's last two bytes carry.
fn accepted(c: u8, d: u8, n: usize) -> Text
    ensures { result ≡ text_of (hours_in c) (minutes_in c d) (padding_in d) n }
{
    Text {
        hours: c / 4 % 32,
        minutes: c % 4 * 16 + d / 16,
        padding: d % 16,
        length: n,
    }
}

// The product is text, and every other bit before the hours is 0.
fn is_generic_text(a: u8, b: u8, c: u8) -> bool
    ensures { result ≡ is_generic_text a b c }
{
    (a / 32 == 0)
        & (((a as u16) % 32 * 64 + (b as u16) / 4 == PRODUCT)
            & ((b / 2 % 2 == 0) & (b % 2 * 2 + c / 128 == 0)))
}

// Counts the text's bytes, four characters at a time where it can, and no further than one more than the room.
fn measure(codes: Codes, room: usize) -> Result<usize, Refusal>
    requires { room < 2 ^ 63 }
    ensures { result ≡ measured (text_of_codes (codes_left codes.entry)) room }
{
    let mut codes = codes;
    let mut n: usize = 0;
    loop {
        if let Some((_, rest)) = codes.next_four() {
            n = (n + 4).min(room + 1);
            codes = rest;
        } else if let Some((run, rest)) = codes.next_run()? {
            n = (n + run.times as usize).min(room + 1);
            codes = rest;
        } else {
            return Ok(n);
        }
    }
}

// Writes the text, for which there is room.
fn expand(codes: Codes, out: &mut [u8])
    requires { Fits (text_of_codes (codes_left codes)) (length out.old) }
    ensures { out.new ≡ written (or_no_bytes (text_of_codes (codes_left codes.entry))) out.old }
{
    let mut codes = codes;
    let mut at = 0;
    loop {
        if let Some(next) = codes.next_four() {
            let four = next.0;
            at = put_four(out, at, four[0], four[1], four[2], four[3]);
            codes = next.1;
        } else if let Some((run, rest)) = codes.next_run().unwrap_or(None) {
            at = fill(out, at, run.byte, run.times);
            codes = rest;
        } else {
            return;
        }
    }
}

// A byte so many times from `at` on. Tried: `out[at..end].fill(byte)` in `expand` takes the registers of its loop, and a long text is
// read in 1084 ns in the place of 984 (980 before it).
fn fill(out: &mut [u8], at: usize, byte: u8, times: u8) -> usize
    requires { at + times ≤ length out.old }
    ensures { Stored out.old at (replicate times byte) result out.new }
{
    let mut next = at;
    let mut left = times;
    while 0 < left {
        out[next] = byte;
        next += 1;
        left -= 1;
    }
    next
}

// Four bytes from `at` on: four stores, which the compiler makes one of. Tried: `copy_from_slice` of the four copies them twice, and
// reading misses its bar.
fn put_four(out: &mut [u8], at: usize, a: u8, b: u8, c: u8, d: u8) -> usize
    requires { at + 4 ≤ length out.old }
    ensures { Stored out.old at (a ∷ b ∷ c ∷ d ∷ []) result out.new }
{
    out[at] = a;
    out[at + 1] = b;
    out[at + 2] = c;
    out[at + 3] = d;
    at + 4
}

// Writes a text with its header to the start of `out`: `BadField`, a header field too wide; `NoCharacter`, one that the list lacks;
// `NoRoom`, `out` is too short.
pub fn write(
    hours: u8,
    minutes: u8,
    padding: u8,
    text: &[u8],
    out: &mut [u8],
) -> Result<usize, Refusal>
    ensures { WroteText (text_with hours minutes padding text.now) out.old result out.new }
{
    if !is_fit(hours, minutes, padding) {
        return Err(Refusal::BadField);
    }
    if !characters::are_listed(text) {
        return Err(Refusal::NoCharacter);
    }
    // four of six bits are three bytes
    let codes = text.len() + 1;
    if out.len() < 4 + (codes - codes / 4) {
        return Err(Refusal::NoRoom);
    }
    put_header(out, hours, minutes, padding);
    Ok(put_codes(out, text))
}

// Each field of the header fits its bits.
fn is_fit(hours: u8, minutes: u8, padding: u8) -> bool
    ensures { result ≡ is_fit hours minutes padding }
{
    (hours < 32) & ((minutes < 64) & (padding < 16))
}

fn put_header(out: &mut [u8], hours: u8, minutes: u8, padding: u8)
    requires { (4 ≤ length out.old) × ((hours < 32) × (minutes < 64) × (padding < 16)) }
    ensures { Stored out.old 0 (header_of hours minutes padding) 4 out.new }
{
    // 413 / 64 and 413 % 64 * 4: the product, and 0 in every other bit before the hours
    out[0] = 6;
    out[1] = 116;
    out[2] = hours * 4 + minutes / 16;
    out[3] = minutes % 16 * 16 + padding;
}

// The characters' codes behind the header, four at a time, and the last.
fn put_codes(out: &mut [u8], text: &[u8]) -> usize
    requires { (4 + length (closed_bytes text.now) ≤ length out.old) × (are_listed text.now ≡ true) }
    ensures { Stored out.old 4 (closed_bytes text.now) result out.new }
{
    let mut left = text;
    let mut at = 4;
    while let [a, b, c, d, rest @ ..] = left {
        let a = listed_code(*a);
        let b = listed_code(*b);
        let c = listed_code(*c);
        let d = listed_code(*d);
        at = put_three(out, at, a, b, c, d);
        left = rest;
    }
    put_last(out, at, left)
}

// The code of a byte that the list has: most are their own code, or 64 more.
fn listed_code(byte: u8) -> u8
    requires { 0 < code_of byte }
    ensures { result ≡ code_of byte }
{
    if 32 <= byte {
        return byte % 64;
    }
    if byte == 0x0A {
        return 30;
    }
    29
}

// The three bytes of four codes. The place is told, and not a part lent as `&mut out[at..]`, which is no plainer: each caller would cut
// and then add the 3 by itself, and `Stored` speaks of places in the whole.
fn put_three(out: &mut [u8], at: usize, a: u8, b: u8, c: u8, d: u8) -> usize
    requires { (at + 3 ≤ length out.old) × ((a < 64) × (b < 64) × (c < 64) × (d < 64)) }
    ensures { Stored out.old at (three_of a b c d) result out.new }
{
    let codes = (((a as u32) * 64 + b as u32) * 64 + c as u32) * 64 + d as u32;
    out[at] = (codes / 65536 % 256) as u8;
    out[at + 1] = (codes / 256 % 256) as u8;
    out[at + 2] = (codes % 256) as u8;
    at + 3
}

// The last characters, fewer than four, closed by one code 0; zero bits fill the last byte.
fn put_last(out: &mut [u8], at: usize, left: &[u8]) -> usize
    requires { (at + length (closed_bytes left.now) ≤ length out.old) × (are_listed left.now ≡ true) × (length left.now < 4) }
    ensures { Stored out.old at (closed_bytes left.now) result out.new }
{
    match left {
        [] => {
            out[at] = 0;
            at + 1
        }
        [a] => {
            out[at] = listed_code(*a) * 4;
            out[at + 1] = 0;
            at + 2
        }
        [a, b] => {
            let a = listed_code(*a);
            let b = listed_code(*b);
            put_three(out, at, a, b, 0, 0)
        }
        [a, b, c, ..] => {
            let a = listed_code(*a);
            let b = listed_code(*b);
            let c = listed_code(*c);
            put_three(out, at, a, b, c, 0)
        }
    }
}

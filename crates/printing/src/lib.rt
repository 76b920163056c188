// What the programs read and print with, besides std.
#![tactic(auto)]

ghost use Rattle.std.specs.Prelude.{◌≡◌, ◌+◌, ◌^◌, ◌≤◌, ◌<◌, min, length, take};
ghost use Rattle.std.specs.Io.KnownBytes.{Consumes};
ghost use Rattle.std.specs.Iterator.{at_most};
ghost use Rattle.printing.specs.Records.{Takes};

use std::fmt;
use std::io::Read;

// Two hexadecimal digits of each byte. What is printed is tested against stored output, since no contract can say it.
#[derive(Clone, Copy)]
pub struct Hex<'a>(pub &'a [u8]);

impl fmt::Display for Hex<'_> {
    fn fmt<W: fmt::Write>(&self, f: &mut fmt::Formatter<W>) -> fmt::Result {
        for byte in self.0 {
            write!(f, "{byte:02x}")?;
        }
        Ok(())
    }
}

// The first n bytes, or all where there are fewer, as two hexadecimal digits each; answers how many
// bytes those were.
pub fn hex_bytes(rt: &impl Print, bytes: &[u8], n: usize) -> usize
    ensures { result ≡ min n (length bytes.now) }
{
    let shown = &bytes[..n.min(bytes.len())];
    let digits = Hex(shown);
    let _ = print!(rt; "{digits}");
    shown.len()
}

// The records of an input: each a header of N bytes, two of which, from SIZE on, are the size of its body, high byte first,
// and the body. Fewer than N bytes at the end are no record.
#[derive(Clone, Copy)]
pub struct Records<'a, const N: usize, const SIZE: usize> {
    pub rest: &'a [u8],
    ghost inside: { SIZE + 2 ≤ N },
    ghost small: { N < 2 ^ 63 },
}

#[derive(Clone, Copy)]
pub struct Record<'a, const N: usize> {
    pub header: &'a [u8; N],
    pub body: &'a [u8],
}

// The input ends within a body. There is no record behind it.
#[derive(Clone, Copy, Debug, PartialEq, Eq)]
pub struct CutShort;

impl<'a, const N: usize, const SIZE: usize> Iterator for Records<'a, N, SIZE> {
    type Item = Result<Record<'a, N>, CutShort>;

    ghost next_gives = { λ s r t. Takes N SIZE s.rest.now r t.rest.now };

    ghost remaining = { λ s. at_most (length s.rest.now) };

    fn next(&mut self) -> Option<Result<Record<'a, N>, CutShort>> {
        let (header, behind) = self.rest.split_first_chunk::<N>()?;
        let size = u16::from_be_bytes([header[SIZE], header[SIZE + 1]]);
        let Some((body, rest)) = behind.split_at_checked(usize::from(size)) else {
            self.rest = &[];
            return Some(Err(CutShort));
        };
        self.rest = rest;
        Some(Ok(Record { header, body }))
    }
}

// Reads until the buffer is full, the input ends or a read fails; answers how many bytes it put at
// the front. They are those that the reader gave, in order, where it is one whose bytes are known.
pub fn read_full<R: Read>(input: &mut R, buffer: &mut [u8]) -> usize
    ensures within { result ≤ length buffer.new }
    ensures bytes { Consumes (R.remaining input.old) (R.remaining input.new) (take result buffer.new) }
{
    // no `read_exact`: after a failure it doesn't say how many bytes came, and the clause `bytes` does
    let mut filled = 0;
    while filled < buffer.len() {
        let Ok(n) = input.read(&mut buffer[filled..]) else {
            break;
        };
        if n == 0 {
            break;
        }
        filled += n;
    }
    filled
}

// Packet captures, told from recordings by how their files begin (RULES 'Notes').
// The number stays a plain one: `begun` and `is_capture` promise their answer for every number, and `Told` names `start` and `begun`.
#![tactic(auto)]

ghost use Rattle.std.specs.Prelude.{◌≡◌};
ghost use Rattle.captures.specs.Captures.{is_capture};
ghost use Rattle.captures.specs.Captures.{start, begun};

// The smallest number of four bytes: that of fewer is below it.
const LEAST: u64 = 0x100000000;

// Before the first byte.
pub fn start() -> u64
    ensures { result ≡ start }
{
    1
}

// A 1 and the first four bytes, high first, as one number: from that of the bytes so far, with these behind them.
pub fn begun(before: u64, bytes: &[u8]) -> u64
    ensures { result ≡ begun before bytes.now }
{
    let mut n = before;
    for byte in bytes {
        if LEAST <= n {
            return n;
        }
        n = n * 256 + u64::from(*byte);
    }
    n
}

// Whether it is the number of how a packet capture begins: pcap, in either order of bytes, with times in microseconds or in nanoseconds; pcapng.
pub fn is_capture(n: u64) -> bool
    ensures { result ≡ is_capture n }
{
    matches!(
        n,
        0x1A1B2C3D4 | 0x1D4C3B2A1 | 0x1A1B23C4D | 0x14D3CB2A1 | 0x10A0D0D0A
    )
}

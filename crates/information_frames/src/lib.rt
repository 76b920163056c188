// The information frames of an uplink payload (001 §4; RULES 'Uplink payloads'): 8 bytes of header, then 424 of application data.
#![tactic(auto)]

ghost use Rattle.std.specs.Prelude.{◌≡◌, ◌+◌, ◌≤◌, length};
ghost use Rattle.information_frames.specs.Frames.{headed, with_valid_bit};
ghost use Rattle.information_frames.specs.Walk.{payload_frames};
ghost use Rattle.information_frames.specs.Answers.{scanned, frame_list, nth_frame, DataPart};
ghost use Rattle.information_frames.specs.Adding.{is_good, with_frame, Adds};

use refusals::Refusal;

#[derive(Clone, Copy)]
pub struct Frame {
    // the byte of the application data at which its header of two bytes starts
    pub at: usize,
    // the bytes of data behind its header
    pub length: usize,
    pub reserved: u8,
    // its type
    pub kind: u8,
}

// How many frames a payload has, and the byte of the application data at which their list ends.
#[derive(Clone, Copy)]
pub struct FrameList {
    pub count: usize,
    pub end: usize,
}

// What a walk finds: the list, and the frame that was asked for, where there is one.
#[derive(Clone, Copy)]
struct Walked {
    list: FrameList,
    frame: Option<Frame>,
}

// How many frames a payload has: `WrongLength`, the payload has not 432 bytes; `PastTheEnd`, a frame runs past the application data.
pub fn list(payload: &[u8]) -> Result<FrameList, Refusal>
    ensures { result ≡ frame_list (payload_frames payload.now) }
{
    Ok(scan(payload, 0)?.list)
}

// Frame n, numbered from 0: refused as `list` is, then `NoFrame`.
pub fn nth(payload: &[u8], n: usize) -> Result<Frame, Refusal>
    ensures { result ≡ nth_frame (payload_frames payload.now) n }
{
    scan(payload, n)?.frame.ok_or(Refusal::NoFrame)
}

// The data of frame n, in the caller's own memory; an empty part on a refusal.
pub fn data<'a>(payload: &'a [u8], n: usize) -> &'a [u8]
    ensures { DataPart (nth_frame (payload_frames payload.now) n) payload.now payload.entry.ref_ptr result.now result.ref_ptr }
{
    match nth(payload, n) {
        Ok(f) => {
            let start = f.at + 10;
            let end = start + f.length;
            &payload[start..end]
        }
        Err(_) => &payload[0..0],
    }
}

// One frame more at the list's end: refused as `list` is, then `BadField`, a type over 15 or data not of 1 to 422 bytes; `NoRoom`.
pub fn add(payload: &mut [u8], kind: u8, bytes: &[u8]) -> Result<(), Refusal>
    ensures { Adds payload.old kind bytes.now result payload.new }
{
    let end = list(payload)?.end;
    let n = bytes.len();
    if !is_good(kind, n) {
        return Err(Refusal::BadField);
    }
    if 424 < end + 2 + n {
        return Err(Refusal::NoRoom);
    }
    put(payload, end, kind, bytes);
    Ok(())
}

// The walk over the application data, which remembers frame n. Each step is as long as the bytes read there say: no counted loop.
fn scan(payload: &[u8], n: usize) -> Result<Walked, Refusal>
    ensures { result ≡ scanned n (payload_frames payload.now) }
{
    if payload.len() != 432 {
        return Err(Refusal::WrongLength);
    }
    let mut list = FrameList { count: 0, end: 0 };
    let mut frame = None;
    // bit 5 of the seventh header byte
    if payload[6] / 32 % 2 != 1 {
        return Ok(Walked { list, frame });
    }
    while list.end < 423 {
        let at = list.end;
        let f = header(at, payload[at + 8], payload[at + 9]);
        let size = f.length;
        if size == 0 {
            break;
        }
        if 422 - at < size {
            return Err(Refusal::PastTheEnd);
        }
        if list.count == n {
            frame = Some(f);
        }
        list = FrameList {
            count: list.count + 1,
            end: at + (size + 2),
        };
    }
    Ok(Walked { list, frame })
}

// The frame at byte `at` whose header is the bytes a and b: nine bits of length: the first byte whole and bit 7 of the next;
// three reserved bits; type in four.
fn header(at: usize, a: u8, b: u8) -> Frame
    ensures { result ≡ headed at a b }
{
    Frame {
        at,
        length: (a as usize) * 2 + (b as usize) / 128,
        reserved: b / 16 % 8,
        kind: b % 16,
    }
}

// A type of four bits, and 1 to 422 bytes of data.
fn is_good(kind: u8, n: usize) -> bool
    ensures { result ≡ is_good kind n }
{
    kind <= 15 && 1 <= n && n <= 422
}

// A frame at byte `end`, zeros behind it, and the valid bit set.
fn put(payload: &mut [u8], end: usize, kind: u8, bytes: &[u8])
    requires { (length payload.old ≡ 432) × (end + 2 + length bytes.now ≤ 424) × (kind ≤ 15) }
    ensures { payload.new ≡ with_frame payload.old end kind bytes.now }
{
    let n = bytes.len();
    payload[6] = with_valid_bit(payload[6]);
    payload[end + 8] = (n / 2) as u8;
    payload[end + 9] = (n % 2 * 128) as u8 + kind;
    // for which there is room
    let _ = codec::put(bytes, &mut payload[end + 10..end + 10 + n]);
    payload[end + 10 + n..].fill(0);
}

// Bit 5 set, the other bits as they were.
fn with_valid_bit(b: u8) -> u8
    ensures { result ≡ with_valid_bit b }
{
    b + (1 - b / 32 % 2) * 32
}

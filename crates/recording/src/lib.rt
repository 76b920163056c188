// A recording read as a whole (001 §2.2.1; RULES 'Recordings'), for who reads here first: collecting gives the same answers, to
// bytes that come one by one. `part_end` cuts at a flag, `unstuff` and `check` follow, `answer_part` takes the three for one
// part, and `measure` and `write` go over all parts. In a contract `x.old` is what x holds at the call, `x.new` what it holds at the
// return, and `x.now` what is only read.
#![tactic(auto)]

ghost use Rattle.std.specs.Prelude.{◌≡◌, false, ◌+◌, ◌≤◌, ◌<◌, length, drop, MatchResult};
ghost use Rattle.numbers.specs.Lent.{written, Stored};
ghost use Rattle.framing.specs.Stuffing.{Flagless};
ghost use Rattle.collecting.specs.Stream.{unflagged};
ghost use Rattle.collecting.specs.Between.{whole};
ghost use Rattle.recording.specs.Steps.{fault_number, Unescapes, part_bytes, Unstuffs, checked_part, IsReply, AnswersPart, answer_entry};
ghost use Rattle.recording.specs.Recording.{each_answer, entry_of, message_in, needed_by, is_short, ReadRecording};

use collecting::Answer;
use refusals::Refusal;

// Cut: where the part that begins at `start` ends, at the next flag or, where there is none, with the recording.
fn part_end(recording: &[u8], start: usize) -> usize
    requires { start ≤ length recording.now }
    ensures { result ≡ start + unflagged (drop start recording.now) }
{
    start + collecting::before_flag(&recording[start..])
}

// What a part's stuffing is refused for, with its number (RULES 'Numbers').
#[derive(Clone, Copy, Debug, PartialEq, Eq)]
enum Fault {
    // 0x7D before another byte than 0x5D and 0x5E
    BadEscape = 1,
    // 0x7D before the closing flag
    CutEscape = 2,
    // a 439th byte
    TooLong = 3,
}

impl Fault {
    fn number(self) -> u8
        ensures { result ≡ fault_number self }
    {
        self as u8
    }
}

// The first fault of a part, and how many of its bytes were taken, up to and with the fault.
#[derive(Clone, Copy, Debug, PartialEq, Eq)]
struct Broken {
    fault: Fault,
    taken: usize,
}

// Unstuff: byte after byte, all or up to a fault. The bytes, up to 438, stand at the room's start: how many.
fn unstuff(part: &[u8], room: &mut [u8; 438]) -> Result<usize, Broken>
    requires { Flagless part.now × (length room.old ≡ 438) }
    ensures unstuffs { Unstuffs part.now result }
    ensures output { room.new ≡ written (part_bytes part.now) room.old }
{
    let mut count = 0;
    let mut taken = 0;
    // no `for`, as a byte takes one place of the part or two
    while taken < part.len() {
        // a refused escape gives no byte that could be the 439th
        let unescaped = unescape(part, taken)?;
        taken = unescaped.next;
        if count == 438 {
            let fault = Fault::TooLong;
            return Err(Broken { fault, taken });
        }
        room[count] = unescaped.byte;
        count += 1;
    }
    Ok(count)
}

// One byte of a part without its escape, and the place behind it.
#[derive(Clone, Copy)]
struct Unescaped {
    byte: u8,
    next: usize,
}

fn unescape(part: &[u8], i: usize) -> Result<Unescaped, Broken>
    requires { (i < length part.now) × Flagless part.now }
    ensures { Unescapes part.now i result }
{
    let byte = part[i];
    if byte != 0x7D {
        return Ok(Unescaped { byte, next: i + 1 });
    }
    if i + 1 == part.len() {
        return Err(Broken {
            fault: Fault::CutEscape,
            taken: i + 1,
        });
    }
    let escaped = part[i + 1];
    if (escaped == 0x5D) | (escaped == 0x5E) {
        return Ok(Unescaped {
            byte: escaped ^ 0x20,
            next: i + 2,
        });
    }
    Err(Broken {
        fault: Fault::BadEscape,
        taken: i + 2,
    })
}

// Check: the fault of unstuffing, or what the bytes at the room's start are answered, all stuffed bytes taken.
fn check(unstuffed: Result<usize, Broken>, all: usize, room: &[u8]) -> Answer
    requires { MatchResult unstuffed (λ n. n ≤ length room.now) (λ b. Unit {0}) }
    ensures { IsReply result room.now (checked_part all room.now unstuffed) }
{
    match unstuffed {
        Ok(count) => whole(&room[..count], all),
        Err(broken) => Answer::Refused(broken.fault.number(), broken.taken),
    }
}

// Without a fault: the length, then the check sequence, which stands behind the message, low byte first.
fn whole(bytes: &[u8], taken: usize) -> Answer
    ensures { IsReply result bytes.now (whole taken bytes.now) }
{
    let n = bytes.len();
    // nothing stands between the flags
    if n == 0 {
        return Answer::None;
    }
    // too short for a message and its check sequence
    if n < 3 {
        return Answer::Refused(4, taken);
    }
    let k = n - 2;
    let sent = collecting::word(bytes[k + 1], bytes[k]);
    if fcs::check_sequence(&bytes[..k]) == sent {
        return Answer::Accepted(k);
    }
    Answer::Refused(5, taken)
}

// The answer to a part, and its end: the place of the flag that closes it, or the end of the recording.
#[derive(Clone, Copy)]
struct PartAnswer {
    answer: Answer,
    end: usize,
}

// The part behind the flag at place i: cut, unstuffed, checked. With answer 0 the message stands at the room's start.
fn answer_part(recording: &[u8], i: usize, room: &mut [u8; 438]) -> PartAnswer
    requires { (i < length recording.now) × (length room.old ≡ 438) }
    ensures { AnswersPart recording.now i result room.new }
{
    let start = i + 1;
    let end = part_end(recording, start);
    // no flag closes it
    if end == recording.len() {
        return PartAnswer {
            answer: Answer::None,
            end,
        };
    }
    let part = &recording[start..end];
    let unstuffed = unstuff(part, room);
    let answer = check(unstuffed, part.len(), room);
    PartAnswer { answer, end }
}

// How many entries a recording has, and how many bytes its messages have together.
#[derive(Clone, Copy)]
struct Needed {
    entries: usize,
    bytes: usize,
}

fn measure(recording: &[u8]) -> Needed
    ensures { result ≡ needed_by recording.now }
{
    let mut room = [0u8; 438];
    let mut entries = 0;
    let mut bytes = 0;
    // the lead-in ends at the first flag; a turn goes to the next one. Not by `split`, which hands out what no flag closes as well
    let mut i = part_end(recording, 0);
    while i < recording.len() {
        let part = answer_part(recording, i, &mut room);
        let answer = part.answer;
        if collecting::is_answered(answer) {
            entries += 1;
        }
        bytes += collecting::message_length(answer);
        i = part.end;
    }
    Needed { entries, bytes }
}

// An answer's entry, behind n numbers: answer, position, message length.
fn put_entry(list: &mut [usize], n: usize, answer: Answer) -> usize
    requires { n + length (answer_entry answer) ≤ length list.old }
    ensures { Stored list.old n (answer_entry answer) result list.new }
{
    if collecting::is_answered(answer) {
        list[n] = usize::from(collecting::answer_number(answer));
        list[n + 1] = collecting::position(answer);
        list[n + 2] = collecting::message_length(answer);
        return n + 3;
    }
    n
}

// A message, behind n bytes.
fn put_message(messages: &mut [u8], n: usize, message: &[u8]) -> usize
    requires { n + length message.now ≤ length messages.old }
    ensures { Stored messages.old n message.now result messages.new }
{
    // not by `copy_from_slice`, which is a call for a part without a message too: a recording of flags took a third longer
    for (i, byte) in message.iter().enumerate() {
        messages[n + i] = *byte;
    }
    n + message.len()
}

// The entries, and the messages, end to end.
fn write(recording: &[u8], list: &mut [usize], messages: &mut [u8])
    requires { is_short recording.now (length list.old) (length messages.old) ≡ false }
    ensures { (list.new ≡ written (each_answer entry_of recording.now) list.old) × (messages.new ≡ written (each_answer message_in recording.now) messages.old) }
{
    let mut room = [0u8; 438];
    let mut n = 0;
    let mut k = 0;
    let mut i = part_end(recording, 0);
    while i < recording.len() {
        let part = answer_part(recording, i, &mut room);
        let answer = part.answer;
        let size = collecting::message_length(answer);
        n = put_entry(list, n, answer);
        k = put_message(messages, k, &room[..size]);
        i = part.end;
    }
}

// Reads a recording: an entry of three numbers for each answer goes to the list, and the messages to `messages`, with nothing
// between them; how many entries. 9 for fewer places than entries, or fewer bytes than the messages have.
pub fn read_recording(
    recording: &[u8],
    list: &mut [usize],
    messages: &mut [u8],
) -> Result<usize, Refusal>
    ensures { ReadRecording recording.now list.old messages.old result list.new messages.new }
{
    // first what is needed: with 9 nothing may be written
    let needed = measure(recording);
    if (list.len() / 3 < needed.entries) | (messages.len() < needed.bytes) {
        return Err(Refusal::NoRoom);
    }
    write(recording, list, messages);
    Ok(needed.entries)
}

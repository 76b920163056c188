// Collecting frames from a byte stream (001 §2.2.1; RULES 'Collecting').
#![tactic(auto)]

ghost use Rattle.std.specs.Prelude.{◌≡◌, ◌==◌, ◌++◌, ◌+◌, ◌-◌, ◌*◌, ◌≤◌, ◌<◌, length, take, replicate};
ghost use Rattle.std.specs.List.{position as first_place};
ghost use Rattle.fcs.specs.Fcs.{fcs};
ghost use Rattle.refusals.specs.declared.Refusal.TheVariants.{BadField};
ghost use Rattle.collecting.specs.declared.Phase.TheVariants.{Open};
ghost use Rattle.collecting.specs.Step.{PhaseOf, held, state_in, cleared, fresh, collected, unescaped, inside, checked, closed, over, taken, next, shown, stepped, left};
ghost use Rattle.collecting.specs.Stream.{after, is_answered, answer_number, message_length, position, run, fed, unflagged};
ghost use Rattle.collecting.specs.Stretch.{Within, Passed, Leads};

use refusals::Refusal;

// Each with the number that it has for C.
#[derive(Clone, Copy, Debug, PartialEq, Eq, Hash)]
pub enum Phase {
    // before the first flag
    LeadIn = 0,
    // between flags
    Open = 1,
    // 0x7D was the last byte
    Escape = 2,
    // answer 1 is met
    BadEscape = 3,
    // answer 3 is met
    TooLong = 4,
}

// A number over 4 is no phase's.
#[derive(Clone, Copy, Debug, PartialEq, Eq, Hash)]
pub struct UnknownPhase(pub u8);

impl TryFrom<u8> for Phase {
    type Error = UnknownPhase;

    ghost try_from_gives = { PhaseOf };

    fn try_from(n: u8) -> Result<Self, UnknownPhase> {
        match n {
            0 => Ok(Phase::LeadIn),
            1 => Ok(Phase::Open),
            2 => Ok(Phase::Escape),
            3 => Ok(Phase::BadEscape),
            4 => Ok(Phase::TooLong),
            _ => Err(UnknownPhase(n)),
        }
    }
}

// Refused with 8, as a mark's unknown number is.
impl From<UnknownPhase> for Refusal {
    ghost from_gives = { λ phase refusal. refusal ≡ BadField };

    fn from(_: UnknownPhase) -> Refusal {
        Refusal::BadField
    }
}

// What is kept from one byte to the next, beside the room.
#[derive(Clone, Copy, Debug, PartialEq, Eq, Hash)]
pub struct Control {
    // bytes collected
    pub count: usize,
    // stuffed bytes taken since the opening flag; it stands still once answer 1 or 3 is met
    pub stuffed: usize,
    pub phase: Phase,
}

// As an Option<Result<usize, _>> its cases would read `Some(Ok(k))` and `Some(Err((n, at)))`, and say less. The number is a u8, since a
// tally takes every answer that a caller makes up (`tallying::raise`), and a narrower type would ask more of callers.
#[derive(Clone, Copy, Debug, PartialEq, Eq, Hash)]
pub enum Answer {
    // none yet
    None,
    // 0, with a message of so many bytes
    Accepted(usize),
    // the number, 1 to 5, and the position: the stuffed bytes of the frame up to where it broke
    Refused(u8, usize),
}

// `Stepped`, `Fed` and `Filled` differ in what they say, not in a type: one struct for the three would have fields without meaning.
#[derive(Clone, Copy, Debug, PartialEq, Eq, Hash)]
pub struct Stepped {
    pub control: Control,
    pub answer: Answer,
}

impl Control {
    // Before the first byte; the room beside it is zero.
    pub fn fresh() -> Self
        ensures { result ≡ fresh.control }
    {
        Self {
            count: 0,
            stuffed: 0,
            phase: Phase::LeadIn,
        }
    }
}

// One byte. The room is the state's, and zero at the start; the message is written with answer 0 only.
pub fn step(control: Control, room: &mut [u8; 438], message: &mut [u8; 436], byte: u8) -> Stepped
    ensures { left result room.new message.new ≡ stepped (held control room.old) message.old byte }
{
    // a count over 438, or over 878 stuffed bytes, is taken as the fresh state
    if is_over(control) {
        return Stepped {
            control: restarted(byte, room),
            answer: Answer::None,
        };
    }
    // every flag closes one frame and opens the next
    if byte == 0x7E {
        let answer = close(control, room, message);
        let open = clear(Phase::Open, 0, room);
        return Stepped {
            control: open,
            answer,
        };
    }
    let control = inside_frame(control, room, byte);
    Stepped {
        control,
        answer: Answer::None,
    }
}

// More than any stream leads to. What this test shows is a `requires` of four private functions: a struct with it as an invariant is
// no plainer, as a byte may lead over it (879 stuffed ones), so that each of them would hand out a plain control again.
fn is_over(control: Control) -> bool
    ensures { result ≡ over control }
{
    (438 < control.count) | (878 < control.stuffed)
}

// A byte from the fresh state.
fn restarted(first: u8, room: &mut [u8; 438]) -> Control
    ensures { held result room.new ≡ next fresh first }
{
    if first == 0x7E {
        return clear(Phase::Open, 0, room);
    }
    clear(Phase::LeadIn, 0, room)
}

// Nothing collected, and the room zero.
fn clear(phase: Phase, stuffed: usize, room: &mut [u8; 438]) -> Control
    ensures { held result room.new ≡ cleared phase stuffed }
{
    *room = [0u8; 438];
    Control {
        count: 0,
        stuffed,
        phase,
    }
}

// A flag.
fn close(control: Control, room: &[u8; 438], message: &mut [u8; 436]) -> Answer
    requires { control.count ≤ 438 }
    ensures { (result ≡ closed control.phase control.count control.stuffed room.now) × (message.new ≡ shown result room.now message.old) }
{
    let at = control.stuffed;
    match control.phase {
        Phase::LeadIn => Answer::None,
        Phase::Open => {
            let n = control.count;
            if n == 0 {
                return Answer::None;
            }
            if n < 3 {
                return Answer::Refused(4, at);
            }
            check(n - 2, at, room, message)
        }
        Phase::Escape => Answer::Refused(2, at),
        Phase::BadEscape => Answer::Refused(1, at),
        Phase::TooLong => Answer::Refused(3, at),
    }
}

// k bytes of a message, and behind them its check sequence, low byte first.
fn check(k: usize, at: usize, room: &[u8; 438], message: &mut [u8; 436]) -> Answer
    requires { k ≤ 436 }
    ensures { (result ≡ checked k at room.now) × (message.new ≡ shown result room.now message.old) }
{
    let sent = word(room[k + 1], room[k]);
    if sequence_of(room, k) == sent {
        show(room, k, message);
        return Answer::Accepted(k);
    }
    Answer::Refused(5, at)
}

fn sequence_of(bytes: &[u8], k: usize) -> u16
    requires { k ≤ length bytes.now }
    ensures { result ≡ fcs (take k bytes.now) }
{
    fcs::check_sequence(&bytes[..k])
}

// The number of two bytes.
pub fn word(high: u8, low: u8) -> u16
    ensures { result ≡ 256 * high + low }
{
    u16::from_be_bytes([high, low])
}

// The first k bytes, and zeros behind them. By `copy_from_slice` and `fill`, which is plainer, a stream of escaped messages took 3 in 100
// longer (5.76 ns a byte, then 5.97), which misses the bar.
fn show(bytes: &[u8], k: usize, message: &mut [u8; 436])
    requires { (k ≤ length bytes.now) × (k ≤ 436) }
    ensures { message.new ≡ take k bytes.now ++ replicate (436 - k) 0 }
{
    *message = [0u8; 436];
    let mut i = 0;
    while i < k {
        message[i] = bytes[i];
        i += 1;
    }
}

// A byte that is no flag. `collect` and `after_escape` take n and `at`: tried with a Control in their place, also with `..control`
// here, a stream of flags took a ninth longer (8.2 ns a byte, then 9.1), which misses the bar.
fn inside_frame(control: Control, room: &mut [u8; 438], byte: u8) -> Control
    requires { control.stuffed ≤ 878 }
    ensures { held result room.new ≡ inside control.phase (held control room.old) byte }
{
    let n = control.count;
    let at = control.stuffed;
    let phase = control.phase;
    match phase {
        Phase::Open => {
            if byte == 0x7D {
                Control {
                    count: n,
                    stuffed: at + 1,
                    phase: Phase::Escape,
                }
            } else {
                collect(n, at + 1, room, byte)
            }
        }
        Phase::Escape => after_escape(n, at + 1, room, byte),
        _ => control,
    }
}

// A byte that is no flag, behind 0x7D, with which `at` stuffed bytes are taken.
fn after_escape(n: usize, at: usize, room: &mut [u8; 438], byte: u8) -> Control
    ensures { held result room.new ≡ unescaped n at room.old byte }
{
    if (byte == 0x5D) | (byte == 0x5E) {
        return collect(n, at, room, byte ^ 0x20);
    }
    clear(Phase::BadEscape, at, room)
}

// One collected byte more, behind n others, with which `at` stuffed bytes are taken.
fn collect(n: usize, at: usize, room: &mut [u8; 438], byte: u8) -> Control
    ensures { held result room.new ≡ collected n at room.old byte }
{
    if n < 438 {
        room[n] = byte;
        return Control {
            count: n + 1,
            stuffed: at,
            phase: Phase::Open,
        };
    }
    clear(Phase::TooLong, at, room)
}

#[derive(Clone, Copy, Debug, PartialEq, Eq, Hash)]
pub struct Fed {
    pub control: Control,
    // how many bytes were taken
    pub taken: usize,
    pub answer: Answer,
}

// The bytes one after the other, until one is answered or there are no more.
pub fn feed(control: Control, room: &mut [u8; 438], message: &mut [u8; 436], bytes: &[u8]) -> Fed
    ensures { fed result room.new message.new ≡ run (held control room.old) message.old bytes.now }
{
    let mut c = control;
    let mut i = 0;
    // no `for`, as a turn takes all bytes up to a flag
    while i < bytes.len() {
        let f = through_flag(c, room, message, &bytes[i..]);
        i += f.taken;
        c = f.control;
        let answer = f.answer;
        if is_answered(answer) {
            return Fed {
                control: c,
                taken: i,
                answer,
            };
        }
    }
    Fed {
        control: c,
        taken: i,
        answer: Answer::None,
    }
}

// The bytes before the first flag at once, then the flag; all where there is none.
fn through_flag(
    control: Control,
    room: &mut [u8; 438],
    message: &mut [u8; 436],
    bytes: &[u8],
) -> Fed
    requires { 1 ≤ length bytes.now }
    ensures le_taken { 1 ≤ result.taken }
    ensures leads { Leads (held control room.old) message.old bytes.now (fed result room.new message.new) }
{
    let filled = fill(control, room, bytes);
    let n = filled.taken;
    let control = filled.control;
    if n < bytes.len() {
        let s = step(control, room, message, bytes[n]);
        return Fed {
            control: s.control,
            taken: n + 1,
            answer: s.answer,
        };
    }
    Fed {
        control,
        taken: n,
        answer: Answer::None,
    }
}

#[derive(Clone, Copy, Debug, PartialEq, Eq, Hash)]
pub struct Filled {
    pub control: Control,
    // how many bytes were taken
    pub taken: usize,
}

// The bytes before the first flag, or all where there is none, stretch after stretch: none of them is
// answered. With no byte to take the state is handed back as it came.
pub fn fill(control: Control, room: &mut [u8; 438], bytes: &[u8]) -> Filled
    ensures taken_value { result.taken ≡ unflagged bytes.now }
    ensures room_after { held result.control room.new ≡ after (held control room.old) (take result.taken bytes.now) }
{
    let mut c = control;
    let mut n = 0;
    // no `for`, as a turn takes a stretch
    while n < bytes.len() {
        if bytes[n] == 0x7E {
            return Filled {
                control: c,
                taken: n,
            };
        }
        let s = through_stretch(c, room, &bytes[n..]);
        n += s.taken;
        c = s.control;
    }
    Filled {
        control: c,
        taken: n,
    }
}

// A stretch, then the byte that ends it, unless it is a flag.
fn through_stretch(control: Control, room: &mut [u8; 438], bytes: &[u8]) -> Filled
    requires { 1 ≤ unflagged bytes.now }
    ensures passed { Passed (held control room.old) bytes.now result.taken (held result.control room.new) }
    ensures le_taken { 1 ≤ result.taken }
{
    let usable = within(control, room);
    let s = stretch(usable, room, bytes);
    let k = s.taken;
    let c = s.control;
    if k < bytes.len() {
        let b = bytes[k];
        if b != 0x7E {
            return Filled {
                control: inside_frame(c, room, b),
                taken: k + 1,
            };
        }
    }
    s
}

// A state that is over is taken as the fresh one.
fn within(control: Control, room: &mut [u8; 438]) -> Control
    ensures { held result room.new ≡ taken (held control room.old) }
{
    if is_over(control) {
        return clear(Phase::LeadIn, 0, room);
    }
    control
}

// The bytes that the phase takes at once: plain ones between flags, and all up to a flag where nothing else counts.
fn stretch(control: Control, room: &mut [u8; 438], bytes: &[u8]) -> Filled
    requires { Within control }
    ensures within { Within result.control }
    ensures passed { Passed (held control room.old) bytes.now result.taken (held result.control room.new) }
{
    match control.phase {
        Phase::Open => {
            let k = plain(control, room, bytes);
            Filled {
                control: Control {
                    count: control.count + k,
                    stuffed: control.stuffed + k,
                    phase: Phase::Open,
                },
                taken: k,
            }
        }
        Phase::Escape => Filled { control, taken: 0 },
        _ => Filled {
            control,
            taken: before_flag(bytes),
        },
    }
}

// How many bytes stand before the first flag: all where there is none.
pub fn before_flag(bytes: &[u8]) -> usize
    ensures { result ≡ unflagged bytes.now }
{
    first_flag(bytes).unwrap_or(bytes.len())
}

// Where the first flag stands.
fn first_flag(bytes: &[u8]) -> Option<usize>
    ensures { result ≡ first_place (λ b. b == 0x7E) bytes.now }
{
    bytes.iter().position(|byte| *byte == 0x7E)
}

// The bytes that are neither flag nor escape, as many as stand in a row and have room, up to 878 stuffed ones: how many.
fn plain(control: Control, room: &mut [u8; 438], bytes: &[u8]) -> usize
    requires { Within control }
    ensures result_bound { (control.count + result ≤ 438) × (control.stuffed + result ≤ 878) }
    ensures passed { Passed (state_in Open control.count control.stuffed room.old) bytes.now result (state_in Open (control.count + result) (control.stuffed + result) room.new) }
{
    let n = control.count;
    let end = (438 - n).min(878 - control.stuffed).min(bytes.len());
    // counted and copied by `copy_from_slice`, which goes through them twice, a recording took a tenth longer
    for (i, byte) in bytes[..end].iter().enumerate() {
        if *byte == 0x7D || *byte == 0x7E {
            return i;
        }
        room[n + i] = *byte;
    }
    end
}

pub fn is_answered(answer: Answer) -> bool
    ensures { result ≡ is_answered answer }
{
    !matches!(answer, Answer::None)
}

// The number, the message's length and the position of an answer, 0 where there is none.
pub fn answer_number(answer: Answer) -> u8
    ensures { result ≡ answer_number answer }
{
    match answer {
        Answer::Refused(n, _) => n,
        _ => 0,
    }
}

pub fn message_length(answer: Answer) -> usize
    ensures { result ≡ message_length answer }
{
    match answer {
        Answer::Accepted(k) => k,
        _ => 0,
    }
}

pub fn position(answer: Answer) -> usize
    ensures { result ≡ position answer }
{
    match answer {
        Answer::Refused(_, at) => at,
        _ => 0,
    }
}

// The whole state by value, for readers and simple callers: each step copies it.
#[derive(Clone, Copy)]
pub struct Collector {
    pub control: Control,
    pub room: [u8; 438],
}

#[derive(Clone, Copy)]
pub struct Collected {
    pub state: Collector,
    pub answer: Answer,
    // with answer 0 the message and zeros behind it, else zeros
    pub message: [u8; 436],
}

impl Collector {
    pub fn fresh() -> Self
        ensures { result ≡ fresh }
    {
        Self {
            control: Control::fresh(),
            room: [0u8; 438],
        }
    }

    pub fn step(self, byte: u8) -> Collected
        ensures { result ≡ stepped self (replicate 436 0) byte }
    {
        let mut room = self.room;
        let mut message = [0u8; 436];
        let s = step(self.control, &mut room, &mut message, byte);
        Collected {
            state: Collector {
                control: s.control,
                room,
            },
            answer: s.answer,
            message,
        }
    }
}

// Lists the information frames of uplink payloads, and adds frames to them. A record of the input is a
// letter, a size, two bytes, high byte first, and that many bytes: P, a payload; M, a message; A, a type
// and data, which are added to the payload that was given last, also in a message; L, no bytes: that
// payload as it is now. One that is not of 432 bytes is cut to them or filled with zeros before frames are
// added, and a refused message leaves zeros.
// Of P, M and L it prints the number and, where it is 0, the list's count and end, and of each frame type,
// reserved bits, length and the first two bytes of the data, in which the product id is (001 §5); then what
// the number behind the last is answered. Of M also what reading each frame's text answers, the number and,
// where it is 0, hours, minutes, padding, length and the check sequence of the room. Of A it prints the number and the check sequence of the payload
// that is left. The records and the text that is stored beside this program come from rust/reference. A write that
// fails is passed over.
#![tactic(auto)]

use information_frames::{Frame, FrameList};
use printing::{Hex, Records};
use refusals::Refusal;

// The number, behind a blank.
fn print_refusal(rt: &impl Print, refusal: Refusal) {
    let _ = print!(rt; " {}", refusal.number());
}

fn print_frame(rt: &impl Print, found: Result<Frame, Refusal>, data: &[u8]) {
    match found {
        Ok(f) => {
            let product = Hex(&data[..data.len().min(2)]);
            let _ = print!(rt; " {} {} {} {product}", f.kind, f.reserved, f.length);
        }
        Err(refusal) => print_refusal(rt, refusal),
    }
}

// A list, and what each of its numbers and the one behind the last is answered.
fn print_list<F: Fn(usize)>(rt: &impl Print, list: Result<FrameList, Refusal>, print_nth: F)
    requires { F.IsAlwaysCallable print_nth }
{
    let _ = print!(rt; "list");
    match list {
        Ok(FrameList { count, end }) => {
            let _ = print!(rt; " 0 {count} {end}");
            for n in 0..=count {
                print_nth(n);
            }
        }
        Err(refusal) => print_refusal(rt, refusal),
    }
    let _ = println!(rt; "");
}

fn print_payload(rt: &impl Print, payload: &[u8]) {
    print_list(rt, information_frames::list(payload), |n| {
        print_frame(
            rt,
            information_frames::nth(payload, n),
            information_frames::data(payload, n),
        )
    });
}

// The same of a message, by its own functions, and the texts.
fn print_message(rt: &impl Print, message: &[u8]) {
    print_list(rt, uplink_frames::list(message), |n| {
        print_frame(
            rt,
            uplink_frames::nth(message, n),
            uplink_frames::data(message, n),
        );
        print_text(rt, message, n);
    });
}

fn print_text(rt: &impl Print, message: &[u8], n: usize) {
    let mut out = [0u8; 1024];
    match uplink_text::read(message, n, &mut out) {
        Ok(text) => {
            let sequence = fcs::check_sequence(&out);
            let _ = print!(rt; " 0 {} {} {}", text.hours, text.minutes, text.padding);
            let _ = print!(rt; " {} {sequence:04x}", text.length);
        }
        Err(refusal) => print_refusal(rt, refusal),
    }
}

fn print_added(rt: &impl Print, payload: &mut [u8; 432], kind: u8, bytes: &[u8]) {
    let number = match information_frames::add(payload, kind, bytes) {
        Ok(()) => 0,
        Err(refusal) => refusal.number(),
    };
    let sequence = fcs::check_sequence(payload);
    let _ = println!(rt; "add {number} {sequence:04x}");
}

// Frames are added to the first 432 of these bytes, with zeros behind them where they are fewer.
fn kept(bytes: &[u8]) -> [u8; 432] {
    let mut payload = [0u8; 432];
    let n = bytes.len().min(432);
    payload[..n].copy_from_slice(&bytes[..n]);
    payload
}

fn answer(rt: &impl Print, letter: u8, part: &[u8], payload: &mut [u8; 432]) {
    match (letter, part) {
        (b'A', [kind, bytes @ ..]) => print_added(rt, payload, *kind, bytes),
        (b'L', _) => print_payload(rt, payload),
        (b'M', message) => {
            print_message(rt, message);
            *payload = kept(uplink::payload(message));
        }
        (_, given) => {
            print_payload(rt, given);
            *payload = kept(given);
        }
    }
}

// Up to a record that is cut short.
fn answer_records(rt: &(impl Print + Eprint), input: &[u8]) {
    let mut payload = [0u8; 432];
    for record in (Records::<3, 1> { rest: input }) {
        let Ok(record) = record else {
            let _ = eprintln!(rt; "a record is cut short");
            return;
        };
        let [letter, _, _] = *record.header;
        answer(rt, letter, record.body, &mut payload);
    }
}

fn main(rt: HostRuntime) {
    let mut input = [0u8; 200000];
    let n = printing::read_full(&mut rt.stdin(), &mut input);
    answer_records(&rt, &input[..n]);
}

// Frames each message of standard input, and prints the answer and the whole lent output behind it.
// A record of the input is the message's length and the output's, two bytes each, high byte first,
// and then the message. The output is full of 0xAA before. The records and the text that is stored
// beside this program come from rust/reference. A write that fails is passed over.
#![tactic(auto)]

ghost use Rattle.std.specs.Prelude.{◌≤◌};

use printing::{Hex, Records};

fn print_answer(rt: &impl Print, number: u8, size: usize, out: &[u8]) {
    let bytes = Hex(out);
    let none = if out.is_empty() { "-" } else { "" };
    let _ = println!(rt; "{number} {size} {none}{bytes}");
}

fn frame_message(rt: &impl Print, message: &[u8], out: &mut [u8]) {
    match framing::frame(message, out) {
        Ok(n) => print_answer(rt, 0, n, out),
        Err(refusal) => print_answer(rt, refusal.number(), 0, out),
    }
}

fn frame_in_room(rt: &impl Print, message: &[u8], room: usize)
    requires { room ≤ 1024 }
{
    let mut out = [0xAAu8; 1024];
    frame_message(rt, message, &mut out[..room]);
}

// Up to a record that cannot be framed.
fn frame_records(rt: &(impl Print + Eprint), input: &[u8]) {
    for record in (Records::<4, 0> { rest: input }) {
        let Ok(record) = record else {
            let _ = eprintln!(rt; "a message is cut short");
            return;
        };
        let [_, _, high, low] = *record.header;
        let room = usize::from(u16::from_be_bytes([high, low]));
        if 1024 < room {
            let _ = eprintln!(rt; "an output is over 1024 bytes");
            return;
        }
        frame_in_room(rt, record.body, room);
    }
}

fn main(rt: HostRuntime) {
    let mut input = [0u8; 65536];
    let n = printing::read_full(&mut rt.stdin(), &mut input);
    frame_records(&rt, &input[..n]);
}

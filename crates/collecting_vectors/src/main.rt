// Collects the recording on standard input, in one piece, byte by byte and in pieces of odd sizes, and
// prints each answer: where its closing flag stands, the number, and the message or the position. The recording and
// the text that is stored beside this program come from rust/reference. A write that fails is passed over.
#![tactic(auto)]

ghost use Rattle.std.specs.Prelude.{◌+◌, ◌≤◌, length};

use collecting::{Answer, Control};

fn print_answer(rt: &impl Print, at: usize, answer: Answer, message: &[u8; 436]) {
    match answer {
        Answer::None => {}
        Answer::Accepted(k) => {
            let _ = print!(rt; "{at} 0 ");
            printing::hex_bytes(rt, message, k);
            let _ = println!(rt; "");
        }
        Answer::Refused(n, position) => {
            let _ = println!(rt; "{at} {n} - {position}");
        }
    }
}

// What is kept from one piece of a recording to the next, and lent to collecting.
#[derive(Drop)]
struct Stream {
    control: Control,
    room: [u8; 438],
    message: [u8; 436],
}

impl Stream {
    fn start() -> Stream {
        Stream {
            control: Control::fresh(),
            room: [0; 438],
            message: [0; 436],
        }
    }

    // A piece of the recording, whose bytes start at `start` there.
    fn feed(&mut self, rt: &impl Print, start: usize, piece: &[u8])
        requires { start + length piece.now ≤ 65536 }
    {
        let mut rest = piece;
        // each call says how many bytes it took: no counted loop
        while !rest.is_empty() {
            let fed = collecting::feed(self.control, &mut self.room, &mut self.message, rest);
            self.control = fed.control;
            rest = &rest[fed.taken..];
            let at = start + (piece.len() - rest.len()) - 1;
            print_answer(rt, at, fed.answer, &self.message);
        }
    }
}

fn feed_in_pieces(rt: &impl Print, recording: &[u8], size: usize)
    requires { (1 ≤ size) × (length recording.now ≤ 65536) }
{
    let _ = println!(rt; "in pieces of {size}");
    let mut stream = Stream::start();
    for (k, piece) in recording.chunks(size).enumerate() {
        stream.feed(rt, k * size, piece);
    }
}

fn main(rt: HostRuntime) {
    let mut input = [0u8; 65536];
    let n = printing::read_full(&mut rt.stdin(), &mut input);
    feed_in_pieces(&rt, &input[..n], 65536);
    feed_in_pieces(&rt, &input[..n], 1);
    feed_in_pieces(&rt, &input[..n], 7);
    feed_in_pieces(&rt, &input[..n], 437);
}

// Reads each message of standard input and prints the number and, where it is 0, the kind, its fields and
// the bytes that writing them gives. A record of the input is the message's length, two bytes, high byte
// first, and then the message. The records and the text that is stored beside this program come from
// rust/reference. A write that fails is passed over.
#![tactic(auto)]

use message_types::{CallSign, Climb, GeometricAltitude, Heartbeat, Merit, Message, Report, Speed};
use printing::{Hex, Records};
use std::fmt;

// A value as the records' text has it: its fields with a blank between them, marks as words, a bit as 0 or 1.
#[derive(Clone, Copy)]
struct Text<T>(T);

// A field, or the word for its mark.
#[derive(Clone, Copy)]
struct OrNone<T>(Option<T>);

impl<T: fmt::Display> fmt::Display for OrNone<T> {
    fn fmt<W: fmt::Write>(&self, f: &mut fmt::Formatter<W>) -> fmt::Result {
        match &self.0 {
            Some(field) => write!(f, "{field}"),
            None => write!(f, "none"),
        }
    }
}

impl fmt::Display for Text<Message> {
    fn fmt<W: fmt::Write>(&self, f: &mut fmt::Formatter<W>) -> fmt::Result {
        match self.0 {
            Message::Heartbeat(x) => write!(f, "heartbeat {}", Text(x)),
            Message::Initialization(x) => write!(f, "initialization {} {}", x.first, x.second),
            Message::Uplink(x) => write!(f, "uplink {}", OrNone(x.reception)),
            Message::Height(x) => write!(
                f,
                "height {}",
                OrNone(x.height.map(|height| height.feet()))
            ),
            Message::Ownship(x) => write!(f, "ownship {}", Text(x.report)),
            Message::Geometric(x) => write!(f, "geometric {}", Text(x)),
            Message::Traffic(x) => write!(f, "traffic {}", Text(x.report)),
        }
    }
}

impl fmt::Display for Text<Heartbeat> {
    fn fmt<W: fmt::Write>(&self, f: &mut fmt::Formatter<W>) -> fmt::Result {
        let x = self.0;
        write!(
            f,
            "{} {} {} {} {} {}",
            x.status1, x.status2, x.time, x.uplinks, x.reserved, x.basic_and_long
        )
    }
}

impl fmt::Display for Text<GeometricAltitude> {
    fn fmt<W: fmt::Write>(&self, f: &mut fmt::Formatter<W>) -> fmt::Result {
        let x = self.0;
        let feet = x.altitude.feet();
        write!(f, "{feet} {} {}", Text(x.warning), Text(x.merit))
    }
}

impl fmt::Display for Text<bool> {
    fn fmt<W: fmt::Write>(&self, f: &mut fmt::Formatter<W>) -> fmt::Result {
        write!(f, "{}", u8::from(self.0))
    }
}

impl fmt::Display for Text<Merit> {
    fn fmt<W: fmt::Write>(&self, f: &mut fmt::Formatter<W>) -> fmt::Result {
        match self.0 {
            Merit::Metres(metres) => write!(f, "{metres}"),
            Merit::Over => write!(f, "over"),
            Merit::None => write!(f, "none"),
        }
    }
}

impl fmt::Display for Text<Report> {
    fn fmt<W: fmt::Write>(&self, f: &mut fmt::Formatter<W>) -> fmt::Result {
        let x = self.0;
        write!(f, "{} {} {} ", x.alert, x.address_type, x.address)?;
        let latitude = OrNone(x.position.map(|position| position.latitude));
        let longitude = OrNone(x.position.map(|position| position.longitude));
        let altitude = OrNone(x.altitude.map(|steps| steps.feet()));
        write!(f, "{latitude} {longitude} {altitude} ")?;
        write!(f, "{} {} ", x.track_kind as u8, Text(x.extrapolated))?;
        write!(f, "{} {} {} ", Text(x.airborne), x.integrity, x.accuracy)?;
        write!(f, "{} {} ", Text(x.speed), Text(x.climb))?;
        write!(f, "{} {} {} ", x.track, x.emitter, Text(x.call_sign))?;
        write!(f, "{} {}", x.priority, x.spare)
    }
}

impl fmt::Display for Text<Speed> {
    fn fmt<W: fmt::Write>(&self, f: &mut fmt::Formatter<W>) -> fmt::Result {
        match self.0 {
            Speed::Knots(knots) => write!(f, "{knots}"),
            Speed::Over => write!(f, "over"),
            Speed::None => write!(f, "none"),
        }
    }
}

impl fmt::Display for Text<Climb> {
    fn fmt<W: fmt::Write>(&self, f: &mut fmt::Formatter<W>) -> fmt::Result {
        match self.0 {
            Climb::Steps(steps) => write!(f, "{steps}"),
            Climb::Above => write!(f, "above"),
            Climb::Below => write!(f, "below"),
            Climb::None => write!(f, "none"),
        }
    }
}

impl fmt::Display for Text<CallSign> {
    fn fmt<W: fmt::Write>(&self, f: &mut fmt::Formatter<W>) -> fmt::Result {
        let CallSign(a, b, c, d, e, g, h, i) = self.0;
        write!(f, "{}", Hex(&[a, b, c, d, e, g, h, i]))
    }
}

// What writing gives.
fn print_written(rt: &impl Print, message: Message, payload: &[u8]) {
    let mut out = [0u8; 436];
    match messages::write(message, payload, &mut out) {
        Ok(n) => {
            printing::hex_bytes(rt, &out, n);
        }
        Err(refusal) => {
            let _ = print!(rt; "refused {}", refusal.number());
        }
    }
}

fn print_read(rt: &impl Print, part: &[u8]) {
    match messages::read(part) {
        Ok(message) => {
            let _ = print!(rt; "0 {} ", Text(message));
            print_written(rt, message, uplink::payload(part));
        }
        Err(refusal) => {
            let _ = print!(rt; "{}", refusal.number());
        }
    }
    let _ = println!(rt; "");
}

// Up to a record that is cut short.
fn read_records(rt: &(impl Print + Eprint), input: &[u8]) {
    for record in (Records::<2, 0> { rest: input }) {
        let Ok(record) = record else {
            let _ = eprintln!(rt; "a message is cut short");
            return;
        };
        print_read(rt, record.body);
    }
}

fn main(rt: HostRuntime) {
    let mut input = [0u8; 65536];
    let n = printing::read_full(&mut rt.stdin(), &mut input);
    read_records(&rt, &input[..n]);
}

// Lists the frames of standard input on standard output (RULES 'Listing', 'Notes').
#![tactic(auto)]

use listing::Lister;
use std::io::{Error, ErrorKind, Read};
use std::process::ExitCode;

// The status where nobody reads the output any more: what a shell has for a program that ends by SIGPIPE. `gdl90-list` reads it.
const OUTPUT_CLOSED: u8 = 141;

// How far the input went.
#[derive(Clone, Copy, PartialEq, Eq)]
enum Input {
    More,
    // to its end, or to the limit
    Ended,
    ReadFailed,
}

// Why a write failed: what is left is not listed.
#[derive(Clone, Copy, PartialEq, Eq, Drop)]
enum WriteError {
    Failed,
    // nobody reads the output any more
    OutputClosed,
}

impl From<Error> for WriteError {
    fn from(error: Error) -> WriteError {
        match error.kind() {
            ErrorKind::BrokenPipe => WriteError::OutputClosed,
            _ => WriteError::Failed,
        }
    }
}

// What is kept from one read to the next.
#[derive(Drop)]
struct Run {
    lister: Lister,
    room: [u8; 438],
    // how the input begins, as `captures::begun` has it
    begun: u64,
}

fn main(rt: HostRuntime) -> ExitCode {
    match list(&rt, &mut rt.stdin()) {
        // of all that can go wrong, only an output that is closed shows here: the rest is a word on standard error
        Err(error) => {
            note(&rt, "lister: cannot write to standard output");
            match error {
                WriteError::OutputClosed => ExitCode::from(OUTPUT_CLOSED),
                WriteError::Failed => ExitCode::SUCCESS,
            }
        }
        Ok(()) => ExitCode::SUCCESS,
    }
}

fn list(rt: &(impl Print + Eprint), input: &mut impl Read) -> Result<(), WriteError> {
    rt.write_all(&listing::heading())?;
    let mut run = Run::start();
    let end = run.list_all(rt, input)?;
    run.finish(rt, end)
}

impl Run {
    fn start() -> Run {
        let mut room = [0u8; 438];
        let lister = listing::start(&mut room);
        Run {
            lister,
            room,
            begun: captures::start(),
        }
    }

    // Reads until the input ends or the limit is reached: each turn but the last takes a byte or more.
    fn list_all(
        &mut self,
        rt: &(impl Print + Eprint),
        input: &mut impl Read,
    ) -> Result<Input, WriteError> {
        for _ in 0..listing::LIMIT {
            let reached = self.list_some(rt, input)?;
            if reached != Input::More {
                return Ok(reached);
            }
        }
        Ok(Input::Ended)
    }

    // Reads once, and lists what came.
    fn list_some(
        &mut self,
        rt: &(impl Print + Eprint),
        input: &mut impl Read,
    ) -> Result<Input, WriteError> {
        let mut buffer = [0u8; 65536];
        let Ok(n) = input.read(&mut buffer) else {
            return Ok(Input::ReadFailed);
        };
        if n == 0 {
            return Ok(Input::Ended);
        }
        let begun = captures::begun(self.begun, &buffer[..n]);
        // once, when the bytes that came make it a capture
        if captures::is_capture(begun) && !captures::is_capture(self.begun) {
            note_capture(rt);
        }
        self.begun = begun;
        self.list_bytes(rt, &buffer[..n])
    }

    // Lists a stretch of the input, and writes its text as often as the room for it is full.
    fn list_bytes(&mut self, rt: &impl Print, bytes: &[u8]) -> Result<Input, WriteError> {
        let mut space = [0u8; 4096];
        let out: &mut [u8] = &mut space;
        let mut rest = bytes;
        // each call says how many bytes it took: no counted loop
        while !rest.is_empty() {
            let processed = listing::process(self.lister, &mut self.room, rest, out);
            self.lister = processed.lister;
            rt.write_all(&out[..processed.written])?;
            if processed.taken == 0 {
                return Ok(Input::Ended);
            }
            rest = &rest[processed.taken..];
        }
        Ok(Input::More)
    }

    // The last line, and a note where the whole input is no recording. After a read that failed the line stands for what was
    // read, and there is no note.
    fn finish(&self, rt: &(impl Print + Eprint), end: Input) -> Result<(), WriteError> {
        if end == Input::ReadFailed {
            note(rt, "lister: cannot read standard input");
        }
        let mut ending = [0u8; 26];
        let n = listing::finish(self.lister, &mut ending);
        rt.write_all(&ending[..n])?;
        if end == Input::Ended {
            self.note_no_frame(rt);
        }
        Ok(())
    }

    // The first note that holds is enough: a capture has had its own.
    fn note_no_frame(&self, rt: &impl Eprint) {
        if listing::has_flag(self.lister) || captures::is_capture(self.begun) {
            return;
        }
        if self.lister.taken == 0 {
            note(rt, "note: the input is empty: was anything recorded?");
            return;
        }
        note(
            rt,
            "note: the input has no flag (0x7E), so no frame: is it what the receiver sends, byte by byte?",
        );
        note(
            rt,
            "note: text of hexadecimal digits becomes bytes by: xxd -r -p TEXT > recording.gdl90",
        );
    }
}

fn note_capture(rt: &impl Eprint) {
    note(
        rt,
        "note: the input begins as a packet capture does (pcap, pcapng): its own headers are listed as faults",
    );
    note(
        rt,
        "note: this takes the receiver's bytes out of it, if they were sent to port 4000 as is usual:",
    );
    note(
        rt,
        "note: tshark -r CAPTURE -Y 'udp.dstport == 4000' -T fields -e udp.payload | xxd -r -p > recording.gdl90",
    );
}

// A line on standard error. Where that cannot be written, there is nobody to tell.
fn note(rt: &impl Eprint, line: &str) {
    let _ = rt.eprintln(line);
}

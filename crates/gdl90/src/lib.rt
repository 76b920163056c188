// The library's functions for C, and for Rust by way of C: thin, and with the library's own promises. crates/gdl90_c exports them.
// The structs are those of the C interface, each with its name in include/gdl90.h: a number for a refusal, and values, 0 beside it.
#![tactic(auto)]

ghost use Rattle.std.specs.Prelude.{◌≡◌, length, Err};
ghost use Rattle.numbers.specs.Lent.{written};
ghost use Rattle.fcs.specs.Fcs.{fcs};
ghost use Rattle.framing.specs.Framing.{framing, framed_output};
ghost use Rattle.tallying.specs.Tally.{tallied};
ghost use Rattle.heartbeat.specs.Heartbeat.{read_heartbeat};
ghost use Rattle.initialization.specs.Initialization.{read_initialization};
ghost use Rattle.uplink.specs.Uplink.{read_uplink};
ghost use Rattle.altitudes.specs.Height.{read_height};
ghost use Rattle.altitudes.specs.Geometric.{read_geometric};
ghost use Rattle.c_structs.specs.Answers.{heartbeat_answer, initialization_answer, uplink_answer, height_answer, geometric_answer};
ghost use Rattle.c_report.specs.Answers.{report_answer};
ghost use Rattle.report.specs.Reading.{report_read, ownship_read, traffic_read};
ghost use Rattle.gdl90.specs.Messages.{kind_answer, write_answer};
ghost use Rattle.gdl90.specs.Messages.{WritesHeartbeat, WritesInitialization, WritesUplink, WritesHeight, WritesReport, WritesOwnship, WritesGeometric, WritesTraffic};
ghost use Rattle.messages.specs.Message.{kind_number};
ghost use Rattle.information_frames.specs.Walk.{payload_frames};
ghost use Rattle.information_frames.specs.Answers.{frame_list, nth_frame};
ghost use Rattle.information_frames.specs.Adding.{adding, payload_after};
ghost use Rattle.gdl90.specs.Collecting.{frame_answer, control_of, feed_answer, feeding, Feeds, answer_in, recording_answer, ReadsRecording};
ghost use Rattle.units.specs.Degrees.{in_degrees};
ghost use Rattle.units.specs.Feet.{pressure_feet, geometric_feet, terrain_feet};
ghost use Rattle.gdl90.specs.Payload.{payload_list_answer, payload_nth_answer};
ghost use Rattle.generic_text.specs.Product.{text_with};
ghost use Rattle.gdl90.specs.Texts.{text_answer, ReadsText, WritesText};
ghost use Rattle.gdl90.specs.Degrees.{degrees_answer, ExactAnswer};
ghost use Rattle.refusals.specs.Numbers.{number_in};

use c_report::{FlatReport, FlatReportRead};
use c_structs::{
    FlatGeometric, FlatGeometricRead, FlatHeight, FlatHeightRead, FlatUplink, FlatUplinkRead,
    HeartbeatRead, InitializationRead,
};
use collecting::{Answer, Control, Fed, Phase};
use generic_text::Text;
use information_frames::FrameList;
use message_types::{Heartbeat, Initialization, Ownship, Traffic};
use messages::Kind;
use refusals::Refusal;
use tallying::Tally;
use units::{GeometricSteps, PressureSteps, TerrainFeet};

// 001 Table 9.
const LAST_TRACK_KIND: u8 = 3;

// `fcs::check_sequence`.
pub fn gdl90_check_sequence(message: &[u8]) -> u16
    ensures { result ≡ fcs message.now }
{
    fcs::check_sequence(message)
}

// The number, and how many bytes were written, 0 with a refusal.
#[repr(C)]
#[derive(Clone, Copy)]
pub struct FrameAnswer {
    pub number: u8,
    pub length: usize,
}

// `framing::frame`.
pub fn gdl90_frame(message: &[u8], out: &mut [u8]) -> FrameAnswer
    ensures answer { result ≡ frame_answer (framing message.now (length out.old)) }
    ensures output { out.new ≡ written (framed_output (framing message.now (length out.old)) message.now) out.old }
{
    framing::frame(message, out).into()
}

impl From<Result<usize, Refusal>> for FrameAnswer {
    ghost from_gives = { λ framed answer. answer ≡ frame_answer framed };

    fn from(framed: Result<usize, Refusal>) -> FrameAnswer {
        match framed {
            Ok(length) => FrameAnswer { number: 0, length },
            Err(refusal) => {
                let number = refusal.number();
                FrameAnswer { number, length: 0 }
            }
        }
    }
}

// What collecting keeps between two calls, beside the room: all zero is the fresh state.
#[repr(C)]
#[derive(Clone, Copy)]
pub struct FeedControl {
    // bytes in the room
    pub count: usize,
    // stuffed bytes taken since the opening flag
    pub stuffed: usize,
    // 0 before the first flag, 1 between flags, 2 behind 0x7D, 3 and 4 once answer 1 and 3 are met
    pub phase: u8,
}

#[repr(C)]
#[derive(Clone, Copy)]
pub struct FeedAnswer {
    pub control: FeedControl,
    // how many bytes were taken
    pub taken: usize,
    pub answered: bool,
    // the number, where answered
    pub number: u8,
    // the message's, with number 0
    pub length: usize,
    // where the frame broke, with number 1 to 5
    pub position: usize,
}

// `collecting::feed`.
pub fn gdl90_feed(
    control: FeedControl,
    room: &mut [u8; 438],
    message: &mut [u8; 436],
    bytes: &[u8],
) -> FeedAnswer
    ensures { Feeds (feeding control room.old message.old bytes.now) result room.new message.new }
{
    let fed = collecting::feed(control_of(control), room, message, bytes);
    feed_answer(fed)
}

// The same with a tally lent: the answer, where there is one, is counted.
pub fn gdl90_feed_tallied(
    control: FeedControl,
    room: &mut [u8; 438],
    message: &mut [u8; 436],
    bytes: &[u8],
    tally: &mut Tally,
) -> FeedAnswer
    ensures { Feeds (feeding control room.old message.old bytes.now) result room.new message.new
        × (tally.new ≡ tallied tally.old (feeding control room.old message.old bytes.now).last.answer) }
{
    let fed = gdl90_feed(control, room, message, bytes);
    let answer = answer_in(fed);
    tallying::raise(tally, answer);
    fed
}

fn answer_in(fed: FeedAnswer) -> Answer
    ensures { result ≡ answer_in fed }
{
    if fed.answered {
        if fed.number == 0 {
            return Answer::Accepted(fed.length);
        }
        return Answer::Refused(fed.number, fed.position);
    }
    Answer::None
}

fn feed_answer(fed: Fed) -> FeedAnswer
    ensures { result ≡ feed_answer fed }
{
    let control = FeedControl {
        count: fed.control.count,
        stuffed: fed.control.stuffed,
        phase: fed.control.phase as u8,
    };
    let answer = fed.answer;
    FeedAnswer {
        control,
        taken: fed.taken,
        answered: collecting::is_answered(answer),
        number: collecting::answer_number(answer),
        length: collecting::message_length(answer),
        position: collecting::position(answer),
    }
}

// A phase over 4 is none: its state is taken as the fresh one, as one with a count over 438 is (RULES 'Structs for C').
fn control_of(control: FeedControl) -> Control
    ensures { result ≡ control_of control }
{
    let Ok(phase) = Phase::try_from(control.phase) else {
        return Control {
            count: 439,
            stuffed: 0,
            phase: Phase::LeadIn,
        };
    };
    Control {
        count: control.count,
        stuffed: control.stuffed,
        phase,
    }
}

// The number, and how many entries were written, 0 with a refusal.
#[repr(C)]
#[derive(Clone, Copy)]
pub struct RecordingAnswer {
    pub number: u8,
    pub entries: usize,
}

// `recording::read_recording`.
pub fn gdl90_read_recording(
    recording: &[u8],
    list: &mut [usize],
    messages: &mut [u8],
) -> RecordingAnswer
    ensures { ReadsRecording recording.now list.old messages.old result list.new messages.new }
{
    recording::read_recording(recording, list, messages).into()
}

impl From<Result<usize, Refusal>> for RecordingAnswer {
    ghost from_gives = { λ recorded answer. answer ≡ recording_answer recorded };

    fn from(recorded: Result<usize, Refusal>) -> RecordingAnswer {
        match recorded {
            Ok(entries) => RecordingAnswer { number: 0, entries },
            Err(refusal) => RecordingAnswer {
                number: refusal.number(),
                entries: 0,
            },
        }
    }
}

// The number, 6 where the message is of no kind, 17 where its id is retired; and the kind's id, which is the first byte.
#[repr(C)]
#[derive(Clone, Copy)]
pub struct KindAnswer {
    pub number: u8,
    pub id: u8,
}

// `messages::kind_in`: which of the functions below reads the message.
pub fn gdl90_kind(message: &[u8]) -> KindAnswer
    ensures { result ≡ kind_answer message.now }
{
    let number = kind_number(messages::kind_in(message));
    if number != 0 {
        return KindAnswer { number, id: 0 };
    }
    let id = message[0];
    KindAnswer { number, id }
}

fn kind_number(kind: Kind) -> u8
    ensures { result ≡ kind_number kind }
{
    match kind {
        Kind::Retired => Refusal::RetiredId.number(),
        Kind::Unknown => Refusal::OtherId.number(),
        _ => 0,
    }
}

// A message of one kind: the number, 6 also for another kind's id; the struct, all zero with a refusal.
pub fn gdl90_read_heartbeat(message: &[u8]) -> HeartbeatRead
    ensures { result ≡ heartbeat_answer (read_heartbeat message.now) }
{
    heartbeat::read_heartbeat(message).into()
}

pub fn gdl90_read_initialization(message: &[u8]) -> InitializationRead
    ensures { result ≡ initialization_answer (read_initialization message.now) }
{
    initialization::read_initialization(message).into()
}

pub fn gdl90_read_uplink(message: &[u8]) -> FlatUplinkRead
    ensures { result ≡ uplink_answer (read_uplink message.now) }
{
    uplink::read_uplink(message).into()
}

pub fn gdl90_read_height(message: &[u8]) -> FlatHeightRead
    ensures { result ≡ height_answer (read_height message.now) }
{
    altitudes::read_height(message).into()
}

pub fn gdl90_read_ownship(message: &[u8]) -> FlatReportRead
    ensures { result ≡ report_answer (ownship_read message.now) }
{
    read_report(Ownship::ID, message)
}

pub fn gdl90_read_geometric(message: &[u8]) -> FlatGeometricRead
    ensures { result ≡ geometric_answer (read_geometric message.now) }
{
    altitudes::read_geometric(message).into()
}

pub fn gdl90_read_traffic(message: &[u8]) -> FlatReportRead
    ensures { result ≡ report_answer (traffic_read message.now) }
{
    read_report(Traffic::ID, message)
}

// Of either kind. A refusal has its own way out: joined with the other, the report went through memory, in 1.4 times the time.
fn read_report(id: u8, message: &[u8]) -> FlatReportRead
    ensures { result ≡ report_answer (report_read id message.now) }
{
    let report = match report::read_report(message, id) {
        Ok(report) => report,
        Err(refusal) => return report_refused(refusal),
    };
    FlatReportRead { number: 0, report }
}

fn report_refused(refusal: Refusal) -> FlatReportRead
    ensures { result ≡ report_answer (Err refusal) }
{
    FlatReportRead {
        number: refusal.number(),
        report: FlatReport::default(),
    }
}

// The number, and how many bytes were written, 0 with a refusal.
#[repr(C)]
#[derive(Clone, Copy)]
pub struct WriteAnswer {
    pub number: u8,
    pub length: usize,
}

// A struct's bytes to the start of the output: the number and how many; an uplink's payload is given beside it.
pub fn gdl90_write_heartbeat(heartbeat: Heartbeat, out: &mut [u8]) -> WriteAnswer
    ensures { WritesHeartbeat heartbeat out.old result out.new }
{
    heartbeat::write_heartbeat(heartbeat, out).into()
}

pub fn gdl90_write_initialization(initialization: Initialization, out: &mut [u8]) -> WriteAnswer
    ensures { WritesInitialization initialization out.old result out.new }
{
    initialization::write_initialization(initialization, out).into()
}

pub fn gdl90_write_uplink(uplink: FlatUplink, payload: &[u8], out: &mut [u8]) -> WriteAnswer
    ensures { WritesUplink uplink payload.now out.old result out.new }
{
    let value = c_structs::uplink_from(uplink);
    uplink::write_uplink(value, payload, out).into()
}

pub fn gdl90_write_height(height: FlatHeight, out: &mut [u8]) -> WriteAnswer
    ensures { WritesHeight height out.old result out.new }
{
    let value = c_structs::terrain_from(height);
    altitudes::write_height(value, out).into()
}

pub fn gdl90_write_ownship(report: FlatReport, out: &mut [u8]) -> WriteAnswer
    ensures { WritesOwnship report out.old result out.new }
{
    write_report(Ownship::ID, report, out)
}

pub fn gdl90_write_geometric(geometric: FlatGeometric, out: &mut [u8]) -> WriteAnswer
    ensures { WritesGeometric geometric out.old result out.new }
{
    let value = c_structs::geometric_from(geometric);
    altitudes::write_geometric(value, out).into()
}

pub fn gdl90_write_traffic(report: FlatReport, out: &mut [u8]) -> WriteAnswer
    ensures { WritesTraffic report out.old result out.new }
{
    write_report(Traffic::ID, report, out)
}

// Of either kind.
#[tactic(auto, unfolding(codec::specs::Writing::writing, numbers::specs::Lent::written))]
fn write_report(id: u8, flat: FlatReport, out: &mut [u8]) -> WriteAnswer
    ensures { WritesReport id flat out.old result out.new }
{
    if flat.track_kind > LAST_TRACK_KIND {
        return Err(Refusal::BadField).into();
    }
    let report = c_report::report_from(flat);
    report::write_report(id, report, out).into()
}

impl From<Result<usize, Refusal>> for WriteAnswer {
    ghost from_gives = { λ written answer. answer ≡ write_answer written };

    fn from(written: Result<usize, Refusal>) -> WriteAnswer {
        match written {
            Ok(length) => WriteAnswer { number: 0, length },
            Err(refusal) => WriteAnswer {
                number: refusal.number(),
                length: 0,
            },
        }
    }
}

// The number; how many information frames a payload has, and where their list ends, counted from the application data's start.
#[repr(C)]
#[derive(Clone, Copy)]
pub struct PayloadListAnswer {
    pub number: u8,
    pub count: usize,
    pub end: usize,
}

impl From<Result<FrameList, Refusal>> for PayloadListAnswer {
    ghost from_gives = { λ listed answer. answer ≡ payload_list_answer listed };

    fn from(listed: Result<FrameList, Refusal>) -> PayloadListAnswer {
        match listed {
            Ok(list) => PayloadListAnswer {
                number: 0,
                count: list.count,
                end: list.end,
            },
            Err(refusal) => PayloadListAnswer {
                number: refusal.number(),
                count: 0,
                end: 0,
            },
        }
    }
}

// `information_frames::list`.
pub fn gdl90_payload_list(payload: &[u8]) -> PayloadListAnswer
    ensures { result ≡ payload_list_answer (frame_list (payload_frames payload.now)) }
{
    information_frames::list(payload).into()
}

// The number; a frame's type and reserved bits, where in the payload its data start, and how many bytes they are.
#[repr(C)]
#[derive(Clone, Copy)]
pub struct PayloadNthAnswer {
    pub number: u8,
    pub kind: u8,
    pub reserved: u8,
    pub start: usize,
    pub length: usize,
}

// `information_frames::nth`. No `From`: that 10 more than a frame's place fits is known of a payload's frames only.
pub fn gdl90_payload_nth(payload: &[u8], n: usize) -> PayloadNthAnswer
    ensures { result ≡ payload_nth_answer (nth_frame (payload_frames payload.now) n) }
{
    match information_frames::nth(payload, n) {
        Ok(f) => PayloadNthAnswer {
            number: 0,
            kind: f.kind,
            reserved: f.reserved,
            start: f.at + 10,
            length: f.length,
        },
        Err(refusal) => PayloadNthAnswer {
            number: refusal.number(),
            kind: 0,
            reserved: 0,
            start: 0,
            length: 0,
        },
    }
}

// `information_frames::add`: the number, 0 where the frame was added.
pub fn gdl90_payload_add(payload: &mut [u8], kind: u8, bytes: &[u8]) -> u8
    ensures answer { result ≡ number_in (adding (payload_frames payload.old) kind (length bytes.now)) }
    ensures payload { payload.new ≡ payload_after (adding (payload_frames payload.old) kind (length bytes.now)) payload.old kind bytes.now }
{
    match information_frames::add(payload, kind, bytes) {
        Ok(()) => 0,
        Err(refusal) => refusal.number(),
    }
}

// The number; a text's hours, minutes and padding, and how many bytes of it were written, 0 with a refusal.
#[repr(C)]
#[derive(Clone, Copy)]
pub struct TextAnswer {
    pub number: u8,
    pub hours: u8,
    pub minutes: u8,
    pub padding: u8,
    pub length: usize,
}

// `generic_text::read`.
pub fn gdl90_read_text(apdu: &[u8], out: &mut [u8]) -> TextAnswer
    ensures { ReadsText apdu.now out.old result out.new }
{
    generic_text::read(apdu, out).into()
}

impl From<Result<Text, Refusal>> for TextAnswer {
    ghost from_gives = { λ reading answer. answer ≡ text_answer reading };

    fn from(reading: Result<Text, Refusal>) -> TextAnswer {
        match reading {
            Ok(text) => TextAnswer {
                number: 0,
                hours: text.hours,
                minutes: text.minutes,
                padding: text.padding,
                length: text.length,
            },
            Err(refusal) => TextAnswer {
                number: refusal.number(),
                hours: 0,
                minutes: 0,
                padding: 0,
                length: 0,
            },
        }
    }
}

// `generic_text::write`.
pub fn gdl90_write_text(
    hours: u8,
    minutes: u8,
    padding: u8,
    text: &[u8],
    out: &mut [u8],
) -> WriteAnswer
    ensures { WritesText (text_with hours minutes padding text.now) out.old result out.new }
{
    generic_text::write(hours, minutes, padding, text, out).into()
}

// Feet, from each of the three units, for every value of its width.
pub fn gdl90_pressure_feet(altitude: PressureSteps) -> i32
    ensures { result ≡ pressure_feet altitude }
{
    altitude.feet()
}

pub fn gdl90_geometric_feet(geometric: GeometricSteps) -> i32
    ensures { result ≡ geometric_feet geometric }
{
    geometric.feet()
}

pub fn gdl90_terrain_feet(height: TerrainFeet) -> i32
    ensures { result ≡ terrain_feet height }
{
    height.feet()
}

// The number; two step numbers in degrees, 0 with a refusal.
#[repr(C)]
#[derive(Clone, Copy)]
pub struct DegreesAnswer {
    pub number: u8,
    pub latitude: f64,
    pub longitude: f64,
}

// `units::in_degrees`.
pub fn gdl90_degrees(latitude: i32, longitude: i32) -> DegreesAnswer
    ensures value { result ≡ degrees_answer (in_degrees latitude longitude) }
    ensures exact { ExactAnswer latitude longitude result }
{
    match units::in_degrees(latitude, longitude) {
        Ok(d) => DegreesAnswer {
            number: 0,
            latitude: d.latitude,
            longitude: d.longitude,
        },
        Err(refusal) => DegreesAnswer {
            number: refusal.number(),
            latitude: 0.0,
            longitude: 0.0,
        },
    }
}

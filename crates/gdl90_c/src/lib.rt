// The functions of crates/gdl90 for C callers, as include/gdl90.h declares them. Each calls the one of its name there, and promises the same.
#![tactic(auto)]

ghost use Rattle.std.specs.Prelude.{◌≡◌, length};
ghost use Rattle.numbers.specs.Lent.{written};
ghost use Rattle.fcs.specs.Fcs.{fcs};
ghost use Rattle.framing.specs.Framing.{framing, framed_output};
ghost use Rattle.tallying.specs.Tally.{tallied};
ghost use Rattle.heartbeat.specs.Heartbeat.{read_heartbeat};
ghost use Rattle.initialization.specs.Initialization.{read_initialization};
ghost use Rattle.uplink.specs.Uplink.{read_uplink};
ghost use Rattle.altitudes.specs.Height.{read_height};
ghost use Rattle.altitudes.specs.Geometric.{read_geometric};
ghost use Rattle.c_structs.specs.Answers.{heartbeat_answer, initialization_answer, uplink_answer, height_answer, geometric_answer};
ghost use Rattle.c_report.specs.Answers.{report_answer};
ghost use Rattle.report.specs.Reading.{ownship_read, traffic_read};
ghost use Rattle.gdl90.specs.Messages.{kind_answer};
ghost use Rattle.gdl90.specs.Messages.{WritesHeartbeat, WritesInitialization, WritesUplink, WritesHeight, WritesOwnship, WritesGeometric, WritesTraffic};
ghost use Rattle.information_frames.specs.Walk.{payload_frames};
ghost use Rattle.information_frames.specs.Answers.{frame_list, nth_frame};
ghost use Rattle.information_frames.specs.Adding.{adding, payload_after};
ghost use Rattle.gdl90.specs.Collecting.{frame_answer, feeding, Feeds, ReadsRecording};
ghost use Rattle.units.specs.Degrees.{in_degrees};
ghost use Rattle.units.specs.Feet.{pressure_feet, geometric_feet, terrain_feet};
ghost use Rattle.gdl90.specs.Payload.{payload_list_answer, payload_nth_answer};
ghost use Rattle.generic_text.specs.Product.{text_with};
ghost use Rattle.gdl90.specs.Texts.{ReadsText, WritesText};
ghost use Rattle.gdl90.specs.Degrees.{degrees_answer, ExactAnswer};
ghost use Rattle.refusals.specs.Numbers.{number_in};

use c_report::{FlatReport, FlatReportRead};
use c_structs::{
    FlatGeometric, FlatGeometricRead, FlatHeight, FlatHeightRead, FlatUplink, FlatUplinkRead,
    HeartbeatRead, InitializationRead,
};
use gdl90::{
    DegreesAnswer, FeedAnswer, FeedControl, FrameAnswer, KindAnswer, PayloadListAnswer,
    PayloadNthAnswer, RecordingAnswer, TextAnswer, WriteAnswer,
};
use message_types::{Heartbeat, Initialization};
use tallying::Tally;
use units::{GeometricSteps, PressureSteps, TerrainFeet};

#[unsafe(no_mangle)]
pub extern "C" fn gdl90_check_sequence(message: &[u8]) -> u16
    ensures { result ≡ fcs message.now }
{
    gdl90::gdl90_check_sequence(message)
}

#[unsafe(no_mangle)]
pub extern "C" fn gdl90_frame(message: &[u8], out: &mut [u8]) -> FrameAnswer
    ensures answer { result ≡ frame_answer (framing message.now (length out.old)) }
    ensures output { out.new ≡ written (framed_output (framing message.now (length out.old)) message.now) out.old }
{
    gdl90::gdl90_frame(message, out)
}

#[unsafe(no_mangle)]
pub extern "C" fn gdl90_feed(
    control: FeedControl,
    room: &mut [u8; 438],
    message: &mut [u8; 436],
    bytes: &[u8],
) -> FeedAnswer
    ensures { Feeds (feeding control room.old message.old bytes.now) result room.new message.new }
{
    gdl90::gdl90_feed(control, room, message, bytes)
}

#[unsafe(no_mangle)]
pub extern "C" fn gdl90_feed_tallied(
    control: FeedControl,
    room: &mut [u8; 438],
    message: &mut [u8; 436],
    bytes: &[u8],
    tally: &mut Tally,
) -> FeedAnswer
    ensures { Feeds (feeding control room.old message.old bytes.now) result room.new message.new
        × (tally.new ≡ tallied tally.old (feeding control room.old message.old bytes.now).last.answer) }
{
    gdl90::gdl90_feed_tallied(control, room, message, bytes, tally)
}

#[unsafe(no_mangle)]
pub extern "C" fn gdl90_read_recording(
    recording: &[u8],
    list: &mut [usize],
    messages: &mut [u8],
) -> RecordingAnswer
    ensures { ReadsRecording recording.now list.old messages.old result list.new messages.new }
{
    gdl90::gdl90_read_recording(recording, list, messages)
}

#[unsafe(no_mangle)]
pub extern "C" fn gdl90_kind(message: &[u8]) -> KindAnswer
    ensures { result ≡ kind_answer message.now }
{
    gdl90::gdl90_kind(message)
}

#[unsafe(no_mangle)]
pub extern "C" fn gdl90_read_heartbeat(message: &[u8]) -> HeartbeatRead
    ensures { result ≡ heartbeat_answer (read_heartbeat message.now) }
{
    gdl90::gdl90_read_heartbeat(message)
}

#[unsafe(no_mangle)]
pub extern "C" fn gdl90_read_initialization(message: &[u8]) -> InitializationRead
    ensures { result ≡ initialization_answer (read_initialization message.now) }
{
    gdl90::gdl90_read_initialization(message)
}

#[unsafe(no_mangle)]
pub extern "C" fn gdl90_read_uplink(message: &[u8]) -> FlatUplinkRead
    ensures { result ≡ uplink_answer (read_uplink message.now) }
{
    gdl90::gdl90_read_uplink(message)
}

#[unsafe(no_mangle)]
pub extern "C" fn gdl90_read_height(message: &[u8]) -> FlatHeightRead
    ensures { result ≡ height_answer (read_height message.now) }
{
    gdl90::gdl90_read_height(message)
}

#[unsafe(no_mangle)]
pub extern "C" fn gdl90_read_ownship(message: &[u8]) -> FlatReportRead
    ensures { result ≡ report_answer (ownship_read message.now) }
{
    gdl90::gdl90_read_ownship(message)
}

#[unsafe(no_mangle)]
pub extern "C" fn gdl90_read_geometric(message: &[u8]) -> FlatGeometricRead
    ensures { result ≡ geometric_answer (read_geometric message.now) }
{
    gdl90::gdl90_read_geometric(message)
}

#[unsafe(no_mangle)]
pub extern "C" fn gdl90_read_traffic(message: &[u8]) -> FlatReportRead
    ensures { result ≡ report_answer (traffic_read message.now) }
{
    gdl90::gdl90_read_traffic(message)
}

#[unsafe(no_mangle)]
pub extern "C" fn gdl90_write_heartbeat(heartbeat: Heartbeat, out: &mut [u8]) -> WriteAnswer
    ensures { WritesHeartbeat heartbeat out.old result out.new }
{
    gdl90::gdl90_write_heartbeat(heartbeat, out)
}

#[unsafe(no_mangle)]
pub extern "C" fn gdl90_write_initialization(
    initialization: Initialization,
    out: &mut [u8],
) -> WriteAnswer
    ensures { WritesInitialization initialization out.old result out.new }
{
    gdl90::gdl90_write_initialization(initialization, out)
}

#[unsafe(no_mangle)]
pub extern "C" fn gdl90_write_uplink(
    uplink: FlatUplink,
    payload: &[u8],
    out: &mut [u8],
) -> WriteAnswer
    ensures { WritesUplink uplink payload.now out.old result out.new }
{
    gdl90::gdl90_write_uplink(uplink, payload, out)
}

#[unsafe(no_mangle)]
pub extern "C" fn gdl90_write_height(height: FlatHeight, out: &mut [u8]) -> WriteAnswer
    ensures { WritesHeight height out.old result out.new }
{
    gdl90::gdl90_write_height(height, out)
}

#[unsafe(no_mangle)]
pub extern "C" fn gdl90_write_ownship(report: FlatReport, out: &mut [u8]) -> WriteAnswer
    ensures { WritesOwnship report out.old result out.new }
{
    gdl90::gdl90_write_ownship(report, out)
}

#[unsafe(no_mangle)]
pub extern "C" fn gdl90_write_geometric(geometric: FlatGeometric, out: &mut [u8]) -> WriteAnswer
    ensures { WritesGeometric geometric out.old result out.new }
{
    gdl90::gdl90_write_geometric(geometric, out)
}

#[unsafe(no_mangle)]
pub extern "C" fn gdl90_write_traffic(report: FlatReport, out: &mut [u8]) -> WriteAnswer
    ensures { WritesTraffic report out.old result out.new }
{
    gdl90::gdl90_write_traffic(report, out)
}

#[unsafe(no_mangle)]
pub extern "C" fn gdl90_payload_list(payload: &[u8]) -> PayloadListAnswer
    ensures { result ≡ payload_list_answer (frame_list (payload_frames payload.now)) }
{
    gdl90::gdl90_payload_list(payload)
}

#[unsafe(no_mangle)]
pub extern "C" fn gdl90_payload_nth(payload: &[u8], n: usize) -> PayloadNthAnswer
    ensures { result ≡ payload_nth_answer (nth_frame (payload_frames payload.now) n) }
{
    gdl90::gdl90_payload_nth(payload, n)
}

#[unsafe(no_mangle)]
pub extern "C" fn gdl90_payload_add(payload: &mut [u8], kind: u8, bytes: &[u8]) -> u8
    ensures answer { result ≡ number_in (adding (payload_frames payload.old) kind (length bytes.now)) }
    ensures payload { payload.new ≡ payload_after (adding (payload_frames payload.old) kind (length bytes.now)) payload.old kind bytes.now }
{
    gdl90::gdl90_payload_add(payload, kind, bytes)
}

#[unsafe(no_mangle)]
pub extern "C" fn gdl90_read_text(apdu: &[u8], out: &mut [u8]) -> TextAnswer
    ensures { ReadsText apdu.now out.old result out.new }
{
    gdl90::gdl90_read_text(apdu, out)
}

#[unsafe(no_mangle)]
pub extern "C" fn gdl90_write_text(
    hours: u8,
    minutes: u8,
    padding: u8,
    text: &[u8],
    out: &mut [u8],
) -> WriteAnswer
    ensures { WritesText (text_with hours minutes padding text.now) out.old result out.new }
{
    gdl90::gdl90_write_text(hours, minutes, padding, text, out)
}

#[unsafe(no_mangle)]
pub extern "C" fn gdl90_pressure_feet(altitude: PressureSteps) -> i32
    ensures { result ≡ pressure_feet altitude }
{
    gdl90::gdl90_pressure_feet(altitude)
}

#[unsafe(no_mangle)]
pub extern "C" fn gdl90_geometric_feet(geometric: GeometricSteps) -> i32
    ensures { result ≡ geometric_feet geometric }
{
    gdl90::gdl90_geometric_feet(geometric)
}

#[unsafe(no_mangle)]
pub extern "C" fn gdl90_terrain_feet(height: TerrainFeet) -> i32
    ensures { result ≡ terrain_feet height }
{
    gdl90::gdl90_terrain_feet(height)
}

#[unsafe(no_mangle)]
pub extern "C" fn gdl90_degrees(latitude: i32, longitude: i32) -> DegreesAnswer
    ensures value { result ≡ degrees_answer (in_degrees latitude longitude) }
    ensures exact { ExactAnswer latitude longitude result }
{
    gdl90::gdl90_degrees(latitude, longitude)
}

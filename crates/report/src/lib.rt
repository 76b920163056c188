// Ownship and traffic reports (001 §3.4, §3.5): two kinds, of one format.
#![tactic(auto)]

ghost use Rattle.std.specs.Prelude.{◌≡◌, ◌&&◌, ◌+◌, ◌-◌, ◌<◌, ◌≤◌, length};
ghost use Rattle.codec.specs.Writing.{Wrote};
ghost use Rattle.numbers.specs.Signed.{signed_in, field_of};
ghost use Rattle.report.specs.Marks.{knots_or, climb_or, altitude_of, speed_of, climb_of, position_of};
ghost use Rattle.c_report.specs.Flat.{position_mark, altitude_mark, altitude_steps, speed_mark, speed_knots, climb_mark, climb_steps, flat_report};
ghost use Rattle.report.specs.Bytes.{three_at, high_at, low_at, codes_in, codes_of, call_sign_in, report_in, packed, report_bytes, ownship_bytes, traffic_bytes};
ghost use Rattle.report.specs.Reading.{between, good_position, within_bits, good_report, report_read, is_report_id, ownship_read, traffic_read};

use c_report::FlatReport;
use message_types::{CallSign, Climb, Ownship, Position, Report, Speed, Traffic};
use refusals::Refusal;
use units::PressureSteps;

// The ranges of RULES 'Reports': latitude from pole to pole, climb from -509 to 509, integrity and accuracy to 11.
const SOUTH_POLE: i32 = -4194304;

const NORTH_POLE: i32 = 4194304;

const LOWEST_CLIMB: i32 = -509;

const HIGHEST_CLIMB: i32 = 509;

const LAST_INTEGRITY: u8 = 11;

const LAST_ACCURACY: u8 = 11;

pub fn read_ownship(message: &[u8]) -> Result<FlatReport, Refusal>
    ensures { result ≡ ownship_read message.now }
{
    read_report(message, Ownship::ID)
}

pub fn read_traffic(message: &[u8]) -> Result<FlatReport, Refusal>
    ensures { result ≡ traffic_read message.now }
{
    read_report(message, Traffic::ID)
}

// Of the kind with this id, of either of which a message has 28 bytes.
#[tactic(auto, unfolding(codec::specs::Reading::reading))]
pub fn read_report(message: &[u8], id: u8) -> Result<FlatReport, Refusal>
    ensures { result ≡ report_read id message.now }
{
    // each kind's length is the other's
    let ownship: &[u8; Ownship::LENGTH] = codec::fit(message, id)?;
    let bytes: &[u8; Traffic::LENGTH] = ownship;
    if !holds_good_report(bytes) {
        return Err(Refusal::BadField);
    }
    Ok(numbers_in(bytes))
}

// What the bytes can hold of a report that is not good: a latitude, a climb, an integrity or an accuracy outside its range.
fn holds_good_report(message: &[u8; 28]) -> bool
    ensures { result ≡ good_report (report_in message.now) }
{
    let quality = message[13];
    let latitude = signed_in(three_at(message, 5), 0x800000);
    let (_, climb) = climb_in(low_at(message, 15));
    (is_between(latitude, SOUTH_POLE, NORTH_POLE) & is_between(climb, LOWEST_CLIMB, HIGHEST_CLIMB))
        & ((quality / 16 <= LAST_INTEGRITY) & (quality % 16 <= LAST_ACCURACY))
}

// The report that the bytes hold, as a struct of numbers. A position that is none has latitude and longitude 0 in the bytes too.
fn numbers_in(message: &[u8; 28]) -> FlatReport
    ensures { result ≡ flat_report (report_in message.now) }
{
    let codes = codes_in(message);
    let (altitude_mark, altitude) = altitude_in(codes.altitude);
    let (speed_mark, speed) = speed_in(codes.speed);
    let (climb_mark, climb) = climb_in(codes.climb);
    let target = message[1];
    let quality = message[13];
    let last = message[27];
    FlatReport {
        alert: target / 16,
        address_type: target % 16,
        address: three_at(message, 2),
        position_mark: position_mark(codes.latitude, codes.longitude, quality / 16),
        latitude: signed_in(codes.latitude, 0x800000),
        longitude: signed_in(codes.longitude, 0x800000),
        altitude_mark,
        altitude,
        track_kind: codes.kind,
        extrapolated: codes.extrapolated == 1,
        airborne: codes.airborne == 1,
        integrity: quality / 16,
        accuracy: quality % 16,
        speed_mark,
        speed,
        climb_mark,
        climb,
        track: message[17],
        emitter: message[18],
        call_sign: call_sign_in(message),
        priority: last / 16,
        spare: last % 16,
    }
}

// A field's mark, and the number beside it, which is 0 with a mark.
#[tactic(auto, unfolding(crate::specs::Marks::position_of))]
fn position_mark(latitude: u32, longitude: u32, integrity: u8) -> u8
    ensures { result ≡ position_mark (position_of latitude longitude integrity) }
{
    if latitude == 0 && longitude == 0 && integrity == 0 {
        1
    } else {
        0
    }
}

#[tactic(auto, unfolding(crate::specs::Marks::altitude_of))]
fn altitude_in(code: u16) -> (u8, PressureSteps)
    ensures { result ≡ (altitude_mark (altitude_of code), altitude_steps (altitude_of code)) }
{
    match code {
        0xFFF => (1, PressureSteps { steps: 0 }),
        steps => (0, PressureSteps { steps }),
    }
}

#[tactic(auto, unfolding(crate::specs::Marks::speed_of))]
fn speed_in(code: u16) -> (u8, u16)
    ensures { result ≡ (speed_mark (speed_of code), speed_knots (speed_of code)) }
{
    match code {
        0xFFF => (1, 0),
        0xFFE => (2, 0),
        knots => (0, knots),
    }
}

// The climb's marks are 0x1FE, 0xE02 and 0x800.
#[tactic(auto, unfolding(crate::specs::Marks::climb_of))]
fn climb_in(code: u32) -> (u8, i32)
    ensures { result ≡ (climb_mark (climb_of code), climb_steps (climb_of code)) }
{
    match code {
        0x800 => (1, 0),
        0x1FE => (2, 0),
        0xE02 => (3, 0),
        steps => (0, signed_in(steps, 0x800)),
    }
}

pub fn write_ownship(ownship: Ownship, out: &mut [u8]) -> Result<usize, Refusal>
    ensures { Wrote (good_report ownship.report) (ownship_bytes ownship) out.old result out.new }
{
    write_report(Ownship::ID, ownship.report, out)
}

pub fn write_traffic(traffic: Traffic, out: &mut [u8]) -> Result<usize, Refusal>
    ensures { Wrote (good_report traffic.report) (traffic_bytes traffic) out.old result out.new }
{
    write_report(Traffic::ID, traffic.report, out)
}

// Of either kind: an id that is neither's is a field outside its range.
pub fn write_report(id: u8, report: Report, out: &mut [u8]) -> Result<usize, Refusal>
    ensures { Wrote (is_report_id id && good_report report) (report_bytes id report) out.old result out.new }
{
    if !is_report_id(id) || !is_good_report(report) {
        return Err(Refusal::BadField);
    }
    let codes = codes_of(report);
    let bytes = packed_report(id, report, codes);
    codec::put(&bytes, out)
}

fn is_report_id(id: u8) -> bool
    ensures { result ≡ is_report_id id }
{
    matches!(id, Ownship::ID | Traffic::ID)
}

#[tactic(auto, unfolding(crate::specs::Reading::good_report))]
fn is_good_report(report: Report) -> bool
    ensures { result ≡ good_report report }
{
    is_good_position(report.position, report.integrity)
        && report.altitude.unwrap_or(PressureSteps { steps: 0 }).steps < 0xFFF
        && knots_or(report.speed, 0, 0) < 0xFFE
        && is_between(climb_or(report.climb, 0, 0, 0), LOWEST_CLIMB, HIGHEST_CLIMB)
        && is_within_bits(report)
}

fn is_within_bits(report: Report) -> bool
    ensures { result ≡ within_bits report }
{
    report.integrity <= LAST_INTEGRITY
        && report.accuracy <= LAST_ACCURACY
        && report.alert < 16
        && report.address_type < 16
        && report.address < 0x1000000
        && report.priority < 16
        && report.spare < 16
}

// None exactly if latitude, longitude and integrity are all 0.
#[tactic(auto, unfolding(crate::specs::Reading::good_position))]
fn is_good_position(position: Option<Position>, integrity: u8) -> bool
    ensures { result ≡ good_position position integrity }
{
    match position {
        None => integrity == 0,
        Some(at) => {
            is_between(at.latitude, SOUTH_POLE, NORTH_POLE)
                && is_between(at.longitude, -8388608, 8388607)
                && (at.latitude != 0 || at.longitude != 0 || integrity != 0)
        }
    }
}

fn is_between(n: i32, low: i32, high: i32) -> bool
    ensures { result ≡ between low high n }
{
    (low..=high).contains(&n)
}

// The numbers that stand in the bytes for the fields with a sign, a mark or a name. Flags are numbers here as the rest: as `bool`s they
// were tested going in and turned back into numbers going out, which is no plainer.
#[derive(Clone, Copy)]
struct Codes {
    latitude: u32,
    longitude: u32,
    altitude: u16,
    kind: u8,
    extrapolated: u8,
    airborne: u8,
    speed: u16,
    climb: u32,
}

fn codes_in(message: &[u8; 28]) -> Codes
    ensures { result ≡ codes_in message.now }
{
    let indicators = message[12];
    Codes {
        latitude: three_at(message, 5),
        longitude: three_at(message, 8),
        altitude: high_at(message, 11),
        kind: indicators % 4,
        extrapolated: indicators / 4 % 2,
        airborne: indicators / 8 % 2,
        speed: high_at(message, 14),
        climb: low_at(message, 15),
    }
}

#[tactic(auto, unfolding(crate::specs::Bytes::codes_of))]
fn codes_of(report: Report) -> Codes
    ensures { result ≡ codes_of report }
{
    let nowhere = Position {
        latitude: 0,
        longitude: 0,
    };
    let at = report.position.unwrap_or(nowhere);
    Codes {
        latitude: field_of(at.latitude, 0x800000),
        longitude: field_of(at.longitude, 0x800000),
        altitude: report
            .altitude
            .unwrap_or(PressureSteps { steps: 0xFFF })
            .steps,
        kind: c_report::track_number(report.track_kind),
        extrapolated: u8::from(report.extrapolated),
        airborne: u8::from(report.airborne),
        speed: knots_or(report.speed, 0xFFE, 0xFFF),
        climb: field_of(climb_or(report.climb, 510, -510, -2048), 0x800),
    }
}

fn packed_report(id: u8, report: Report, c: Codes) -> [u8; 28]
    ensures { result ≡ packed id report c }
{
    let sign = report.call_sign;
    let [_, address0, address1, address2] = report.address.to_be_bytes();
    let [_, latitude0, latitude1, latitude2] = c.latitude.to_be_bytes();
    let [_, longitude0, longitude1, longitude2] = c.longitude.to_be_bytes();
    [
        id,
        report.alert % 16 * 16 + report.address_type % 16,
        address0,
        address1,
        address2,
        latitude0,
        latitude1,
        latitude2,
        longitude0,
        longitude1,
        longitude2,
        (c.altitude / 16 % 256) as u8,
        (c.altitude % 16 * 16) as u8 + (c.airborne % 2 * 8 + c.extrapolated % 2 * 4 + c.kind % 4),
        report.integrity % 16 * 16 + report.accuracy % 16,
        (c.speed / 16 % 256) as u8,
        (c.speed % 16 * 16) as u8 + (c.climb / 256 % 16) as u8,
        (c.climb % 256) as u8,
        report.track,
        report.emitter,
        sign.0,
        sign.1,
        sign.2,
        sign.3,
        sign.4,
        sign.5,
        sign.6,
        sign.7,
        report.priority % 16 * 16 + report.spare % 16,
    ]
}

fn call_sign_in(message: &[u8; 28]) -> CallSign
    ensures { result ≡ call_sign_in message.now }
{
    CallSign(
        message[19],
        message[20],
        message[21],
        message[22],
        message[23],
        message[24],
        message[25],
        message[26],
    )
}

// Three bytes, high first.
fn three_at(message: &[u8; 28], at: usize) -> u32
    requires { at + 2 < 28 }
    ensures { result ≡ three_at message.now at }
{
    u32::from_be_bytes([0, message[at], message[at + 1], message[at + 2]])
}

// Twelve bits, high first: a byte and the next one's high half, or a byte's low half and the next one.
fn high_at(message: &[u8; 28], at: usize) -> u16
    requires { at + 1 < 28 }
    ensures { result ≡ high_at message.now at }
{
    u16::from_be_bytes([message[at], message[at + 1]]) / 16
}

fn low_at(message: &[u8; 28], at: usize) -> u32
    requires { at + 1 < 28 }
    ensures { result ≡ low_at message.now at }
{
    (u16::from_be_bytes([message[at], message[at + 1]]) % 4096) as u32
}

fn knots_or(speed: Speed, over: u16, none: u16) -> u16
    ensures { result ≡ knots_or speed over none }
{
    match speed {
        Speed::Knots(n) => n,
        Speed::Over => over,
        Speed::None => none,
    }
}

fn climb_or(climb: Climb, above: i32, below: i32, none: i32) -> i32
    ensures { result ≡ climb_or climb above below none }
{
    match climb {
        Climb::Steps(n) => n,
        Climb::Above => above,
        Climb::Below => below,
        Climb::None => none,
    }
}

// A field as a signed number: `half` is the weight of its sign bit.
fn signed_in(field: u32, half: u32) -> i32
    requires half_nonzero { 0 < half }
    requires half_bound { half ≤ 0x800000 }
    ensures { result ≡ signed_in half field }
{
    if field < half {
        return field as i32;
    }
    !((2 * half - 1).saturating_sub(field) as i32)
}

fn field_of(n: i32, half: u32) -> u32
    requires half_nonzero { 0 < half }
    requires half_bound { half ≤ 0x800000 }
    ensures { result ≡ field_of half n }
{
    if n < 0 {
        return (2 * half).saturating_sub(n.unsigned_abs());
    }
    n.unsigned_abs()
}

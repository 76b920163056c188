// A report as a struct of numbers, for callers that know no enums, such as C's, and the typed report that it stands for.
#![tactic(auto)]

ghost use Rattle.std.specs.Prelude.{◌≡◌};
ghost use Rattle.c_report.specs.Flat.{track_number, track_from, speed_from, climb_from, report_from};

use message_types::{CallSign, Climb, Position, Report, Speed, TrackKind};
use units::PressureSteps;

// The C interface: a mark stands beside its field, and a kind is its number, since C has no enum with values.
#[repr(C)]
#[derive(Clone, Copy, Default)]
pub struct FlatReport {
    pub alert: u8,
    pub address_type: u8,
    pub address: u32,
    pub position_mark: u8,
    pub latitude: i32,
    pub longitude: i32,
    pub altitude_mark: u8,
    pub altitude: PressureSteps,
    pub track_kind: u8,
    pub extrapolated: bool,
    pub airborne: bool,
    pub integrity: u8,
    pub accuracy: u8,
    pub speed_mark: u8,
    pub speed: u16,
    pub climb_mark: u8,
    pub climb: i32,
    pub track: u8,
    pub emitter: u8,
    pub call_sign: CallSign,
    pub priority: u8,
    pub spare: u8,
}

// The C interface: the number, and the report, all zero with a refusal.
#[repr(C)]
#[derive(Clone, Copy)]
pub struct FlatReportRead {
    pub number: u8,
    pub report: FlatReport,
}

// What stands for a mark that the field has not: writing refuses each with 8.
const PAST_THE_POLE: Position = Position {
    latitude: 4194305,
    longitude: 0,
};

const NO_STEPS: PressureSteps = PressureSteps { steps: 0xFFF };

pub fn track_number(kind: TrackKind) -> u8
    ensures { result ≡ track_number kind }
{
    kind as u8
}

// It cannot fail, as no way back to a typed report does, and so has no TryFrom: gdl90 tests C's number before it.
#[tactic(auto, unfolding(crate::specs::Flat::track_from))]
pub fn track_from(number: u8) -> TrackKind
    ensures { result ≡ track_from number }
{
    match number {
        0 => TrackKind::NotValid,
        1 => TrackKind::TrueTrack,
        2 => TrackKind::MagneticHeading,
        _ => TrackKind::TrueHeading,
    }
}

#[tactic(auto, unfolding(crate::specs::Flat::speed_from))]
fn speed_from(mark: u8, knots: u16) -> Speed
    ensures { result ≡ speed_from mark knots }
{
    match mark {
        0 => Speed::Knots(knots),
        1 => Speed::None,
        2 => Speed::Over,
        _ => Speed::Knots(0xFFF),
    }
}

#[tactic(auto, unfolding(crate::specs::Flat::climb_from))]
fn climb_from(mark: u8, steps: i32) -> Climb
    ensures { result ≡ climb_from mark steps }
{
    match mark {
        0 => Climb::Steps(steps),
        1 => Climb::None,
        2 => Climb::Above,
        3 => Climb::Below,
        _ => Climb::Steps(510),
    }
}

pub fn report_from(flat: FlatReport) -> Report
    ensures { result ≡ report_from flat }
{
    let place = Position {
        latitude: flat.latitude,
        longitude: flat.longitude,
    };
    let position = c_structs::marked(flat.position_mark, place, PAST_THE_POLE);
    let altitude = c_structs::marked(flat.altitude_mark, flat.altitude, NO_STEPS);
    let speed = speed_from(flat.speed_mark, flat.speed);
    let climb = climb_from(flat.climb_mark, flat.climb);
    let call_sign = flat.call_sign;
    Report {
        alert: flat.alert,
        address_type: flat.address_type,
        address: flat.address,
        position,
        altitude,
        track_kind: track_from(flat.track_kind),
        extrapolated: flat.extrapolated,
        airborne: flat.airborne,
        integrity: flat.integrity,
        accuracy: flat.accuracy,
        speed,
        climb,
        track: flat.track,
        emitter: flat.emitter,
        call_sign,
        priority: flat.priority,
        spare: flat.spare,
    }
}

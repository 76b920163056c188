// The seven kinds of message as typed values (001 §3; RULES 'Messages'). There is no code here: the crates above
// read and write them. A field that may be marked as none is an `Option`, one with more marks an enum; bits named reserved or spare are carried.
#![tactic(auto)]

use units::{GeometricSteps, PressureSteps, TerrainFeet};

// 001 §3.1
#[repr(C)]
#[derive(Clone, Copy, Debug, Default, PartialEq, Eq)]
pub struct Heartbeat {
    pub status1: u8,
    // bits 6 to 0; bit 7 is the time's
    pub status2: u8,
    // seconds since 0000Z
    pub time: u32,
    pub uplinks: u8,
    pub reserved: u8,
    pub basic_and_long: u16,
}

impl Heartbeat {
    pub const ID: u8 = 0;

    pub const LENGTH: usize = 7;
}

// 001 §3.2
#[repr(C)]
#[derive(Clone, Copy, Debug, Default, PartialEq, Eq)]
pub struct Initialization {
    pub first: u8,
    pub second: u8,
}

impl Initialization {
    pub const ID: u8 = 2;

    pub const LENGTH: usize = 3;
}

// 001 §3.3. The payload stays in the message.
#[derive(Clone, Copy, Debug, PartialEq, Eq)]
pub struct Uplink {
    // time of reception in the second, in steps of 80 ns
    pub reception: Option<u32>,
}

impl Uplink {
    pub const ID: u8 = 7;

    pub const LENGTH: usize = 436;
}

// 001 §3.7
#[derive(Clone, Copy, Debug, PartialEq, Eq)]
pub struct HeightAboveTerrain {
    pub height: Option<TerrainFeet>,
}

impl HeightAboveTerrain {
    pub const ID: u8 = 9;

    pub const LENGTH: usize = 3;
}

// In steps of 180/2^23 degrees, north and east positive.
#[derive(Clone, Copy, Debug, PartialEq, Eq)]
pub struct Position {
    pub latitude: i32,
    pub longitude: i32,
}

// 001 Table 9: what the track is, with its number.
#[derive(Clone, Copy, Debug, PartialEq, Eq)]
pub enum TrackKind {
    NotValid = 0,
    TrueTrack = 1,
    MagneticHeading = 2,
    TrueHeading = 3,
}

#[derive(Clone, Copy, Debug, PartialEq, Eq)]
pub enum Speed {
    Knots(u16),
    // 4,094 knots or more
    Over,
    None,
}

// In steps of 64 feet per minute.
#[derive(Clone, Copy, Debug, PartialEq, Eq)]
pub enum Climb {
    Steps(i32),
    // more than 509 steps up, and down
    Above,
    Below,
    None,
}

// As it came, any bytes. Eight fields and no array: `ReportWrittenRead` holds of every `Report` of the definitions, where an array would be
// a list of any length.
#[repr(C)]
#[derive(Clone, Copy, Debug, Default, PartialEq, Eq)]
pub struct CallSign(
    pub u8,
    pub u8,
    pub u8,
    pub u8,
    pub u8,
    pub u8,
    pub u8,
    pub u8,
);

// 001 §3.5.1, of an ownship (§3.4) and of traffic (§3.5)
#[derive(Clone, Copy, Debug, PartialEq, Eq)]
pub struct Report {
    pub alert: u8,
    pub address_type: u8,
    pub address: u32,
    pub position: Option<Position>,
    pub altitude: Option<PressureSteps>,
    pub track_kind: TrackKind,
    pub extrapolated: bool,
    pub airborne: bool,
    pub integrity: u8,
    pub accuracy: u8,
    pub speed: Speed,
    pub climb: Climb,
    // in steps of 360/256 degrees
    pub track: u8,
    pub emitter: u8,
    pub call_sign: CallSign,
    pub priority: u8,
    pub spare: u8,
}

#[derive(Clone, Copy, Debug, PartialEq, Eq)]
pub struct Ownship {
    pub report: Report,
}

impl Ownship {
    pub const ID: u8 = 10;

    pub const LENGTH: usize = 28;
}

#[derive(Clone, Copy, Debug, PartialEq, Eq)]
pub struct Traffic {
    pub report: Report,
}

impl Traffic {
    pub const ID: u8 = 20;

    pub const LENGTH: usize = 28;
}

// A figure of merit.
#[derive(Clone, Copy, Debug, PartialEq, Eq)]
pub enum Merit {
    Metres(u16),
    // over 32,766 metres
    Over,
    None,
}

// 001 §3.8
#[derive(Clone, Copy, Debug, PartialEq, Eq)]
pub struct GeometricAltitude {
    pub altitude: GeometricSteps,
    pub warning: bool,
    pub merit: Merit,
}

impl GeometricAltitude {
    pub const ID: u8 = 11;

    pub const LENGTH: usize = 5;
}

#[derive(Clone, Copy, Debug, PartialEq, Eq)]
pub enum Message {
    Heartbeat(Heartbeat),
    Initialization(Initialization),
    Uplink(Uplink),
    Height(HeightAboveTerrain),
    Ownship(Ownship),
    Geometric(GeometricAltitude),
    Traffic(Traffic),
}

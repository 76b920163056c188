// The typed messages but for reports as structs of numbers, for callers that know no enums, such as C's, there and back; and what reading
// a message answers such a caller.
#![tactic(auto)]

ghost use Rattle.std.specs.Prelude.{◌≡◌};
ghost use Rattle.c_structs.specs.Flat.{none_mark, marked, flat_uplink, uplink_from, flat_height, terrain_from, merit_mark, merit_metres, merit_from, flat_geometric, geometric_from};
ghost use Rattle.c_structs.specs.Answers.{heartbeat_answer, initialization_answer, uplink_answer, height_answer, geometric_answer};

use message_types::{
    GeometricAltitude, Heartbeat, HeightAboveTerrain, Initialization, Merit, Uplink,
};
use refusals::Refusal;
use units::{GeometricSteps, TerrainFeet};

#[repr(C)]
#[derive(Clone, Copy, Debug, Default, PartialEq, Eq)]
pub struct FlatUplink {
    pub reception_mark: u8,
    pub reception: u32,
}

#[repr(C)]
#[derive(Clone, Copy, Debug, Default, PartialEq, Eq)]
pub struct FlatHeight {
    pub height_mark: u8,
    pub height: TerrainFeet,
}

#[repr(C)]
#[derive(Clone, Copy, Debug, Default, PartialEq, Eq)]
pub struct FlatGeometric {
    pub altitude: GeometricSteps,
    pub warning: bool,
    pub merit_mark: u8,
    pub merit: u16,
}

// What reading one kind answers: the number, and the value, which is all zero with a refusal.
// The C interface: an exported function answers no struct with a type parameter, so each kind has its own.
#[repr(C)]
#[derive(Clone, Copy)]
pub struct HeartbeatRead {
    pub number: u8,
    pub heartbeat: Heartbeat,
}

#[repr(C)]
#[derive(Clone, Copy)]
pub struct InitializationRead {
    pub number: u8,
    pub initialization: Initialization,
}

#[repr(C)]
#[derive(Clone, Copy)]
pub struct FlatUplinkRead {
    pub number: u8,
    pub uplink: FlatUplink,
}

#[repr(C)]
#[derive(Clone, Copy)]
pub struct FlatHeightRead {
    pub number: u8,
    pub height: FlatHeight,
}

#[repr(C)]
#[derive(Clone, Copy)]
pub struct FlatGeometricRead {
    pub number: u8,
    pub geometric: FlatGeometric,
}

// Here and below a refusal has its own way out: with one match for both, reading a heartbeat took a fifth longer.
impl From<Result<Heartbeat, Refusal>> for HeartbeatRead {
    ghost from_gives = { λ read answer. answer ≡ heartbeat_answer read };

    fn from(read: Result<Heartbeat, Refusal>) -> HeartbeatRead {
        let heartbeat = match read {
            Ok(heartbeat) => heartbeat,
            Err(refusal) => {
                return HeartbeatRead {
                    number: refusal.number(),
                    heartbeat: Heartbeat::default(),
                };
            }
        };
        HeartbeatRead {
            number: 0,
            heartbeat,
        }
    }
}

impl From<Result<Initialization, Refusal>> for InitializationRead {
    ghost from_gives = { λ read answer. answer ≡ initialization_answer read };

    fn from(read: Result<Initialization, Refusal>) -> InitializationRead {
        let initialization = match read {
            Ok(initialization) => initialization,
            Err(refusal) => {
                return InitializationRead {
                    number: refusal.number(),
                    initialization: Initialization::default(),
                };
            }
        };
        InitializationRead {
            number: 0,
            initialization,
        }
    }
}

impl From<Result<Uplink, Refusal>> for FlatUplinkRead {
    ghost from_gives = { λ read answer. answer ≡ uplink_answer read };

    fn from(read: Result<Uplink, Refusal>) -> FlatUplinkRead {
        let uplink = match read {
            Ok(uplink) => flat_uplink(uplink),
            Err(refusal) => {
                return FlatUplinkRead {
                    number: refusal.number(),
                    uplink: FlatUplink::default(),
                };
            }
        };
        FlatUplinkRead { number: 0, uplink }
    }
}

impl From<Result<HeightAboveTerrain, Refusal>> for FlatHeightRead {
    ghost from_gives = { λ read answer. answer ≡ height_answer read };

    fn from(read: Result<HeightAboveTerrain, Refusal>) -> FlatHeightRead {
        let height = match read {
            Ok(height) => flat_height(height),
            Err(refusal) => {
                return FlatHeightRead {
                    number: refusal.number(),
                    height: FlatHeight::default(),
                };
            }
        };
        FlatHeightRead { number: 0, height }
    }
}

impl From<Result<GeometricAltitude, Refusal>> for FlatGeometricRead {
    ghost from_gives = { λ read answer. answer ≡ geometric_answer read };

    fn from(read: Result<GeometricAltitude, Refusal>) -> FlatGeometricRead {
        let geometric = match read {
            Ok(geometric) => flat_geometric(geometric),
            Err(refusal) => {
                return FlatGeometricRead {
                    number: refusal.number(),
                    geometric: FlatGeometric::default(),
                };
            }
        };
        FlatGeometricRead {
            number: 0,
            geometric,
        }
    }
}

// The mark of a field that may be none.
fn none_mark<T: Copy>(field: Option<T>) -> u8
    ensures { result ≡ none_mark field }
{
    match field {
        Some(_) => 0,
        None => 1,
    }
}

// The field again. A mark that it has not gives a number that writing refuses.
#[tactic(auto, unfolding(crate::specs::Flat::marked))]
pub fn marked<T: Copy>(mark: u8, number: T, refused: T) -> Option<T>
    ensures { result ≡ marked mark number refused }
{
    match mark {
        0 => Some(number),
        1 => None,
        _ => Some(refused),
    }
}

fn merit_mark(merit: Merit) -> u8
    ensures { result ≡ merit_mark merit }
{
    match merit {
        Merit::Metres(_) => 0,
        Merit::None => 1,
        Merit::Over => 2,
    }
}

fn merit_metres(merit: Merit) -> u16
    ensures { result ≡ merit_metres merit }
{
    match merit {
        Merit::Metres(n) => n,
        Merit::None | Merit::Over => 0,
    }
}

#[tactic(auto, unfolding(crate::specs::Flat::merit_from))]
fn merit_from(mark: u8, metres: u16) -> Merit
    ensures { result ≡ merit_from mark metres }
{
    match mark {
        0 => Merit::Metres(metres),
        1 => Merit::None,
        2 => Merit::Over,
        _ => Merit::Metres(0x7FFF),
    }
}

pub fn flat_uplink(uplink: Uplink) -> FlatUplink
    ensures { result ≡ flat_uplink uplink }
{
    FlatUplink {
        reception_mark: none_mark(uplink.reception),
        reception: uplink.reception.unwrap_or(0),
    }
}

pub fn uplink_from(flat: FlatUplink) -> Uplink
    ensures { result ≡ uplink_from flat }
{
    let reception = marked(flat.reception_mark, flat.reception, 0xFFFFFF);
    Uplink { reception }
}

pub fn flat_height(value: HeightAboveTerrain) -> FlatHeight
    ensures { result ≡ flat_height value }
{
    FlatHeight {
        height_mark: none_mark(value.height),
        height: value.height.unwrap_or(TerrainFeet { feet: 0 }),
    }
}

pub fn terrain_from(flat: FlatHeight) -> HeightAboveTerrain
    ensures { result ≡ terrain_from flat }
{
    let height = marked(flat.height_mark, flat.height, TerrainFeet { feet: -32768 });
    HeightAboveTerrain { height }
}

pub fn flat_geometric(value: GeometricAltitude) -> FlatGeometric
    ensures { result ≡ flat_geometric value }
{
    FlatGeometric {
        altitude: value.altitude,
        warning: value.warning,
        merit_mark: merit_mark(value.merit),
        merit: merit_metres(value.merit),
    }
}

pub fn geometric_from(flat: FlatGeometric) -> GeometricAltitude
    ensures { result ≡ geometric_from flat }
{
    GeometricAltitude {
        altitude: flat.altitude,
        warning: flat.warning,
        merit: merit_from(flat.merit_mark, flat.merit),
    }
}

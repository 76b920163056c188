// The three units of altitude, kept apart, steps of latitude and longitude in degrees, and times of day
// (RULES 'Units', 'Degrees', 'Time of day').
#![tactic(auto)]

ghost use Rattle.std.specs.Prelude.{◌≡◌, ltb};
ghost use Rattle.std.specs.Int.Signed.{mag};
ghost use Rattle.units.specs.Degrees.{degrees, in_degrees, ExactlyAt};
ghost use Rattle.units.specs.Feet.{pressure_feet, geometric_feet, terrain_feet};
ghost use Rattle.units.specs.TimeOfDay.{is_time_of_day};

use refusals::Refusal;

// Pressure altitude in steps of 25 feet, from 1,000 feet below zero on.
#[repr(C)]
#[derive(Clone, Copy, Debug, Default, PartialEq, Eq)]
pub struct PressureSteps {
    pub steps: u16,
}

// Geometric altitude, 5 feet a step.
#[repr(C)]
#[derive(Clone, Copy, Debug, Default, PartialEq, Eq)]
pub struct GeometricSteps {
    pub steps: i16,
}

// Height above terrain in feet.
#[repr(C)]
#[derive(Clone, Copy, Debug, Default, PartialEq, Eq)]
pub struct TerrainFeet {
    pub feet: i16,
}

// Three ways to feet and no trait over them: each unit has a formula of its own, and nothing takes whichever unit comes.
impl PressureSteps {
    pub fn feet(self) -> i32
        ensures { result ≡ pressure_feet self }
    {
        (self.steps as i32) * 25 - 1000
    }
}

impl GeometricSteps {
    pub fn feet(self) -> i32
        ensures { result ≡ geometric_feet self }
    {
        (self.steps as i32) * 5
    }
}

impl TerrainFeet {
    pub fn feet(self) -> i32
        ensures { result ≡ terrain_feet self }
    {
        self.feet as i32
    }
}

#[derive(Clone, Copy)]
pub struct Degrees {
    pub latitude: f64,
    pub longitude: f64,
}

// Two step numbers as degrees: each times 180, over 2 to the 23rd, and neither loses anything.
#[tactic(auto, unfolding(crate::specs::Degrees::in_degrees, crate::specs::Degrees::ExactlyAt))]
pub fn in_degrees(latitude: i32, longitude: i32) -> Result<Degrees, Refusal>
    ensures value { result ≡ in_degrees latitude longitude }
    ensures exact { ExactlyAt latitude longitude result }
{
    if !is_step(latitude) || !is_step(longitude) {
        return Err(Refusal::BadField);
    }
    Ok(Degrees {
        latitude: degrees_of(latitude),
        longitude: degrees_of(longitude),
    })
}

// Whether 24 bits hold a step number.
fn is_step(n: i32) -> bool
    ensures { result ≡ ltb (mag n) 8388608 }
{
    -8388608 <= n && n < 8388608
}

fn degrees_of(n: i32) -> f64
    ensures { result ≡ degrees n }
{
    n as f64 * 180.0 / 8388608.0
}

// The last second of a day that ends with a leap second, 23:59:60.
const LAST_SECOND: u32 = 86400;

// Seconds since midnight, UTC. Whatever has a time of day has this bound.
pub fn is_time_of_day(second: u32) -> bool
    ensures { result ≡ is_time_of_day second }
{
    second <= LAST_SECOND
}

// Height above terrain (001 §3.7) and ownship geometric altitude (001 §3.8).
#![tactic(auto)]

ghost use Rattle.std.specs.Prelude.{◌≡◌, cond, ◌≤◌, ◌<◌};
ghost use Rattle.codec.specs.Writing.{Wrote};
ghost use Rattle.altitudes.specs.Height.{height_of, height_field, good_height, good_terrain, terrain_in, terrain_bytes, read_height};
ghost use Rattle.altitudes.specs.Geometric.{merit_of, merit_field, good_merit, good_geometric, geometric_in, geometric_bytes, read_geometric};

use message_types::{GeometricAltitude, HeightAboveTerrain, Merit};
use refusals::Refusal;
use units::{GeometricSteps, TerrainFeet};

// The mark of no height.
const NO_HEIGHT: u16 = 0x8000;

// The mark of a merit over 32,766 metres (RULES 'Geometric altitude').
const OVER_MERIT: u16 = 0x7EEE;

#[tactic(auto, unfolding(codec::specs::Reading::reading))]
pub fn read_height(message: &[u8]) -> Result<HeightAboveTerrain, Refusal>
    ensures { result ≡ read_height message.now }
{
    let bytes = codec::fit(message, HeightAboveTerrain::ID)?;
    let value = terrain_in(bytes);
    if is_good_height(value.height) {
        Ok(value)
    } else {
        Err(Refusal::BadField)
    }
}

#[tactic(auto, unfolding(crate::specs::Height::terrain_in))]
fn terrain_in(bytes: &[u8; HeightAboveTerrain::LENGTH]) -> HeightAboveTerrain
    ensures { result ≡ terrain_in bytes.now }
{
    let [_, high, low] = *bytes;
    let height = height_of(u16::from_be_bytes([high, low]));
    HeightAboveTerrain { height }
}

#[tactic(auto, unfolding(crate::specs::Height::height_of), using(crate::proofs::Sixteen::signed))]
fn height_of(n: u16) -> Option<TerrainFeet>
    ensures { result ≡ height_of n }
{
    if n == NO_HEIGHT {
        return None;
    }
    let feet = n.cast_signed();
    Some(TerrainFeet { feet })
}

#[tactic(auto, using(crate::proofs::Sixteen::field))]
fn height_field(height: Option<TerrainFeet>) -> u16
    ensures { result ≡ height_field height }
{
    match height {
        Some(h) => h.feet.cast_unsigned(),
        None => NO_HEIGHT,
    }
}

fn is_good_height(height: Option<TerrainFeet>) -> bool
    ensures { result ≡ good_height height }
{
    height.is_none() || height_field(height) != NO_HEIGHT
}

#[tactic(auto, unfolding(codec::specs::Writing::writing, numbers::specs::Lent::written))]
pub fn write_height(value: HeightAboveTerrain, out: &mut [u8]) -> Result<usize, Refusal>
    ensures { Wrote (good_terrain value) (terrain_bytes value) out.old result out.new }
{
    if is_good_height(value.height) {
        codec::put(&height_bytes(value), out)
    } else {
        Err(Refusal::BadField)
    }
}

#[tactic(auto, unfolding(crate::specs::Height::terrain_bytes))]
fn height_bytes(value: HeightAboveTerrain) -> [u8; HeightAboveTerrain::LENGTH]
    ensures { result ≡ terrain_bytes value }
{
    let [high, low] = height_field(value.height).to_be_bytes();
    [HeightAboveTerrain::ID, high, low]
}

#[tactic(auto, unfolding(codec::specs::Reading::reading))]
pub fn read_geometric(message: &[u8]) -> Result<GeometricAltitude, Refusal>
    ensures { result ≡ read_geometric message.now }
{
    let bytes = codec::fit(message, GeometricAltitude::ID)?;
    let geometric = geometric_in(bytes);
    if is_good_merit(geometric.merit) {
        Ok(geometric)
    } else {
        Err(Refusal::BadField)
    }
}

#[tactic(auto, unfolding(crate::specs::Geometric::geometric_in), using(crate::proofs::Sixteen::signed))]
fn geometric_in(bytes: &[u8; GeometricAltitude::LENGTH]) -> GeometricAltitude
    ensures { result ≡ geometric_in bytes.now }
{
    let [_, high, low, merit_high, merit_low] = *bytes;
    let steps = i16::from_be_bytes([high, low]);
    let merit = merit_of(u16::from_be_bytes([merit_high % 128, merit_low]));
    GeometricAltitude {
        altitude: GeometricSteps { steps },
        warning: 128 <= merit_high,
        merit,
    }
}

#[tactic(auto, unfolding(crate::specs::Geometric::merit_of))]
fn merit_of(n: u16) -> Merit
    ensures { result ≡ merit_of n }
{
    if n == 0x7FFF {
        return Merit::None;
    }
    if n == OVER_MERIT {
        return Merit::Over;
    }
    Merit::Metres(n)
}

fn merit_field(merit: Merit) -> u16
    ensures { result ≡ merit_field merit }
{
    match merit {
        Merit::Metres(n) => n,
        Merit::Over => OVER_MERIT,
        Merit::None => 0x7FFF,
    }
}

fn is_good_merit(merit: Merit) -> bool
    ensures { result ≡ good_merit merit }
{
    match merit {
        Merit::Metres(n) => (n < 0x7FFF) & !(n == OVER_MERIT),
        Merit::Over => true,
        Merit::None => true,
    }
}

#[tactic(auto, unfolding(codec::specs::Writing::writing, numbers::specs::Lent::written))]
pub fn write_geometric(value: GeometricAltitude, out: &mut [u8]) -> Result<usize, Refusal>
    ensures { Wrote (good_geometric value) (geometric_bytes value) out.old result out.new }
{
    if is_good_merit(value.merit) {
        codec::put(&geometric_bytes(value), out)
    } else {
        Err(Refusal::BadField)
    }
}

fn warning_bit(warning: bool) -> u8
    ensures value { result ≡ cond warning 128 0 }
    ensures upper_bound { result ≤ 128 }
{
    if warning { 128 } else { 0 }
}

#[tactic(auto, unfolding(crate::specs::Geometric::geometric_bytes), using(crate::proofs::Sixteen::field))]
fn geometric_bytes(value: GeometricAltitude) -> [u8; GeometricAltitude::LENGTH]
    requires { merit_field value.merit < 0x8000 }
    ensures { result ≡ geometric_bytes value }
{
    let [high, low] = value.altitude.steps.to_be_bytes();
    let [merit_high, merit_low] = merit_field(value.merit).to_be_bytes();
    let warning = warning_bit(value.warning);
    [
        GeometricAltitude::ID,
        high,
        low,
        warning + merit_high,
        merit_low,
    ]
}

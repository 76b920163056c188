// The heartbeat (001 §3.1): what the receiver says of itself.
#![tactic(auto)]

ghost use Rattle.std.specs.Prelude.{◌≡◌};
ghost use Rattle.codec.specs.Writing.{Wrote};
ghost use Rattle.heartbeat.specs.Heartbeat.{time_of, count_of, heartbeat_in, good_heartbeat, heartbeat_bytes, read_heartbeat, HeartbeatBits};

use message_types::Heartbeat;
use refusals::Refusal;

#[tactic(auto, unfolding(codec::specs::Reading::reading))]
pub fn read_heartbeat(message: &[u8]) -> Result<Heartbeat, Refusal>
    ensures { result ≡ read_heartbeat message.now }
{
    let bytes = codec::fit(message, Heartbeat::ID)?;
    let heartbeat = heartbeat_in(bytes);
    if is_good_heartbeat(heartbeat) {
        Ok(heartbeat)
    } else {
        Err(Refusal::BadField)
    }
}

#[tactic(auto, unfolding(codec::specs::Writing::writing, numbers::specs::Lent::written))]
pub fn write_heartbeat(heartbeat: Heartbeat, out: &mut [u8]) -> Result<usize, Refusal>
    ensures { Wrote (good_heartbeat heartbeat) (heartbeat_bytes heartbeat) out.old result out.new }
{
    if is_good_heartbeat(heartbeat) {
        codec::put(&heartbeat_bytes(heartbeat), out)
    } else {
        Err(Refusal::BadField)
    }
}

// Each field within its bits, and the time a time of day.
fn is_good_heartbeat(heartbeat: Heartbeat) -> bool
    ensures { result ≡ good_heartbeat heartbeat }
{
    (heartbeat.status2 < 128)
        & (units::is_time_of_day(heartbeat.time)
            & ((heartbeat.uplinks < 32)
                & ((heartbeat.reserved < 2) & (heartbeat.basic_and_long < 1024))))
}

#[tactic(auto, unfolding(crate::specs::Heartbeat::heartbeat_in))]
fn heartbeat_in(bytes: &[u8; Heartbeat::LENGTH]) -> Heartbeat
    ensures { result ≡ heartbeat_in bytes.now }
{
    let [_, status1, status2, low, high, counts, count] = *bytes;
    Heartbeat {
        status1,
        status2: status2 % 128,
        time: time_of(status2, low, high),
        uplinks: counts / 8,
        reserved: counts / 4 % 2,
        basic_and_long: count_of(counts, count),
    }
}

fn time_of(status2: u8, low: u8, high: u8) -> u32
    ensures { result ≡ time_of status2 low high }
{
    u32::from_le_bytes([low, high, status2 / 128, 0])
}

fn count_of(high: u8, low: u8) -> u16
    ensures { result ≡ count_of high low }
{
    u16::from_be_bytes([high % 4, low])
}

fn heartbeat_bytes(heartbeat: Heartbeat) -> [u8; Heartbeat::LENGTH]
    requires { HeartbeatBits heartbeat }
    ensures { result ≡ heartbeat_bytes heartbeat }
{
    let [low, high, top, _] = heartbeat.time.to_le_bytes();
    let [above, count] = heartbeat.basic_and_long.to_be_bytes();
    [
        Heartbeat::ID,
        heartbeat.status1,
        top * 128 + heartbeat.status2,
        low,
        high,
        heartbeat.uplinks * 8 + heartbeat.reserved * 4 + above,
        count,
    ]
}

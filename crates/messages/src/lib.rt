// Reading and writing a message of whatever kind (001 §3; RULES 'Messages').
#![tactic(auto)]

ghost use Rattle.std.specs.Prelude.{◌≡◌};
ghost use Rattle.report.specs.Reading.{read_ownship, read_traffic};
ghost use Rattle.messages.specs.Message.{kind_of, kind_in, read_as, read_message, WroteMessage};

use message_types::{
    GeometricAltitude, Heartbeat, HeightAboveTerrain, Initialization, Message, Ownship, Traffic,
    Uplink,
};
use refusals::Refusal;

// The ids of basic and long pass-through (001 §3.6), which are retired.
const BASIC_PASS_THROUGH: u8 = 30;

const LONG_PASS_THROUGH: u8 = 31;

// What an id says.
#[derive(Clone, Copy, Debug, PartialEq, Eq)]
pub enum Kind {
    Heartbeat,
    Initialization,
    Uplink,
    Height,
    Ownship,
    Geometric,
    Traffic,
    // an id of RULES 'Retired ids'
    Retired,
    Unknown,
}

// The typed value of a message. An uplink's payload is `uplink::payload` of it.
#[tactic(auto, unfolding(crate::specs::Message::read_message))]
pub fn read(message: &[u8]) -> Result<Message, Refusal>
    ensures { result ≡ read_message message.now }
{
    read_as(kind_in(message), message)
}

// The kind whose id is the message's first byte.
#[tactic(auto, unfolding(crate::specs::Message::kind_in))]
pub fn kind_in(message: &[u8]) -> Kind
    ensures { result ≡ kind_in message.now }
{
    if message.len() == 0 {
        return Kind::Unknown;
    }
    kind_of(message[0])
}

fn kind_of(id: u8) -> Kind
    ensures { result ≡ kind_of id }
{
    match id {
        Heartbeat::ID => Kind::Heartbeat,
        Initialization::ID => Kind::Initialization,
        Uplink::ID => Kind::Uplink,
        HeightAboveTerrain::ID => Kind::Height,
        Ownship::ID => Kind::Ownship,
        GeometricAltitude::ID => Kind::Geometric,
        Traffic::ID => Kind::Traffic,
        BASIC_PASS_THROUGH => Kind::Retired,
        LONG_PASS_THROUGH => Kind::Retired,
        _ => Kind::Unknown,
    }
}

fn read_as(kind: Kind, message: &[u8]) -> Result<Message, Refusal>
    ensures { result ≡ read_as kind message.now }
{
    match kind {
        Kind::Heartbeat => heartbeat::read_heartbeat(message).map(Message::Heartbeat),
        Kind::Initialization => {
            initialization::read_initialization(message).map(Message::Initialization)
        }
        Kind::Uplink => uplink::read_uplink(message).map(Message::Uplink),
        Kind::Height => altitudes::read_height(message).map(Message::Height),
        Kind::Ownship => read_ownship(message).map(Message::Ownship),
        Kind::Geometric => altitudes::read_geometric(message).map(Message::Geometric),
        Kind::Traffic => read_traffic(message).map(Message::Traffic),
        Kind::Retired => Err(Refusal::RetiredId),
        Kind::Unknown => Err(Refusal::OtherId),
    }
}

#[tactic(auto, using(crate::proofs::Dispatch::ownship_ok, crate::proofs::Dispatch::ownship_err))]
fn read_ownship(message: &[u8]) -> Result<Ownship, Refusal>
    ensures { result ≡ read_ownship message.now }
{
    let report = c_report::report_from(report::read_ownship(message)?);
    Ok(Ownship { report })
}

#[tactic(auto, using(crate::proofs::Dispatch::traffic_ok, crate::proofs::Dispatch::traffic_err))]
fn read_traffic(message: &[u8]) -> Result<Traffic, Refusal>
    ensures { result ≡ read_traffic message.now }
{
    let report = c_report::report_from(report::read_traffic(message)?);
    Ok(Traffic { report })
}

// The bytes of a typed value. An uplink's payload is given beside it; of the other kinds it is not looked at.
#[tactic(auto, unfolding(crate::specs::Message::writing_message, uplink::specs::Uplink::writing_uplink))]
pub fn write(message: Message, payload: &[u8], out: &mut [u8]) -> Result<usize, Refusal>
    ensures { WroteMessage message payload.now out.old result out.new }
{
    match message {
        Message::Heartbeat(x) => heartbeat::write_heartbeat(x, out),
        Message::Initialization(x) => initialization::write_initialization(x, out),
        Message::Uplink(x) => uplink::write_uplink(x, payload, out),
        Message::Height(x) => altitudes::write_height(x, out),
        Message::Ownship(x) => report::write_ownship(x, out),
        Message::Geometric(x) => altitudes::write_geometric(x, out),
        Message::Traffic(x) => report::write_traffic(x, out),
    }
}

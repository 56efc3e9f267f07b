// From a message to a frame.
ghost use Rattle.std.specs.Prelude.{◌≡◌, ◌&&◌, ◌<◌, ltb, true};
ghost use Rattle.frames.specs.Values.{target_number, field_value};
ghost use Rattle.frames.specs.Write.{address_byte, address_fits, target_byte, scheme_bits, scheme_limit, event_fits};
ghost use Rattle.frames.specs.Write.{message_fits, event_frame, power_frame, frame_of};
ghost use Rattle.frames.specs.Promises.{WritePromise};

use crate::message::{Address, Message, Scheme, Target};
use crate::values::target_number;
use refusals::Refusal;

fn address_fits(address: Address) -> bool
    ensures { result ≡ address_fits address }
{
    match address {
        Address::Short(n) => n < 64,
        Address::Group(n) => n < 32,
        Address::Unaddressed | Address::Broadcast => true,
    }
}

fn address_byte(address: Address) -> u8
    requires { address_fits address ≡ true }
    ensures { result ≡ address_byte address }
{
    match address {
        Address::Short(n) => n * 2 + 1,
        Address::Group(n) => 0x81 + n * 2,
        Address::Unaddressed => 0xFD,
        Address::Broadcast => 0xFF,
    }
}

fn target_byte(target: Target) -> u8
    requires { target_number target < 32 }
    ensures { result ≡ target_byte target }
{
    match target {
        Target::InstanceNumber(n) => n,
        Target::InstanceGroup(n) => 0x80 + n,
        Target::InstanceType(n) => 0xC0 + n,
        Target::FeatureAtNumber(n) => 0x20 + n,
        Target::FeatureAtGroup(n) => 0xA0 + n,
        Target::FeatureAtType(n) => 0x60 + n,
        Target::FeatureBroadcast => 0xF9,
        Target::DeviceFeature => 0xFC,
        Target::FeatureAtInstanceBroadcast => 0xFD,
        Target::Device => 0xFE,
        Target::InstanceBroadcast => 0xFF,
    }
}

fn scheme_bits(scheme: Scheme) -> u32
    ensures same { result ≡ scheme_bits scheme }
    ensures small { result < 16777216 }
{
    match scheme {
        Scheme::TypeNumber => (1 << 23) + (1 << 15),
        Scheme::ShortType => 0,
        Scheme::ShortNumber => 1 << 15,
        Scheme::GroupType => 1 << 23,
        Scheme::PrimaryType => (1 << 23) + (1 << 22),
    }
}

fn scheme_limit(scheme: Scheme) -> u8
    ensures { result ≡ scheme_limit scheme }
{
    match scheme {
        Scheme::ShortType | Scheme::ShortNumber => 64,
        Scheme::TypeNumber | Scheme::GroupType | Scheme::PrimaryType => 32,
    }
}

fn command_fits(address: Address, target: Target) -> bool
    ensures { result ≡ address_fits address && ltb (target_number target) 32 }
{
    address_fits(address) && target_number(target) < 32
}

#[tactic(auto, unfolding(crate::specs::Write::event_fits))]
fn event_fits(scheme: Scheme, first: u8, second: u8, information: u16) -> bool
    ensures { result ≡ event_fits scheme first second information }
{
    first < scheme_limit(scheme) && second < 32 && information < 1024
}

fn power_fits(group: Option<u8>, short: Option<u8>) -> bool
    ensures { result ≡ ltb (field_value group) 32 && ltb (field_value short) 64 }
{
    group.unwrap_or(0) < 32 && short.unwrap_or(0) < 64
}

fn message_fits(message: Message) -> bool
    ensures { result ≡ message_fits message }
{
    match message {
        Message::Command(address, target, _) => command_fits(address, target),
        Message::Special(number, _, _) => number < 16,
        Message::Event(scheme, first, second, information) => event_fits(
            scheme,
            first,
            second,
            information,
        ),
        Message::Power(group, short) => power_fits(group, short),
    }
}

#[tactic(auto, unfolding(crate::specs::Write::event_frame))]
fn event_frame(scheme: Scheme, first: u8, second: u8, information: u16) -> u32
    ensures { result ≡ event_frame (scheme_bits scheme) first second information }
{
    let high = scheme_bits(scheme) + (u32::from(first) << 17);
    high + (u32::from(second) << 10) + u32::from(information)
}

#[tactic(auto, unfolding(crate::specs::Write::power_frame))]
fn power_frame(group: Option<u8>, short: Option<u8>) -> u32
    ensures { result ≡ power_frame group short }
{
    let g = (u32::from(group.is_some()) << 12) + (u32::from(group.unwrap_or(0)) << 7);
    let s = (u32::from(short.is_some()) << 6) + u32::from(short.unwrap_or(0));
    0xFEE000 + g + s
}

#[tactic(auto, unfolding(crate::specs::Write::bytes_frame))]
fn frame_of(message: Message) -> u32
    requires { message_fits message ≡ true }
    ensures { result ≡ frame_of message }
{
    match message {
        Message::Command(address, target, opcode) => {
            u32::from_be_bytes([0, address_byte(address), target_byte(target), opcode])
        }
        Message::Special(number, x, y) => u32::from_be_bytes([0, 0xC1 + number * 2, x, y]),
        Message::Event(scheme, first, second, information) => event_frame(
            scheme,
            first,
            second,
            information,
        ),
        Message::Power(group, short) => power_frame(group, short),
    }
}

#[tactic(auto, unfolding(crate::specs::Write::write_of))]
pub fn write(message: Message) -> Result<u32, Refusal>
    ensures { WritePromise message result }
{
    if !message_fits(message) {
        return Err(Refusal::OutOfRange);
    }
    Ok(frame_of(message))
}

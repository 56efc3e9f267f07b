// What a frame says: the words of its message, and the numbers in them.
use crate::values::Hex;
use frames::{Address, Message, Scheme, Target};
use std::fmt;

// A frame's words, or why it is refused.
#[derive(Clone, Copy)]
pub struct Frame(pub u32);

impl fmt::Display for Frame {
    fn fmt<W: fmt::Write>(&self, f: &mut fmt::Formatter<W>) -> fmt::Result {
        match frames::read(self.0) {
            Ok(message) => f.write(Words(message)),
            Err(refusal) => write!(f, "{}: {refusal}", refusal.number()),
        }
    }
}

#[derive(Drop)]
struct Words(Message);

impl fmt::Display for Words {
    fn fmt<W: fmt::Write>(&self, f: &mut fmt::Formatter<W>) -> fmt::Result {
        match self.0 {
            Message::Command(address, target, opcode) => {
                write!(f, "{} {}", Command(target, opcode), Receiver(address))
            }
            Message::Special(number, x, y) => f.write(Special(number, x, y)),
            Message::Event(scheme, first, second, information) => {
                let source = Source(scheme, first, second);
                write!(f, "event: {source}, information {information}")
            }
            Message::Power(group, short) => f.write(PowerCycle(group, short)),
        }
    }
}

#[derive(Drop)]
struct Receiver(Address);

impl fmt::Display for Receiver {
    fn fmt<W: fmt::Write>(&self, f: &mut fmt::Formatter<W>) -> fmt::Result {
        match self.0 {
            Address::Short(n) => write!(f, "to short address {n}"),
            Address::Group(n) => write!(f, "to device group {n}"),
            Address::Unaddressed => f.write_str("to all without an address"),
            Address::Broadcast => f.write_str("to all"),
        }
    }
}

#[derive(Drop)]
struct Command(Target, u8);

impl fmt::Display for Command {
    fn fmt<W: fmt::Write>(&self, f: &mut fmt::Formatter<W>) -> fmt::Result {
        let op = Hex(self.1);
        match self.0 {
            Target::InstanceNumber(n) => write!(f, "instance command {op} at instance number {n}"),
            Target::InstanceGroup(n) => write!(f, "instance command {op} at instance group {n}"),
            Target::InstanceType(n) => write!(f, "instance command {op} at instance type {n}"),
            Target::InstanceBroadcast => write!(f, "instance command {op} at all instances"),
            Target::FeatureAtNumber(n) => write!(f, "feature command {op} at instance number {n}"),
            Target::FeatureAtGroup(n) => write!(f, "feature command {op} at instance group {n}"),
            Target::FeatureAtType(n) => write!(f, "feature command {op} at instance type {n}"),
            Target::FeatureBroadcast => write!(f, "feature command {op} at all features"),
            Target::DeviceFeature => write!(f, "feature command {op} at the device"),
            Target::FeatureAtInstanceBroadcast => write!(
                f,
                "feature command {op} at all instances"
            ),
            Target::Device => f.write(DeviceCommand(self.1)),
        }
    }
}

// The listed commands with instance byte 0xFE.
const DEVICE_COMMANDS: [(u8, &str); 16] = [
    (0x11, "RESET MEMORY BANK"),
    (0x14, "SET SHORT ADDRESS"),
    (0x15, "ENABLE WRITE MEMORY"),
    (0x19, "ADD TO DEVICE GROUPS 0-15"),
    (0x1A, "ADD TO DEVICE GROUPS 16-31"),
    (0x1B, "REMOVE FROM DEVICE GROUPS 0-15"),
    (0x1C, "REMOVE FROM DEVICE GROUPS 16-31"),
    (0x33, "QUERY MISSING SHORT ADDRESS"),
    (0x36, "QUERY CONTENT DTR0"),
    (0x37, "QUERY CONTENT DTR1"),
    (0x38, "QUERY CONTENT DTR2"),
    (0x3C, "READ MEMORY LOCATION"),
    (0x41, "QUERY DEVICE GROUPS 0-7"),
    (0x42, "QUERY DEVICE GROUPS 8-15"),
    (0x43, "QUERY DEVICE GROUPS 16-23"),
    (0x44, "QUERY DEVICE GROUPS 24-31"),
];

#[derive(Drop)]
struct DeviceCommand(u8);

impl fmt::Display for DeviceCommand {
    fn fmt<W: fmt::Write>(&self, f: &mut fmt::Formatter<W>) -> fmt::Result {
        let opcode = self.0;
        match DEVICE_COMMANDS.iter().find(|named| named.0 == opcode) {
            Some((_, name)) => f.write_str(name),
            None => write!(f, "device command {opcode:02X}"),
        }
    }
}

// 0xC1, 0xC5, 0xC7 and 0xC9 are the numbers 0, 2, 3 and 4.
#[derive(Drop)]
struct Special(u8, u8, u8);

impl fmt::Display for Special {
    fn fmt<W: fmt::Write>(&self, f: &mut fmt::Formatter<W>) -> fmt::Result {
        let Special(number, x, y) = *self;
        match number {
            0 => f.write(FirstSpecial(x, y)),
            2 => write!(f, "DIRECT WRITE MEMORY offset {x:02X}, data {y:02X}"),
            3 => write!(f, "DTR1 {x:02X}, DTR0 {y:02X}"),
            4 => write!(f, "DTR2 {x:02X}, DTR1 {y:02X}"),
            _ => write!(f, "special command {number}: {x:02X} {y:02X}"),
        }
    }
}

#[derive(Drop)]
struct FirstSpecial(u8, u8);

impl fmt::Display for FirstSpecial {
    fn fmt<W: fmt::Write>(&self, f: &mut fmt::Formatter<W>) -> fmt::Result {
        let y = self.1;
        match self.0 {
            0x20 => write!(f, "WRITE MEMORY LOCATION {y:02X}"),
            0x21 => write!(f, "WRITE MEMORY LOCATION {y:02X} without reply"),
            0x30 => write!(f, "DTR0 {y:02X}"),
            0x31 => write!(f, "DTR1 {y:02X}"),
            0x32 => write!(f, "DTR2 {y:02X}"),
            x => write!(f, "special command 0: {x:02X} {y:02X}"),
        }
    }
}

// The two fields that an event's scheme carries.
#[derive(Drop)]
struct Source(Scheme, u8, u8);

impl fmt::Display for Source {
    fn fmt<W: fmt::Write>(&self, f: &mut fmt::Formatter<W>) -> fmt::Result {
        let Source(scheme, first, second) = *self;
        match scheme {
            Scheme::TypeNumber => write!(f, "instance type {first}, instance number {second}"),
            Scheme::ShortType => write!(f, "short address {first}, instance type {second}"),
            Scheme::ShortNumber => write!(f, "short address {first}, instance number {second}"),
            Scheme::GroupType => write!(f, "device group {first}, instance type {second}"),
            Scheme::PrimaryType => write!(f, "instance group {first}, instance type {second}"),
        }
    }
}

#[derive(Drop)]
struct PowerCycle(Option<u8>, Option<u8>);

impl fmt::Display for PowerCycle {
    fn fmt<W: fmt::Write>(&self, f: &mut fmt::Formatter<W>) -> fmt::Result {
        f.write_str("power cycle")?;
        if let Some(group) = self.0 {
            write!(f, ", device group {group}")?;
        }
        if let Some(short) = self.1 {
            write!(f, ", short address {short}")?;
        }
        Ok(())
    }
}

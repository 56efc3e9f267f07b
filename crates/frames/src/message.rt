// The types: a message, and what it is made of.

// Who a command is for: the address holds its own kind and number.
#[derive(Clone, Copy, Debug, PartialEq, Eq)]
pub enum Address {
    Short(u8),
    Group(u8),
    Unaddressed,
    Broadcast,
}

// Which part of a device it is for: the target holds its own kind and number.
#[derive(Clone, Copy, Debug, PartialEq, Eq)]
pub enum Target {
    InstanceNumber(u8),
    InstanceGroup(u8),
    InstanceType(u8),
    FeatureAtNumber(u8),
    FeatureAtGroup(u8),
    FeatureAtType(u8),
    FeatureBroadcast,
    DeviceFeature,
    FeatureAtInstanceBroadcast,
    Device,
    InstanceBroadcast,
}

// What an event carries, schemes 0 to 4: type and number, short address and type, short address and number,
// lowest device group and type, primary group and type.
#[derive(Clone, Copy, Debug, PartialEq, Eq)]
pub enum Scheme {
    TypeNumber = 0,
    ShortType = 1,
    ShortNumber = 2,
    GroupType = 3,
    PrimaryType = 4,
}

// A command: address, target, opcode. A special command: its number, and two free bytes.
// An event: its scheme, the two fields that the scheme carries, the information.
// A power cycle: the lowest device group, the short address; each may be missing.
#[derive(Clone, Copy, Debug, PartialEq, Eq)]
pub enum Message {
    Command(Address, Target, u8),
    Special(u8, u8, u8),
    Event(Scheme, u8, u8, u16),
    Power(Option<u8>, Option<u8>),
}

// What an address byte says.
#[derive(Clone, Copy, Debug, PartialEq, Eq)]
pub enum Addressed {
    To(Address),
    Special(u8),
}

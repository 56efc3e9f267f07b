// What a frame means to the unit.

// The commands that are obeyed at once.
#[derive(Clone, Copy, PartialEq, Eq)]
pub enum Once {
    QueryMissingShortAddress,
    QueryContentDtr(u8),
    ReadMemoryLocation,
    QueryDeviceGroups(u8),
    WriteMemoryLocation(u8, bool),
    DirectWriteMemory(u8, u8),
    SetDtr(u8, u8),
    SetDtrs(u8, u8, u8),
}

// The commands that need a pair.
#[derive(Clone, Copy, PartialEq, Eq)]
pub enum Twice {
    ResetMemoryBank,
    SetShortAddress,
    EnableWriteMemory,
    AddToDeviceGroups(u8),
    RemoveFromDeviceGroups(u8),
}

#[derive(Clone, Copy, PartialEq, Eq)]
pub enum Meaning {
    Foreign,
    NotObeyed,
    AtOnce(Once),
    NeedsPair(Twice),
}

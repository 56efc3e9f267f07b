// The number and the value of each case that only a word needs, and the case of a number and a value.
// Kept: what may not change: paper 01 gives each case its number and its values, and `words:address_kind`, `target_kind`,
// `address_at` and `field_at` state them; a number of no case falls to the last one, which `words:matched` refuses.
ghost use Rattle.std.specs.Prelude.{◌≡◌};
ghost use Rattle.words.specs.Values.{address_kind, address_number, address_at, target_kind, field_at};

use frames::{Address, Target};

pub fn address_kind(address: Address) -> u8
    ensures { result ≡ address_kind address }
{
    match address {
        Address::Short(_) => 0,
        Address::Group(_) => 1,
        Address::Unaddressed => 2,
        Address::Broadcast => 3,
    }
}

pub fn address_number(address: Address) -> u8
    ensures { result ≡ address_number address }
{
    match address {
        Address::Short(n) | Address::Group(n) => n,
        Address::Unaddressed | Address::Broadcast => 0,
    }
}

#[tactic(auto, unfolding(crate::specs::Values::address_at))]
pub fn address_at(kind: u8, number: u8) -> Address
    ensures { result ≡ address_at kind number }
{
    match kind {
        0 => Address::Short(number),
        1 => Address::Group(number),
        2 => Address::Unaddressed,
        _ => Address::Broadcast,
    }
}

pub fn target_kind(target: Target) -> u8
    ensures { result ≡ target_kind target }
{
    match target {
        Target::InstanceNumber(_) => 1,
        Target::InstanceGroup(_) => 2,
        Target::InstanceType(_) => 3,
        Target::FeatureAtNumber(_) => 4,
        Target::FeatureAtGroup(_) => 5,
        Target::FeatureAtType(_) => 6,
        Target::FeatureBroadcast => 7,
        Target::DeviceFeature => 8,
        Target::FeatureAtInstanceBroadcast => 9,
        Target::Device => 10,
        Target::InstanceBroadcast => 11,
    }
}

#[tactic(auto, unfolding(crate::specs::Values::field_at))]
pub fn field_at(present: u8, value: u8) -> Option<u8>
    ensures { result ≡ field_at present value }
{
    if present == 0 { None } else { Some(value) }
}

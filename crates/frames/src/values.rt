// The number of a target, and the target and the scheme of a number.
ghost use Rattle.std.specs.Prelude.{◌≡◌};
ghost use Rattle.frames.specs.Values.{target_number, target_at, scheme_at};

use crate::message::{Scheme, Target};

pub fn target_number(target: Target) -> u8
    ensures { result ≡ target_number target }
{
    match target {
        Target::InstanceNumber(n)
        | Target::InstanceGroup(n)
        | Target::InstanceType(n)
        | Target::FeatureAtNumber(n)
        | Target::FeatureAtGroup(n)
        | Target::FeatureAtType(n) => n,
        Target::FeatureBroadcast
        | Target::DeviceFeature
        | Target::FeatureAtInstanceBroadcast
        | Target::Device
        | Target::InstanceBroadcast => 0,
    }
}

#[tactic(auto, unfolding(crate::specs::Values::target_at))]
pub fn target_at(kind: u8, number: u8) -> Option<Target>
    ensures { result ≡ target_at kind number }
{
    match kind {
        1 => Some(Target::InstanceNumber(number)),
        2 => Some(Target::InstanceGroup(number)),
        3 => Some(Target::InstanceType(number)),
        4 => Some(Target::FeatureAtNumber(number)),
        5 => Some(Target::FeatureAtGroup(number)),
        6 => Some(Target::FeatureAtType(number)),
        7 => Some(Target::FeatureBroadcast),
        8 => Some(Target::DeviceFeature),
        9 => Some(Target::FeatureAtInstanceBroadcast),
        10 => Some(Target::Device),
        11 => Some(Target::InstanceBroadcast),
        _ => None,
    }
}

// Kept: what may not change: each number has a scheme (`frames:scheme_at`), which a TryFrom would not give it; the words of
// no message are refused by `words:matched`.
#[tactic(auto, unfolding(crate::specs::Values::scheme_at))]
pub fn scheme_at(number: u8) -> Scheme
    ensures { result ≡ scheme_at number }
{
    match number {
        0 => Scheme::TypeNumber,
        1 => Scheme::ShortType,
        2 => Scheme::ShortNumber,
        3 => Scheme::GroupType,
        _ => Scheme::PrimaryType,
    }
}

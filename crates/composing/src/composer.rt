// Events, composed.
ghost use Rattle.std.specs.Prelude.{◌≡◌};
ghost use Rattle.composing.specs.Compose.{or_missing, source_fits, shipped_of, or_blank, lowest_group, first_carried};
ghost use Rattle.composing.specs.Compose.{second_carried, event_by};
ghost use Rattle.composing.specs.Promises.{ComposeEventPromise, ComposePowerPromise};

use crate::source::Source;
use frames::{Message, Scheme, scheme_at, write};
use refusals::Refusal;

#[tactic(auto, unfolding(crate::specs::Compose::or_missing))]
fn or_missing(value: u8, limit: u8) -> bool
    ensures { result ≡ or_missing value limit }
{
    value < limit || value == 255
}

#[tactic(auto, unfolding(crate::specs::Compose::source_fits))]
fn source_fits(source: Source) -> bool
    ensures { result ≡ source_fits source }
{
    source.sort < 32
        && source.number < 32
        && or_missing(source.primary, 32)
        && or_missing(source.short, 64)
        && source.information < 1024
        && or_missing(source.scheme, 5)
}

// The scheme as shipped is this one number.
#[tactic(auto, unfolding(crate::specs::Compose::shipped_of))]
fn shipped(scheme: u8) -> u8
    ensures { result ≡ shipped_of scheme }
{
    if scheme == 255 { 2 } else { scheme }
}

#[tactic(auto, unfolding(crate::specs::Compose::or_blank))]
fn or_blank(value: u8) -> Option<u8>
    ensures { result ≡ or_blank value }
{
    if value == 255 { None } else { Some(value) }
}

#[tactic(auto, unfolding(crate::specs::Compose::lowest_group))]
fn lowest_group(groups: u32) -> Option<u8>
    ensures { result ≡ lowest_group groups }
{
    if groups == 0 {
        None
    } else {
        Some(groups.trailing_zeros() as u8)
    }
}

fn first_carried(scheme: Scheme, source: Source) -> Option<u8>
    ensures { result ≡ first_carried scheme source }
{
    match scheme {
        Scheme::TypeNumber => Some(source.sort),
        Scheme::ShortType | Scheme::ShortNumber => or_blank(source.short),
        Scheme::GroupType => lowest_group(source.groups),
        Scheme::PrimaryType => or_blank(source.primary),
    }
}

fn second_carried(scheme: Scheme, source: Source) -> u8
    ensures { result ≡ second_carried scheme source }
{
    match scheme {
        Scheme::TypeNumber | Scheme::ShortNumber => source.number,
        Scheme::ShortType | Scheme::GroupType | Scheme::PrimaryType => source.sort,
    }
}

// A scheme whose field is missing falls back to the type and the number.
#[tactic(auto, unfolding(crate::specs::Compose::event_by))]
fn event_by(source: Source) -> Message
    ensures { result ≡ event_by source }
{
    let scheme = scheme_at(shipped(source.scheme));
    let (scheme, first, second) = match first_carried(scheme, source) {
        Some(first) => (scheme, first, second_carried(scheme, source)),
        None => (Scheme::TypeNumber, source.sort, source.number),
    };
    Message::Event(scheme, first, second, source.information)
}

#[tactic(auto, unfolding(crate::specs::Compose::compose_of))]
pub fn compose_event(source: Source) -> Result<u32, Refusal>
    ensures { ComposeEventPromise source result }
{
    if !source_fits(source) {
        return Err(Refusal::OutOfRange);
    }
    write(event_by(source))
}

#[tactic(auto, unfolding(crate::specs::Compose::compose_power_of, crate::specs::Compose::power_fits))]
pub fn compose_power(short: u8, groups: u32) -> Result<u32, Refusal>
    ensures { ComposePowerPromise short groups result }
{
    if !or_missing(short, 64) {
        return Err(Refusal::OutOfRange);
    }
    write(Message::Power(lowest_group(groups), or_blank(short)))
}

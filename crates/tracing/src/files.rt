// The files that a trace starts from.
ghost use Rattle.refusals.specs.Numbers.{number_in};
ghost use Rattle.tracing.specs.Promises.{WhoOfPromise, CheckFilesPromise};

use entries::four_bytes;
use hearing::Who;
use refusals::Refusal;

// unit.adr: address, then 32 group bits, high byte first.
#[tactic(auto, unfolding(crate::specs::Trace::who_of))]
pub fn who_of(adr: &[u8]) -> Who
    ensures { WhoOfPromise adr.now result }
{
    let byte = |i: usize| adr.get(i).copied().unwrap_or(0);
    Who {
        address: byte(0),
        groups: four_bytes(byte(1), byte(2), byte(3), byte(4)),
    }
}

// 7 to 11, then 6, which a wrong length of unit.adr is too.
#[tactic(auto, using(crate::proofs::Starts::checks_refuse, crate::proofs::Starts::adr_decides))]
pub fn check_files(map: &[u8], store: &[u8], image: &[u8], adr: &[u8]) -> Result<(), Refusal>
    ensures { CheckFilesPromise map.now store.now image.now adr.now (number_in result) }
{
    banks::check(map, store, image)?;
    let holds = rooms::address_holds(who_of(adr).address);
    if (adr.len() == 5) & holds {
        Ok(())
    } else {
        Err(Refusal::OutOfRange)
    }
}

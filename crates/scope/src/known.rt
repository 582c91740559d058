// Which objects a catalogue has.
ghost use Rattle.std.specs.Prelude.{◌≡◌};
ghost use Rattle.elf.specs.Refusals.{answer};
ghost use Rattle.scope.specs.Orders.{unknown};

use catalogue::catalogue::Catalogue;
use elf::refusal::Refusal;

// Refuses an object past the end of a catalogue.
pub fn check_known<C: Catalogue>(catalogue: &C, object: u16) -> Result<(), Refusal>
    ensures { result ≡ answer (unknown (C.Catalogue.meaning catalogue.now) object) tt }
{
    if usize::from(object) < catalogue.count() {
        Ok(())
    } else {
        Err(Refusal::Unknown {
            object: usize::from(object),
        })
    }
}

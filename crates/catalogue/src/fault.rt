// Why a catalogue could not be read.
ghost use Rattle.std.specs.Prelude.{◌≡◌};
ghost use Rattle.catalogue.specs.declared.fault.Fault.TheVariants.{Refused as Told, Memory};

use elf::refusal::Refusal;
use std::alloc::{AllocError, AllocFailed};

// A refusal of what was read, or want of memory, which says nothing of it.
#[derive(Clone, Copy, Debug)]
pub enum Fault {
    Refused(Refusal),
    Memory(AllocError),
}

impl From<Refusal> for Fault {
    ghost from_gives = { λ e r. r ≡ Told e };

    fn from(refusal: Refusal) -> Fault {
        Fault::Refused(refusal)
    }
}

impl From<AllocError> for Fault {
    ghost from_gives = { λ e r. r ≡ Memory e };

    fn from(error: AllocError) -> Fault {
        Fault::Memory(error)
    }
}

impl<T: Drop> From<AllocFailed<T>> for Fault {
    ghost from_gives = { λ _ r. (e : _) × (r ≡ Memory e) };

    fn from(error: AllocFailed<T>) -> Fault {
        Fault::Memory(AllocError::from(error))
    }
}

// Why a design isn't played.
ghost use Rattle.std.specs.Prelude.{◌≡◌};
ghost use Rattle.player.specs.declared.fault.Fault.TheVariants.{Memory, Turned};

use design::refusal::Refusal;
use std::alloc::{AllocError, AllocFailed};

#[derive(Clone, Copy, PartialEq, Eq, Debug)]
pub enum Fault {
    // there is no memory left
    Memory,
    // the design isn't sound
    Turned(Refusal),
}

impl From<AllocError> for Fault {
    ghost from_gives = { λ _ fault. fault ≡ Memory };

    fn from(_: AllocError) -> Fault {
        Fault::Memory
    }
}

impl<T: Drop> From<AllocFailed<T>> for Fault {
    ghost from_gives = { λ _ fault. fault ≡ Memory };

    fn from(failed: AllocFailed<T>) -> Fault {
        Fault::from(AllocError::from(failed))
    }
}

impl From<Refusal> for Fault {
    ghost from_gives = { λ refusal fault. fault ≡ Turned refusal };

    fn from(refusal: Refusal) -> Fault {
        Fault::Turned(refusal)
    }
}

// Why a design isn't put on a fabric. The player's `Fault` is alike; one type for both would be a public one of a crate below both, which is
// no plainer.
ghost use Rattle.std.specs.Prelude.{◌≡◌};
ghost use Rattle.putting.specs.declared.unput.Unput.TheVariants.{Memory, Turned};

use design::refusal::Refusal;
use std::alloc::{AllocError, AllocFailed};

#[derive(Clone, Copy, PartialEq, Eq, Debug)]
pub enum Unput {
    // there is no memory left
    Memory,
    // the design or the fabric is turned away
    Turned(Refusal),
}

impl From<AllocError> for Unput {
    ghost from_gives = { λ _ u. u ≡ Memory };

    fn from(_: AllocError) -> Unput {
        Unput::Memory
    }
}

impl<T: Drop> From<AllocFailed<T>> for Unput {
    ghost from_gives = { λ _ u. u ≡ Memory };

    fn from(failed: AllocFailed<T>) -> Unput {
        Unput::from(AllocError::from(failed))
    }
}

impl From<Refusal> for Unput {
    ghost from_gives = { λ e u. u ≡ Turned e };

    fn from(refusal: Refusal) -> Unput {
        Unput::Turned(refusal)
    }
}

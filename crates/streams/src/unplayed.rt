// Why a stream isn't played. An enum for each crate whose callers match on it, as small as its reasons.
ghost use Rattle.std.specs.Prelude.{◌≡◌};
ghost use Rattle.streams.specs.declared.unplayed.Unplayed.TheVariants.{Memory, Turned};

use design::refusal::Refusal;
use std::alloc::{AllocError, AllocFailed};

#[derive(Clone, Copy, PartialEq, Eq, Debug)]
pub enum Unplayed {
    // there is no memory left
    Memory,
    // a line, counted from 0, that can't be read
    Line(usize),
    // the fabric can't be ticked
    Turned(Refusal),
}

impl From<AllocError> for Unplayed {
    ghost from_gives = { λ _ u. u ≡ Memory };

    fn from(_: AllocError) -> Unplayed {
        Unplayed::Memory
    }
}

impl<T: Drop> From<AllocFailed<T>> for Unplayed {
    ghost from_gives = { λ _ u. u ≡ Memory };

    fn from(failed: AllocFailed<T>) -> Unplayed {
        Unplayed::from(AllocError::from(failed))
    }
}

impl From<Refusal> for Unplayed {
    ghost from_gives = { λ e u. u ≡ Turned e };

    fn from(refusal: Refusal) -> Unplayed {
        Unplayed::Turned(refusal)
    }
}

// Why a listing isn't read.
ghost use Rattle.std.specs.Prelude.{◌≡◌, true};
ghost use Rattle.reading.specs.declared.unread.Unread.TheVariants.{Memory, Size, Line};

use design::refusal::Refusal;
use std::alloc::{AllocError, AllocFailed};

#[derive(Clone, Copy, PartialEq, Eq, Debug)]
pub enum Unread {
    // there is no memory left
    Memory,
    // there is no fabric of the size that the first line says
    Size(Refusal),
    // a line, counted from 0, that can't be read; it is formed as lines of a listing are and can't stand there, or else it isn't;
    // one variant with a flag, since both are the same refusal of that line: two variants would be no plainer
    Line { line: usize, formed: bool },
}

impl Unread {
    // A line that is formed as lines of a listing are and can't stand there.
    pub(crate) fn misplaced(line: usize) -> Unread
        ensures { result ≡ Line line true }
    {
        Unread::Line { line, formed: true }
    }
}

impl From<AllocError> for Unread {
    ghost from_gives = { λ _ r. r ≡ Memory };

    fn from(_: AllocError) -> Unread {
        Unread::Memory
    }
}

impl<T: Drop> From<AllocFailed<T>> for Unread {
    ghost from_gives = { λ _ r. r ≡ Memory };

    fn from(failed: AllocFailed<T>) -> Unread {
        Unread::from(AllocError::from(failed))
    }
}

impl From<Refusal> for Unread {
    ghost from_gives = { λ e r. r ≡ Size e };

    fn from(refusal: Refusal) -> Unread {
        Unread::Size(refusal)
    }
}

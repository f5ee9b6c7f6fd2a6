//! Where the items of a class file may stand.

ghost use Rattle.std.specs.Prelude.{◌≡◌};
ghost use Rattle.pv_format.specs.declared.stopped.Stopped.TheVariants.{Failed};
ghost use Rattle.pv_class.specs.Grammars.{failure, short};
ghost use Rattle.pv_class.specs.ClassGrammar.{in_code};

use crate::fault::{Cause, Failure, Stop};

/// Where an item may stand: at least `after` bytes of the file come after it. `code` says how many
/// are left where the Code attribute begins whose end this is.
#[derive(Clone, Copy)]
pub(crate) struct Room {
    pub after: usize,
    pub code: Option<usize>,
}

/// Up to the end of the file.
pub(crate) const IN_FILE: Room = Room {
    after: 0,
    code: None,
};

impl Room {
    /// In a Code attribute that begins where `start` bytes are left, with contents of `size` bytes
    /// where `left` are; up to the end of the file where that comes first.
    pub(crate) fn in_code(start: usize, size: usize, left: usize) -> Room
        ensures { result ≡ in_code start size left }
    {
        if size <= left {
            Room {
                after: left - size,
                code: Some(start),
            }
        } else {
            IN_FILE
        }
    }

    /// How an item fails that doesn't fit, where `left` bytes are left.
    pub(crate) fn short(self, left: usize) -> Stop
        ensures { result ≡ Failed (short self left) }
    {
        match self.code {
            None => failed(Cause::Truncated, left),
            Some(start) => failed(Cause::Code, start),
        }
    }
}

/// A failure where `left` bytes are left.
pub(crate) fn failed(cause: Cause, left: usize) -> Stop
    ensures { result ≡ Failed (failure cause left) }
{
    Stop::Failed(Failure { cause, left })
}

ghost use Rattle.std.specs.Prelude.{◌≡◌};
ghost use Rattle.tez_plain.specs.declared.fault.PlainFault.TheVariants.{NoMemory};

use std::alloc::AllocError;
use tez_record::Record;

/// Why a program gave no value.
#[derive(Drop)]
pub enum PlainFault {
    /// A field is no number: the least such record of the head, or else of the first step that
    /// has one.
    BadRecord(Record),
    NoMemory,
}

impl From<AllocError> for PlainFault {
    ghost from_gives = { λ _ fault. fault ≡ NoMemory };

    fn from(_refused: AllocError) -> PlainFault {
        PlainFault::NoMemory
    }
}

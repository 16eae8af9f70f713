// The least record.
ghost use Rattle.std.specs.Prelude.{◌≡◌, None, IfOk};
ghost use Rattle.tez_record.specs.Bag.{sort, first_or};

use crate::owned::Record;
use crate::records::Records;
use std::alloc::{AllocError, Global};

/// The least of these records in byte order, if there is one. It sorts them.
pub fn least(alloc: Global, records: &Records) -> Result<Option<Record>, AllocError>
    ensures { IfOk result (λ least. least ≡ first_or (sort records.now) None) }
{
    let bag = records.sorted(alloc)?;
    match bag.iter().next() {
        Some(line) => Ok(Some(Record::copy_of(alloc, line)?)),
        None => Ok(None),
    }
}

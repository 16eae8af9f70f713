ghost use Rattle.std.specs.Prelude.{◌≡◌, ◌≤◌, ◌<◌, ◌⊎◌, ℕ, List, Option, Some, None, length, IfOk, OnErr, IsSome, IsSomeAnd, IsErrOf};
ghost use Rattle.tez_ports.specs.Causes.{Rose, ReadHasCause};
ghost use Rattle.tez_ports.specs.Content.{Named, Told, bytes_of};

use crate::ReadFault;
use std::alloc::Global;

/// Files that are read whole, by name.
pub trait InputFiles {
    /// Names and their bytes, where told.
    ghost files: { Self → Option Named };

    /// How often a read has failed.
    ghost faults: { Self → ℕ };

    /// The name of the last read that answered Failed, empty before the first.
    ghost failed: { Self → List ℕ };

    /// It tells what it holds, and never answers Failed.
    ghost is_sure: { Self → Type 0 };

    /// The whole content of a file, where it is at most `limit` bytes long. The time and the memory
    /// grow with the content up to the limit.
    fn read(&mut self, alloc: Global, name: &str, limit: u64) -> Result<Vec<u8>, ReadFault>
        ensures same { files self.new ≡ files self.old }
        ensures whole { IfOk result (λ v. Told (files self.old) (λ m. bytes_of name.now m ≡ Some v.items)) }
        ensures fits { IfOk result (λ v. length v.items ≤ limit) }
        ensures missing { IsErrOf result ReadFault.Missing
            → Told (files self.old) (λ m. bytes_of name.now m ≡ None) }
        ensures too_large { IsErrOf result ReadFault.TooLarge
            → Told (files self.old) (λ m. IsSomeAnd (bytes_of name.now m) (λ bytes. limit < length bytes)) }
        ensures cause { ReadHasCause (faults self.old) (faults self.new) result }
        ensures failed_name { IsErrOf result ReadFault.Failed → failed self.new ≡ name.now }
        ensures failed_same { (IsErrOf result ReadFault.Failed) ⊎ (failed self.new ≡ failed self.old) }
        ensures stays_sure { is_sure self.old → is_sure self.new }
        ensures sure { is_sure self.old → IsErrOf result ReadFault.Failed → ⊥ };

    /// Sure files tell what they hold.
    ghost sure_tells: { (s : Self) → is_sure s → IsSome (files s) };
}

impl<T: InputFiles> InputFiles for &mut T {
    ghost files = { λ s. T.files s.now };

    ghost faults = { λ s. T.faults s.now };

    ghost failed = { λ s. T.failed s.now };

    ghost is_sure = { λ s. T.is_sure s.now };

    fn read(&mut self, alloc: Global, name: &str, limit: u64) -> Result<Vec<u8>, ReadFault> {
        (**self).read(alloc, name, limit)
    }

    ghost sure_tells = { λ s h. T.sure_tells s.now h };
}

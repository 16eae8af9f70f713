// The input files of a run.
ghost use Rattle.std.specs.Prelude.{◌≡◌, ◌≤◌, ◌≢◌, ◌⊎◌, ℕ, List, length, IfOk, IfErr};
ghost use Rattle.tez_ports.specs.Content.{Told};
ghost use Rattle.tez_am.specs.Call.{reads_of};
ghost use Rattle.tez_am.specs.Accept.{content, IsContent};
ghost use Rattle.tez_am.specs.Cause.{Refusal};

use crate::status::Status;
use std::alloc::Global;
use tez_ids::Name;
use tez_ports::{InputFiles, ReadFault};

/// The bytes of an input.
pub fn input<F: InputFiles>(
    alloc: Global,
    files: &mut F,
    name: &str,
    limit: u64,
) -> Result<Vec<u8>, Status>
    ensures same { F.files files.new ≡ F.files files.old }
    ensures later { F.faults files.old ≤ F.faults files.new }
    ensures stays_sure { F.is_sure files.old → F.is_sure files.new }
    ensures fits { IfOk result (λ v. length v.items ≤ limit) }
    ensures bytes { IfOk result (λ v. Told (F.files files.old) (λ m. content name.now limit m ≡ Ok v.items)) }
    ensures refusal { IfErr result
        (Refusal (IsContent name.now limit) (reads_of F.files F.faults F.failed files.old files.new)) }
    ensures sure { F.is_sure files.old → IfErr result (λ s. (n : List ℕ) → s ≢ Status.InputFault n) }
{
    match files.read(alloc, name, limit) {
        Ok(bytes) => Ok(bytes),
        Err(ReadFault::Missing) => Err(missing(alloc, name)),
        Err(ReadFault::TooLarge) => Err(too_large(alloc, name)),
        Err(ReadFault::Failed) => Err(failed(alloc, name)),
        Err(ReadFault::NoMemory) => Err(Status::NoMemory),
    }
}

fn missing(alloc: Global, name: &str) -> Status
    ensures { (result ≡ Status.InputMissing name.now) ⊎ (result ≡ Status.NoMemory) }
{
    match Name::copy_of(alloc, name) {
        Ok(name) => Status::InputMissing(name),
        Err(_) => Status::NoMemory,
    }
}

fn too_large(alloc: Global, name: &str) -> Status
    ensures { (result ≡ Status.InputTooLarge name.now) ⊎ (result ≡ Status.NoMemory) }
{
    match Name::copy_of(alloc, name) {
        Ok(name) => Status::InputTooLarge(name),
        Err(_) => Status::NoMemory,
    }
}

fn failed(alloc: Global, name: &str) -> Status
    ensures { (result ≡ Status.InputFault name.now) ⊎ (result ≡ Status.NoMemory) }
{
    match Name::copy_of(alloc, name) {
        Ok(name) => Status::InputFault(name),
        Err(_) => Status::NoMemory,
    }
}

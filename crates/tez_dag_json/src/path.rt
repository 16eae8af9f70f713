ghost use Rattle.std.specs.Prelude.{◌≡◌, ◌≢◌, IfOk, string_bytes};
ghost use Rattle.tez_dag_json.specs.declared.fault.DagFault.TheVariants.{NoMemory, Shape, OutOfRange};
ghost use Rattle.tez_dag_json.specs.Paths.{at_key, at_place, shown};

use crate::fault::DagFault;
use std::alloc::{AllocError, Global};
use tez_ids::Name;

/// The path of a key of the object at a path.
pub(crate) fn key_path(alloc: Global, path: &str, key: &str) -> Result<String, AllocError>
    ensures { IfOk result (λ s. string_bytes s ≡ at_key path.now key.now) }
{
    if path.is_empty() {
        return String::from_str(alloc, key);
    }
    let mut joined = String::from_str(alloc, path)?;
    joined.push_str(".")?;
    joined.push_str(key)?;
    Ok(joined)
}

/// The path of an element of the list at a path.
pub(crate) fn place_path(alloc: Global, path: &str, place: usize) -> Result<String, AllocError>
    ensures { IfOk result (λ s. string_bytes s ≡ at_place path.now place) }
{
    let mut joined = String::from_str(alloc, path)?;
    joined.push_str("[")?;
    joined.push_str(format!(in alloc; "{place}")?.as_str())?;
    joined.push_str("]")?;
    Ok(joined)
}

/// A path as messages show it.
fn shown_path(alloc: Global, path: &str) -> Result<Name, AllocError>
    ensures { IfOk result (λ s. s ≡ shown path.now) }
{
    if path.is_empty() {
        Name::copy_of(alloc, ".")
    } else {
        Name::copy_of(alloc, path)
    }
}

/// The fault of a value of the wrong kind.
pub(crate) fn shape(alloc: Global, path: &str) -> DagFault
    ensures { result ≢ NoMemory → result ≡ Shape (shown path.now) }
{
    match shown_path(alloc, path) {
        Ok(path) => DagFault::Shape { path },
        Err(AllocError) => DagFault::NoMemory,
    }
}

/// The fault of a value outside its range.
pub(crate) fn out_of_range(alloc: Global, path: &str) -> DagFault
    ensures { result ≢ NoMemory → result ≡ OutOfRange (shown path.now) }
{
    match shown_path(alloc, path) {
        Ok(key) => DagFault::OutOfRange { key },
        Err(AllocError) => DagFault::NoMemory,
    }
}

/// The fault of a key that is missing or of the wrong kind.
pub(crate) fn shape_at(alloc: Global, path: &str, key: &str) -> DagFault
    ensures { result ≢ NoMemory → result ≡ Shape (shown (at_key path.now key.now)) }
{
    match key_path(alloc, path, key) {
        Ok(path) => shape(alloc, path.as_str()),
        Err(AllocError) => DagFault::NoMemory,
    }
}

/// The fault of a key whose value is outside its range.
pub(crate) fn out_of_range_at(alloc: Global, path: &str, key: &str) -> DagFault
    ensures { result ≢ NoMemory → result ≡ OutOfRange (shown (at_key path.now key.now)) }
{
    match key_path(alloc, path, key) {
        Ok(path) => out_of_range(alloc, path.as_str()),
        Err(AllocError) => DagFault::NoMemory,
    }
}

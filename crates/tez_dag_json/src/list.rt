ghost use Rattle.std.specs.Prelude.{◌≡◌, ℕ, List, Bool, IfOk, IsTrue, length};
ghost use Rattle.std.specs.List.{list_all};
ghost use Rattle.serde_json.specs.View.{view, items_view};
ghost use Rattle.tez_plan.specs.Ranges.{is_within as within, is_column, are_columns};
ghost use Rattle.tez_dag_json.specs.Answers.{Reads, ReadsAs};
ghost use Rattle.tez_dag_json.specs.Places.{reading};
ghost use Rattle.tez_dag_json.specs.Kinds.{Reader, each, list as list_of, list_within as list_of_length, required};
ghost use Rattle.tez_dag_json.specs.Form.{column, columns as columns_of};

use crate::fault::DagFault;
use crate::kinds::{At, integer};
use crate::path;
use serde_json::Value;
use tez_plan::Columns;

/// What stands as an element of a list of the file.
pub(crate) trait Element: Sized + Drop {
    ghost reader: { Reader Self };

    ghost is_in_range: { Self → Bool };

    fn read(at: &At<'_>) -> Result<Self, DagFault>
        ensures reads { Reads result (reading reader at.now) }
        ensures in_range { IfOk result (λ x. IsTrue (is_in_range x)) };
}

/// The elements of a list.
fn elements<T: Element>(at: &At<'_>, items: &Vec<Value>) -> Result<Vec<T>, DagFault>
    ensures reads { ReadsAs (λ v. v.items) result (each T.reader at.now.path.now 0 (items_view items.now.items)) }
    ensures in_range { IfOk result (λ v. IsTrue (list_all T.is_in_range v.items)) }
    ensures count { IfOk result (λ v. length v.items ≡ length items.now.items) }
{
    let mut elements = Vec::new(at.alloc);
    for (place, value) in items.iter().enumerate() {
        let path = path::place_path(at.alloc, at.path, place)?;
        let here = At {
            alloc: at.alloc,
            path: path.as_str(),
            value,
        };
        let element = T::read(&here)?;
        elements.push(element)?;
    }
    Ok(elements)
}

/// A list of any length.
pub(crate) fn list<T: Element>(at: &At<'_>) -> Result<Vec<T>, DagFault>
    ensures reads { ReadsAs (λ v. v.items) result (reading (list_of T.reader) at.now) }
    ensures in_range { IfOk result (λ v. IsTrue (list_all T.is_in_range v.items)) }
{
    match at.value.as_array() {
        Some(items) => elements(at, items),
        None => Err(path::shape(at.alloc, at.path)),
    }
}

fn is_within(low: usize, high: usize, count: usize) -> bool
    ensures { result ≡ within low high count }
{
    low <= count && count <= high
}

/// A list with `low` to `high` elements.
#[tactic(auto, using(crate::proofs::Texts::length_of_items))]
pub(crate) fn list_within<T: Element>(
    at: &At<'_>,
    low: usize,
    high: usize,
) -> Result<Vec<T>, DagFault>
    ensures reads { ReadsAs (λ v. v.items) result (reading (list_of_length low high T.reader) at.now) }
    ensures in_range { IfOk result (λ v. IsTrue (list_all T.is_in_range v.items)) }
    ensures length { IfOk result (λ v. IsTrue (within low high (length v.items))) }
{
    let Some(items) = at.value.as_array() else {
        return Err(path::shape(at.alloc, at.path));
    };
    if !is_within(low, high, items.len()) {
        return Err(path::out_of_range(at.alloc, at.path));
    }
    elements(at, items)
}

/// A column.
impl Element for u16 {
    ghost reader = { column };

    ghost is_in_range = { is_column };

    fn read(at: &At<'_>) -> Result<u16, DagFault> {
        let Some(number) = integer(at.value) else {
            return Err(path::shape(at.alloc, at.path));
        };
        if 0 <= number && number <= 255 {
            Ok(number as u16)
        } else {
            Err(path::out_of_range(at.alloc, at.path))
        }
    }
}

/// The columns at a key.
pub(crate) fn columns(at: &At<'_>, key: &str) -> Result<Columns, DagFault>
    ensures reads { Reads result (reading (required key.now columns_of) at.now) }
    ensures in_range { IfOk result (λ cols. IsTrue (are_columns cols)) }
{
    let Some(value) = at.value.get(key) else {
        return Err(at.shape(key));
    };
    let path = path::key_path(at.alloc, at.path, key)?;
    let here = At {
        alloc: at.alloc,
        path: path.as_str(),
        value,
    };
    Ok(Columns::new(list_within(&here, 1, 8)?))
}

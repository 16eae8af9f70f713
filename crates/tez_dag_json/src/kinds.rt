ghost use Rattle.std.specs.Prelude.{map, ◌≡◌, ◌≢◌, ◌≤◌, ℕ, IfOk, IfSome, IsTrue, Some, None, MatchResult, string_bytes, option_and_then};
ghost use Rattle.std.specs.List.{list_any};
ghost use Rattle.std.specs.Str.{bytes_eq};
ghost use Rattle.serde_json.specs.View.{view, members_view};
ghost use Rattle.serde_json.specs.Find.{as_integer, as_number};
ghost use Rattle.tez_plan.specs.Ranges.{is_within, is_name, is_file, is_sink, is_number, is_filter_text};
ghost use Rattle.tez_dag_json.specs.Answers.{Reads, ReadsAs};
ghost use Rattle.tez_dag_json.specs.Places.{reading};
ghost use Rattle.tez_dag_json.specs.Paths.{shown, at_key};
ghost use Rattle.tez_dag_json.specs.Kinds.{an_object, required, defaulted, optional, absent, no_others, members_among, text, text_of, word, whole, number, flag, integer as integer_of};
ghost use Rattle.tez_dag_json.specs.declared.fault.DagFault.TheVariants.{NoMemory, Shape, OutOfRange};

use crate::fault::DagFault;
use crate::{path, words};
use serde_json::{Map, Value};
use std::alloc::Global;
use tez_ids::{Bytes, Name};

/// A value of the file, with its path.
#[derive(Clone, Copy)]
pub(crate) struct At<'v> {
    pub alloc: Global,
    pub path: &'v str,
    pub value: &'v Value,
}

/// The whole number that a value is.
pub(crate) fn integer(value: &Value) -> Option<i128>
    ensures { result ≡ integer_of (view value.now) }
{
    value.as_number()?.as_i128()
}

fn is_one_of(name: &str, keys: &[&str]) -> bool
    ensures { result ≡ list_any (λ key. bytes_eq name.now key.now) keys.now }
{
    keys.iter().any(|key| name == *key)
}

#[tactic(auto, using(crate::proofs::Texts::any_of_map))]
fn have_only(members: &Map<String, Value>, keys: &[&str]) -> bool
    ensures { result ≡ members_among (map (λ key. key.now) keys.now) (members_view members.now.entries) }
{
    for (name, _) in members.iter() {
        if !is_one_of(name.as_str(), keys) {
            return false;
        }
    }
    true
}

impl<'v> At<'v> {
    /// The fault of a key that is missing, or whose value is of the wrong kind.
    pub fn shape(&self, key: &str) -> DagFault
        ensures { result ≢ NoMemory → result ≡ Shape (shown (at_key self.now.path.now key.now)) }
    {
        path::shape_at(self.alloc, self.path, key)
    }

    /// The fault of a key whose value is outside its range.
    pub fn out_of_range(&self, key: &str) -> DagFault
        ensures { result ≢ NoMemory → result ≡ OutOfRange (shown (at_key self.now.path.now key.now)) }
    {
        path::out_of_range_at(self.alloc, self.path, key)
    }

    /// Refuses what is no object.
    pub fn object(&self) -> Result<(), DagFault>
        ensures { Reads result (reading an_object self.now) }
    {
        if self.value.is_object() {
            Ok(())
        } else {
            Err(path::shape(self.alloc, self.path))
        }
    }

    /// Refuses an object that has a key beside these.
    pub fn no_others(&self, keys: &[&str]) -> Result<(), DagFault>
        ensures { Reads result (reading (no_others (map (λ key. key.now) keys.now)) self.now) }
    {
        match self.value.as_object() {
            Some(members) if have_only(members, keys) => Ok(()),
            _ => Err(path::shape(self.alloc, self.path)),
        }
    }

    /// Refuses an object that has the key.
    pub fn absent(&self, key: &str) -> Result<(), DagFault>
        ensures { Reads result (reading (absent key.now) self.now) }
    {
        match self.value.get(key) {
            None => Ok(()),
            Some(_) => Err(self.shape(key)),
        }
    }

    /// The text at a key.
    pub fn text(&self, key: &str) -> Result<&'v str, DagFault>
        ensures { ReadsAs (λ s. s.now) result (reading (required key.now text) self.now) }
    {
        match self.value.get(key).and_then(Value::as_str) {
            Some(text) => Ok(text),
            None => Err(self.shape(key)),
        }
    }

    /// The text at a key, of at most 255 bytes.
    #[tactic(auto, using(crate::proofs::Texts::filter_text_fits))]
    pub fn filter_text(&self, key: &str) -> Result<Bytes, DagFault>
        ensures reads { Reads result (reading (required key.now (text_of 255)) self.now) }
        ensures in_range { IfOk result (λ text. IsTrue (is_filter_text text)) }
    {
        let text = self.text(key)?;
        if text.len() > 255 {
            return Err(self.out_of_range(key));
        }
        let bytes = Vec::from_slice(self.alloc, text.as_bytes())?;
        Ok(Bytes::new(bytes))
    }

    /// The name at a key.
    pub fn name(&self, key: &str) -> Result<Name, DagFault>
        ensures reads { Reads result (reading (required key.now (word is_name)) self.now) }
        ensures in_range { IfOk result (λ name. IsTrue (is_name name)) }
    {
        match self.value.get(key).and_then(Value::as_str) {
            Some(text) if words::may_name(text) => Ok(Name::copy_of(self.alloc, text)?),
            _ => Err(self.shape(key)),
        }
    }

    /// The file at a key, if there is one.
    pub fn file(&self, key: &str) -> Result<Option<Name>, DagFault>
        ensures reads { Reads result (reading (optional key.now (word is_file)) self.now) }
        ensures in_range { IfOk result (λ file. IfSome file (λ name. IsTrue (is_file name))) }
    {
        let Some(found) = self.value.get(key) else {
            return Ok(None);
        };
        match found.as_str() {
            Some(text) if words::may_be_file(text) => Ok(Some(Name::copy_of(self.alloc, text)?)),
            _ => Err(self.shape(key)),
        }
    }

    /// The sink at a key, if there is one.
    pub fn sink(&self, key: &str) -> Result<Option<Name>, DagFault>
        ensures reads { Reads result (reading (optional key.now (word is_sink)) self.now) }
        ensures in_range { IfOk result (λ sink. IfSome sink (λ name. IsTrue (is_sink name))) }
    {
        let Some(found) = self.value.get(key) else {
            return Ok(None);
        };
        match found.as_str() {
            Some(text) if words::may_be_sink(text) => Ok(Some(Name::copy_of(self.alloc, text)?)),
            _ => Err(self.shape(key)),
        }
    }

    /// The whole number at a key, from `low` to `high`.
    pub fn whole(&self, key: &str, low: u64, high: u64) -> Result<u64, DagFault>
        ensures reads { Reads result (reading (required key.now (whole low high)) self.now) }
        ensures in_range { IfOk result (λ n. IsTrue (is_within low high n)) }
    {
        let Some(number) = self.value.get(key).and_then(integer) else {
            return Err(self.shape(key));
        };
        if low as i128 <= number && number <= high as i128 {
            Ok(number as u64)
        } else {
            Err(self.out_of_range(key))
        }
    }

    /// The whole number at a key, from `low` to `high`, or `missing` where there is no such key.
    pub fn whole_or(&self, key: &str, missing: u64, low: u64, high: u64) -> Result<u64, DagFault>
        requires { IsTrue (is_within low high missing) }
        ensures reads { Reads result (reading (defaulted key.now missing (whole low high)) self.now) }
        ensures in_range { IfOk result (λ n. IsTrue (is_within low high n)) }
    {
        if self.value.get(key).is_some() {
            self.whole(key, low, high)
        } else {
            Ok(missing)
        }
    }

    /// The number at a key, of at most 18 digits.
    pub fn number(&self, key: &str) -> Result<i64, DagFault>
        ensures reads { Reads result (reading (required key.now number) self.now) }
        ensures in_range { IfOk result (λ n. IsTrue (is_number n)) }
    {
        let Some(number) = self.value.get(key).and_then(integer) else {
            return Err(self.shape(key));
        };
        if -999_999_999_999_999_999 <= number && number <= 999_999_999_999_999_999 {
            Ok(number as i64)
        } else {
            Err(self.out_of_range(key))
        }
    }

    /// The flag at a key, or `missing` where there is no such key.
    pub fn flag_or(&self, key: &str, missing: bool) -> Result<bool, DagFault>
        ensures { Reads result (reading (defaulted key.now missing flag) self.now) }
    {
        let Some(found) = self.value.get(key) else {
            return Ok(missing);
        };
        match found.as_bool() {
            Some(flag) => Ok(flag),
            None => Err(self.shape(key)),
        }
    }
}

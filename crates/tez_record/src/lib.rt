//! Records, their fields and keys, the lines of a text, and bags of records.
#![tactic(auto)]

mod block;
mod fields;
mod find;
mod first;
mod owned;
mod records;
mod sort_key;

ghost use Rattle.std.specs.Prelude.{◌≡◌, ℕ, List, IsSorted, count_by};
ghost use Rattle.std.specs.List.{AllByRecursion};
ghost use Rattle.std.specs.Str.{bytes_eq};
ghost use Rattle.tez_record.specs.Line.{lines, IsRecord};
ghost use Rattle.tez_record.specs.Bag.{compare, sort, text};

pub use fields::{field, key, number, number_of, push_key};
pub use find::contains;
pub use first::least;
pub use owned::{Record, is_record};
pub use records::{Iter, Records, bag_sort, bag_text, lines, lines_of};

/// The lines of the text of records are these records.
pub fn text_has_its_lines()
    ensures { (bag : List (List ℕ)) → AllByRecursion IsRecord bag → lines (text bag) ≡ bag }
{}

/// The bag of records is in byte order and has each of them as often as they do, and records that
/// have each record equally often have one bag.
pub fn bag_is_the_records_in_order()
    ensures order { (rs : List (List ℕ)) → IsSorted compare (sort rs) }
    ensures counts { (rs : List (List ℕ)) (r : List ℕ) → count_by (bytes_eq r) (sort rs) ≡ count_by (bytes_eq r) rs }
    ensures one { (rs ss : List (List ℕ)) → ((r : List ℕ) → count_by (bytes_eq r) rs ≡ count_by (bytes_eq r) ss) → sort rs ≡ sort ss }
{}

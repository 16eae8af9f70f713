//! The commit of a sink: its text is made of what attempts staged and put aside, and then published.
#![tactic(auto)]

ghost use Rattle.std.specs.Prelude.{◌≡◌, ℕ, List, [], ◌∷◌, ◌++◌, Some};
ghost use Rattle.std.specs.List.{AllByRecursion, flat_map};
ghost use Rattle.tez_ids.specs.declared.AttemptId.{AttemptId};
ghost use Rattle.tez_record.specs.Line.{IsRecord};
ghost use Rattle.tez_record.specs.Bag.{sort, text};
ghost use Rattle.tez_ports.specs.Content.{Staged, Store, publishes, staged_at};
ghost use Rattle.tez_commit.specs.Merge.{merged, prepares};

mod publish;
mod sink;

pub use publish::publish_next;
pub use sink::{Prepared, prepare};

/// A sink that is prepared and then published is the last publication, once, with the merged text.
pub fn prepared_is_published()
    ensures { (winners : List AttemptId) (name : List ℕ) (s : Store)
        → (publishes name (prepares winners name s)).publications
        ≡ s.publications ++ (name, text (merged s.staged winners)) ∷ [] }
{}

/// Where each attempt staged the text of its records, the merge is the bag of all these records.
pub fn merge_of_staged_values()
    ensures { (staged : Staged) (winners : List AttemptId) (value : AttemptId → List (List ℕ))
        → AllByRecursion (λ a. AllByRecursion IsRecord (value a) × (staged_at a staged ≡ Some (text (value a)))) winners
        → merged staged winners ≡ sort (flat_map value winners) }
{}

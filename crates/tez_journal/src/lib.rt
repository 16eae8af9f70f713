//! A journal on a disk: records behind gates. An entry counts where its gate is open, and a gate is
//! opened by a write of its own once its entry is on the disk, so no checksum is needed.
#![tactic(auto)]

ghost use Rattle.std.specs.Prelude.{◌≡◌, ◌⊎◌, ◌+◌, ◌++◌, ◌∷◌, [], ℕ, List, length};
ghost use Rattle.tez_events.specs.declared.JournalRecord.{JournalRecord};
ghost use Rattle.tez_events.specs.Body.{body, FitsRecord};
ghost use Rattle.tez_journal.specs.Text.{entries, framed, IsGated, IsText};
ghost use Rattle.tez_ports.specs.Image.{IsTorn};

mod fault;
mod gate;
mod journal;
mod opening;
mod text;

pub use fault::JournalFault;
pub use gate::Gate;
pub use journal::Journal;
pub use text::{Entry, Text, read_text};

/// A text is a journal of one list of records at most.
pub fn text_tells_its_records()
    ensures { (bytes : List ℕ) (ps qs : List JournalRecord) → IsText bytes ps → IsText bytes qs → ps ≡ qs }
{}

/// While an entry is written behind the last gate, each image is a journal of the same records.
pub fn images_behind_the_gate()
    ensures { (old new : List ℕ) (rs : List JournalRecord) (n : ℕ) → IsGated old rs
        → IsTorn (length (entries rs) + 1) n old new → IsGated new rs }
{}

/// While the gate of an entry is opened, with a closed gate behind it, each image is a journal of the
/// records with or without that of the entry.
pub fn images_at_the_gate()
    ensures { (old new more : List ℕ) (rs : List JournalRecord) (r : JournalRecord) (gate : ℕ) → IsGated old rs
        → FitsRecord r
        → old ≡ entries rs ++ gate ∷ (framed (body r) ++ 0 ∷ more) → IsTorn (length (entries rs)) 1 old new
        → IsGated new rs ⊎ IsGated new (rs ++ r ∷ []) }
{}

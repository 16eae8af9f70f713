// What a text tells of its trace.
ghost use Rattle.std.specs.Prelude.{◌≡◌, ℕ, List};
ghost use Rattle.tez_events.specs.declared.Entry.{Entry};
ghost use Rattle.tez_trace.specs.Reading.{HasText, IsReadOrRefused, IsRefusedAt};

/// Bytes hold the text of one trace at most.
pub fn text_has_one_trace()
    ensures { (bytes : List ℕ) (es fs : List Entry) → HasText bytes es → HasText bytes fs → es ≡ fs }
{}

/// Bytes that are refused at a line hold the text of no trace, and are refused at that line alone.
pub fn refused_text_has_no_trace()
    ensures none { (bytes : List ℕ) (n : ℕ) (es : List Entry) → IsRefusedAt bytes n → HasText bytes es → ⊥ }
    ensures once { (bytes : List ℕ) (n m : ℕ) → IsRefusedAt bytes n → IsRefusedAt bytes m → n ≡ m }
{}

/// Each list of bytes begins with the text of a trace, or is refused at a line.
pub fn each_text_is_read_or_refused()
    ensures { (bytes : List ℕ) → IsReadOrRefused bytes }
{}

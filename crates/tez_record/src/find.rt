// Bytes within bytes.
ghost use Rattle.std.specs.Prelude.{◌≡◌};
ghost use Rattle.tez_record.specs.Find.{has_part};

use memchr::memmem;

// Up to this length of the text, a look at each place is faster than a search that first studies
// what it looks for.
const SHORT: usize = 64;

/// Whether `part` stands somewhere in `text`, as one piece. An empty part does. Linear in both.
pub fn contains(text: &[u8], part: &[u8]) -> bool
    ensures { result ≡ has_part text.now part.now }
{
    if text.len() <= SHORT {
        contains_by_places(text, part)
    } else {
        memmem::find(text, part).is_some()
    }
}

fn contains_by_places(text: &[u8], part: &[u8]) -> bool
    ensures { result ≡ has_part text.now part.now }
{
    let mut rest = text;
    while part.len() <= rest.len() {
        if rest.starts_with(part) {
            return true;
        }
        rest = &rest[1..];
    }
    false
}

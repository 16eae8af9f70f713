// Numbers as words.
ghost use Rattle.std.specs.Prelude.{◌≡◌};
ghost use Rattle.tez_words.specs.Reading.{is_numeral, number_in};

/// The number that a word of so many digits at most writes, where it is in this range.
pub fn number(word: &str, digits: usize, least: u64, most: u64) -> Option<u64>
    ensures { result ≡ number_in digits least most word.now }
{
    if !is_numeral(word) || word.len() > digits {
        return None;
    }
    match word.parse::<u64>() {
        Ok(n) => {
            if least <= n && n <= most {
                Some(n)
            } else {
                None
            }
        }
        Err(_) => None,
    }
}

fn is_numeral(word: &str) -> bool
    ensures { result ≡ is_numeral word.now }
{
    if word.is_empty() {
        return false;
    }
    for b in word.as_bytes() {
        if !b.is_ascii_digit() {
            return false;
        }
    }
    true
}

// The words of a line, from the front on.
ghost use Rattle.std.specs.Prelude.{◌≡◌, ◌∷◌, ◌<◌, ◌^◌, [], MatchOption, IfSome, IsTrue, nat_lt, nat_le};
ghost use Rattle.tez_script.specs.Words.{words, words_behind, number, number_where, is_within};

use memchr::memchr;

const MOST_DIGITS: usize = 10;

/// The first word of a line, and what is behind it.
pub fn first_word(line: &[u8]) -> (&[u8], &[u8])
    ensures { words line.now ≡ result.0.now ∷ words_behind result.1.now }
{
    match memchr(b' ', line) {
        None => (line, &[]),
        Some(at) => (&line[..at], &line[at..]),
    }
}

/// The next word behind one, and what is behind it.
pub fn next_word(rest: &[u8]) -> Option<(&[u8], &[u8])>
    ensures { MatchOption result (words_behind rest.now ≡ []) (λ cut. words_behind rest.now ≡ cut.0.now ∷ words_behind cut.1.now) }
{
    match rest.split_first() {
        None => None,
        Some((_space, line)) => Some(first_word(line)),
    }
}

/// The number that a word is: 1 to 10 digits.
pub fn number(word: &[u8]) -> Option<u64>
    ensures value { result ≡ number word.now }
    ensures small { IfSome result (λ n. n < 10 ^ 10) }
{
    if word.is_empty() {
        return None;
    }
    if word.len() > MOST_DIGITS {
        return None;
    }
    let mut value = 0u64;
    for digit in word {
        if !digit.is_ascii_digit() {
            return None;
        }
        value = value * 10 + u64::from(*digit - b'0');
    }
    Some(value)
}

/// The number that a word is, where it is below the limit.
pub fn number_below(word: &[u8], limit: u64) -> Option<u64>
    ensures value { result ≡ number_where (λ n. nat_lt n limit) word.now }
    ensures small { IfSome result (λ n. n < limit) }
{
    match number(word) {
        Some(n) if n < limit => Some(n),
        _ => None,
    }
}

/// The number that a word is, where it is at least 1.
pub fn number_from_1(word: &[u8]) -> Option<u64>
    ensures { result ≡ number_where (nat_le 1) word.now }
{
    match number(word) {
        Some(n) if 1 <= n => Some(n),
        _ => None,
    }
}

/// The number that a word is, where it is from 1 to the limit.
pub fn number_up_to(word: &[u8], most: u64) -> Option<u64>
    ensures value { result ≡ number_where (is_within 1 most) word.now }
    ensures within { IfSome result (λ n. IsTrue (is_within 1 most n)) }
{
    match number(word) {
        Some(n) if 1 <= n && n <= most => Some(n),
        _ => None,
    }
}

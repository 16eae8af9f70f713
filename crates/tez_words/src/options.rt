// The words of a run: its file and its options, in any order.
ghost use Rattle.std.specs.Prelude.{◌≡◌, map, string_bytes, option_map, codes};
ghost use Rattle.tez_words.specs.Commands.{is_file_word, options_as};
ghost use Rattle.tez_words.specs.Reading.{after_prefix, begin_item, found_as, options_in, options_of, read_word, read_words, with_file, with_script, with_trace};

use crate::command::Options;

/// What the words so far have said, and what the next one is.
#[derive(Clone, Copy)]
struct Found<W> {
    file: Option<W>,
    script: Option<W>,
    trace: bool,
    next: Next,
}

/// What the next word is: the file or an option, or the file of a script.
#[derive(Clone, Copy)]
enum Next {
    Any,
    ScriptFile,
}

/// The file and the options that these words are.
pub fn read_options(words: &[String]) -> Option<Options<&str>>
    ensures { option_map (options_as (λ w. w.now)) result ≡ options_in (map string_bytes words.now) }
{
    let found = Found {
        file: None,
        script: None,
        trace: false,
        next: Next::Any,
    };
    match read_words(found, words) {
        Some(found) => options_of(found),
        None => None,
    }
}

fn read_words<'w>(found: Found<&'w str>, words: &'w [String]) -> Option<Found<&'w str>>
    ensures { option_map (found_as (λ w. w.now)) result ≡ read_words (found_as (λ w. w.now) found.entry) (map string_bytes words.now) }
{
    match words {
        [] => Some(found),
        [word, rest @ ..] => match read_word(found, word.as_str()) {
            Some(found) => read_words(found, rest),
            None => None,
        },
    }
}

fn read_word<'w>(found: Found<&'w str>, word: &'w str) -> Option<Found<&'w str>>
    ensures { option_map (found_as (λ w. w.now)) result ≡ read_word (found_as (λ w. w.now) found.entry) word.now }
{
    match found.next {
        Next::Any => begin_item(found, word),
        Next::ScriptFile => with_script(found, word),
    }
}

fn begin_item<'w>(found: Found<&'w str>, word: &'w str) -> Option<Found<&'w str>>
    ensures { option_map (found_as (λ w. w.now)) result ≡ begin_item (found_as (λ w. w.now) found.entry) word.now }
{
    if word == "--trace" {
        with_trace(found)
    } else if word == "--script" {
        Some(Found {
            next: Next::ScriptFile,
            ..found
        })
    } else {
        match after_prefix("--script=", word) {
            Some(script) => with_script(found, script),
            None => with_file(found, word),
        }
    }
}

fn with_file<'w>(found: Found<&'w str>, word: &'w str) -> Option<Found<&'w str>>
    ensures { option_map (found_as (λ w. w.now)) result ≡ with_file (found_as (λ w. w.now) found.entry) word.now }
{
    if found.file.is_some() || !is_file_word(word) {
        None
    } else {
        Some(Found {
            file: Some(word),
            ..found
        })
    }
}

fn with_script<'w>(found: Found<&'w str>, word: &'w str) -> Option<Found<&'w str>>
    ensures { option_map (found_as (λ w. w.now)) result ≡ with_script (found_as (λ w. w.now) found.entry) word.now }
{
    if found.script.is_some() || !is_file_word(word) {
        None
    } else {
        Some(Found {
            script: Some(word),
            next: Next::Any,
            ..found
        })
    }
}

fn with_trace<'w>(found: Found<&'w str>) -> Option<Found<&'w str>>
    ensures { option_map (found_as (λ w. w.now)) result ≡ with_trace (found_as (λ w. w.now) found.entry) }
{
    if found.trace {
        None
    } else {
        Some(Found {
            trace: true,
            ..found
        })
    }
}

fn options_of<'w>(found: Found<&'w str>) -> Option<Options<&'w str>>
    ensures { option_map (options_as (λ w. w.now)) result ≡ options_of (found_as (λ w. w.now) found.entry) }
{
    match found.next {
        Next::Any => match found.file {
            Some(file) => Some(Options {
                file,
                script: found.script,
                trace: found.trace,
            }),
            None => None,
        },
        Next::ScriptFile => None,
    }
}

/// The word names a file: it is not empty, and no dash begins it.
pub fn is_file_word(word: &str) -> bool
    ensures { result ≡ is_file_word word.now }
{
    match word.as_bytes() {
        [first, ..] => *first != b'-',
        [] => false,
    }
}

fn after_prefix<'w>(prefix: &str, word: &'w str) -> Option<&'w str>
    ensures { option_map (λ w. w.now) result ≡ after_prefix prefix.now word.now }
{
    word.strip_prefix(prefix)
}

// The words of a command.
ghost use Rattle.std.specs.Prelude.{◌≡◌, option_map, map, string_bytes};
ghost use Rattle.tez_am.specs.Words.{file_of, dag_word, check_word, meaning_word, is_file_word, is_run_word, is_for_run};

/// The DAG file of `run FILE`, and none of any other words.
pub fn dag_file(words: &[String]) -> Option<&str>
    ensures { option_map (λ s. s.now) result ≡ dag_word (map string_bytes words.now) }
{
    file_word("run", words)
}

/// The DAG file of `check FILE`, and none of any other words.
pub fn check_file(words: &[String]) -> Option<&str>
    ensures { option_map (λ s. s.now) result ≡ check_word (map string_bytes words.now) }
{
    file_word("check", words)
}

/// The DAG file of `meaning FILE`, and none of any other words.
pub fn meaning_file(words: &[String]) -> Option<&str>
    ensures { option_map (λ s. s.now) result ≡ meaning_word (map string_bytes words.now) }
{
    file_word("meaning", words)
}

/// The file of this command and one file.
fn file_word<'w>(name: &str, words: &'w [String]) -> Option<&'w str>
    ensures { option_map (λ s. s.now) result ≡ file_of name.now (map string_bytes words.now) }
{
    match words {
        [command, file] => {
            if command.as_str() == name && is_file(file.as_str()) {
                Some(file.as_str())
            } else {
                None
            }
        }
        _ => None,
    }
}

fn is_file(word: &str) -> bool
    ensures { result ≡ is_file_word word.now }
{
    match word.as_bytes() {
        [first, ..] => *first != b'-',
        [] => false,
    }
}

/// The first word is that of a run.
pub fn is_run(words: &[String]) -> bool
    ensures { result ≡ is_for_run (map string_bytes words.now) }
{
    match words {
        [command, ..] => is_run_command(command.as_str()),
        [] => false,
    }
}

fn is_run_command(command: &str) -> bool
    ensures { result ≡ is_run_word command.now }
{
    command == "run" || command == "resume" || command == "drill"
}

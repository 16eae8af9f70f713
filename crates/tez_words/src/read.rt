// A command line and its command.
ghost use Rattle.std.specs.Prelude.{◌≡◌, ◌↔◌, ℕ, List, Option, Some, map, string_bytes, option_map};
ghost use Rattle.tez_words.specs.Commands.{IsCommand, command_as, is_run_line, is_run_word};
ghost use Rattle.tez_words.specs.Reading.{amount_in, audit_in, command_by, command_in, file_in_words};
ghost use Rattle.tez_words.specs.declared.command.Command.{Command};

use crate::command::{Amount, Command};
use crate::digits::number;
use crate::options::{is_file_word, read_options};

const MOST_DIGITS: usize = 20;

const MOST_SEED: u64 = (1 << 31) - 1;

const MOST_LINES: u64 = 1_000_000;

/// The command that a line of words is, and none exactly where the line is faulty. Takes no memory.
pub fn read_command(words: &[String]) -> Option<Command<&str>>
    ensures { (c : Command (List ℕ)) → (option_map (command_as (λ w. w.now)) result ≡ Some c) ↔ IsCommand (map string_bytes words.now) c }
{
    command_in(words)
}

fn command_in(words: &[String]) -> Option<Command<&str>>
    ensures { option_map (command_as (λ w. w.now)) result ≡ command_in (map string_bytes words.now) }
{
    match words {
        [] => None,
        [name, rest @ ..] => command_by(name.as_str(), rest),
    }
}

fn command_by<'w>(name: &str, rest: &'w [String]) -> Option<Command<&'w str>>
    ensures { option_map (command_as (λ w. w.now)) result ≡ command_by name.now (map string_bytes rest.now) }
{
    match name {
        "run" => Some(Command::Run(read_options(rest)?)),
        "resume" => Some(Command::Resume(read_options(rest)?)),
        "drill" => Some(Command::Drill(amount(rest)?)),
        "check" => Some(Command::Check(file(rest)?)),
        "meaning" => Some(Command::Meaning(file(rest)?)),
        "audit" => audit(rest),
        "generate" => Some(Command::Generate(amount(rest)?)),
        _ => None,
    }
}

fn file(words: &[String]) -> Option<&str>
    ensures { option_map (λ w. w.now) result ≡ file_in_words (map string_bytes words.now) }
{
    match words {
        [word] if is_file_word(word.as_str()) => Some(word.as_str()),
        _ => None,
    }
}

fn audit(words: &[String]) -> Option<Command<&str>>
    ensures { option_map (command_as (λ w. w.now)) result ≡ audit_in (map string_bytes words.now) }
{
    match words {
        [file, trace] if is_file_word(file.as_str()) && is_file_word(trace.as_str()) => {
            Some(Command::Audit {
                file: file.as_str(),
                trace: trace.as_str(),
            })
        }
        _ => None,
    }
}

fn amount(words: &[String]) -> Option<Amount>
    ensures { result ≡ amount_in (map string_bytes words.now) }
{
    match words {
        [seed, lines] => {
            let seed = number(seed.as_str(), MOST_DIGITS, 0, MOST_SEED)?;
            let lines = number(lines.as_str(), MOST_DIGITS, 1, MOST_LINES)?;
            Some(Amount {
                seed,
                lines: lines as u32,
            })
        }
        _ => None,
    }
}

/// The first word is that of a run: `run`, `resume` or `drill`. Other lines are for the tools.
pub fn is_run_line(words: &[String]) -> bool
    ensures { result ≡ is_run_line (map string_bytes words.now) }
{
    match words {
        [name, ..] => is_run_word(name.as_str()),
        [] => false,
    }
}

fn is_run_word(name: &str) -> bool
    ensures { result ≡ is_run_word name.now }
{
    name == "run" || name == "resume" || name == "drill"
}

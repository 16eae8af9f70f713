// What is printed where a command line is faulty.
ghost use Rattle.std.specs.Prelude.{◌≡◌};
ghost use Rattle.tez_words.specs.Usage.{usage_text};

/// The usage text, one line without its end. It names every command.
pub fn usage() -> &'static str
    ensures { result.now ≡ usage_text }
{
    "usage: tez run or resume DAG [--script FILE] [--trace], drill SEED LINES, check DAG, meaning DAG, audit DAG TRACE, generate SEED LINES"
}

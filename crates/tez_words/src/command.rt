// What a command line asks for. W is how a word is held: as the caller's text, or as its bytes.

/// A command with what it was given.
#[derive(Clone, Copy)]
pub enum Command<W> {
    Run(Options<W>),
    Resume(Options<W>),
    Drill(Amount),
    Check(W),
    Meaning(W),
    Audit { file: W, trace: W },
    Generate(Amount),
}

/// What a run is given: its DAG file, a script file, and whether its trace is printed.
#[derive(Clone, Copy)]
pub struct Options<W> {
    pub file: W,
    pub script: Option<W>,
    pub trace: bool,
}

/// How much is generated: lines of words that follow from the seed.
#[derive(Clone, Copy, Debug, PartialEq, Eq)]
pub struct Amount {
    pub seed: u64,
    pub lines: u32,
}

use mir_base::List;

/// What is to be done.
#[derive(Clone, Copy)]
pub enum Command {
    /// A program is accepted, or refused with the first reason.
    Check,
    /// The listing of a program's raw graph, with its first bad use behind it.
    Raw,
    /// The listing of a program's graph with exact drops.
    Build,
    /// A program runs, and its trace is written.
    Run,
    /// The graph of a listing runs, and its trace is written.
    Exec,
    /// A program with so many functions, from 1 to 1,500, is made and built, its graph runs, and a summary is written. No
    /// text is read.
    Soak { functions: u32 },
}

/// What the words ask for.
#[derive(Drop)]
pub struct Request {
    pub command: Command,
    /// The numbers that `ask()` answers, at most 64, each from 0 to 2,147,483,647; none but for `run` and `exec`.
    pub asks: List<i32>,
    /// How many ticks a run has, at most 1,000,000,000.
    pub ticks: u64,
}

/// Why words ask for nothing.
#[derive(Clone, Copy, Debug)]
pub enum WordsError {
    /// They are no words of the program.
    Refused,
    /// Memory was wanted and could not be had.
    Memory,
}

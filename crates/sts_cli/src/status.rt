//! How the program ends.

/// The exit status of `sts`.
#[derive(Clone, Copy, Debug, PartialEq, Eq)]
pub struct Status {
    pub code: u8,
}

impl Status {
    /// The job is done, and its output written.
    pub const DONE: Status = Status { code: 0 };
    /// The job is done, and its output written: an invariant is violated.
    pub const VIOLATED: Status = Status { code: 1 };
    /// The words are no form of the program's. Nothing is written.
    pub const WORDS: Status = Status { code: 2 };
    /// The document is refused, and the output says why.
    pub const REFUSED: Status = Status { code: 3 };
    /// The log is no legal run of its scenario, and the output says why.
    pub const NOT_LEGAL: Status = Status { code: 4 };
    /// Reading failed. Nothing is written.
    pub const READ_FAULT: Status = Status { code: 5 };
    /// Writing failed. A part of the output may be written.
    pub const WRITE_FAULT: Status = Status { code: 6 };
    /// There was not enough memory. Nothing is written.
    pub const OUT_OF_MEMORY: Status = Status { code: 7 };
    /// The input is longer than 16,777,216 bytes. Nothing is written.
    pub const TOO_LONG: Status = Status { code: 8 };
    /// There is nothing to reduce, and the output says so: no invariant is violated at the log's end.
    pub const NOT_VIOLATED: Status = Status { code: 9 };
}

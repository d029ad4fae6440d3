//! What stands in a turn book: a value that stands for a history.
ghost use Rattle.std.specs.Prelude.{◌≡◌, ℕ, List, length};

/// A value that stands for a list of entries, its history, and is about one subject, which no turn changes.
///
/// Each entry carries a mark, a number. Past the opening it is a mark of the seat that entered it, and so below 64.
pub trait Book: Send + Drop {
    /// What a turn adds one of. It is plain data.
    type Entry;

    /// What the book is about. It is plain data.
    type Subject;

    ghost history: { Self → List Self.Entry };

    ghost subject: { Self → Self.Subject };

    ghost mark: { Self.Entry → ℕ };

    /// How many entries the history has.
    fn entries(&self) -> u64
        ensures { result ≡ length (history self.now) };
}

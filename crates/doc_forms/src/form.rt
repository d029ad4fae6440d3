//! What a form is.
ghost use Rattle.std.specs.Prelude.{◌≡◌, List, ℕ, Option, IfOk};
ghost use Rattle.serde_json.specs.Data.{Data};
ghost use Rattle.serde_json.specs.View.{view};
ghost use Rattle.doc_forms.specs.Reading.{Gives, Reading};

use crate::fail::DocFail;
use serde_json::Value;
use std::alloc::Global;

/// A form of JSON value. A contract sees two meanings of it: `form`, what a value stands for, or the first rule that it breaks
/// and where; and `holds`, what holds of all that is read.
pub trait Form {
    /// What a value of the form stands for.
    type Read: Drop;

    ghost form: { Data → Reading Self.Read };

    ghost holds: { Self.Read → Type 0 };

    fn read(alloc: Global, value: &Value) -> Result<Self::Read, DocFail>
        ensures read { Gives result (form (view value.now)) }
        ensures holds { IfOk result (λ read. holds read) };
}

/// The kinds of list that a word in it tells apart.
pub trait Kind: Copy + Drop {
    ghost of_word: { List ℕ → Option Self };

    fn of_word(word: &str) -> Option<Self>
        ensures { result ≡ of_word word.now };
}

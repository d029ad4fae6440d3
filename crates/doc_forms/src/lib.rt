//! Forms of JSON values of which documents are made, and the rules that a value breaks which has not its form.
#![tactic(auto)]

mod fail;
mod form;
mod lists;
mod objects;
mod texts;
mod values;
mod written;

pub use fail::{DocFail, Path, below, below_index, refused, require};
pub use form::{Form, Kind};
pub use lists::{counted, element, kind_at, list};
pub use objects::{field, keyed};
pub use texts::read_document;
pub use values::{
    flag_at, name, name_at, number, number_at, number_of, text, u8_at, u16_at, u32_at, u32_of,
    whole,
};
pub use written::{ToJson, json_bytes, list_to_json};

#[cfg(test)]
mod tests;

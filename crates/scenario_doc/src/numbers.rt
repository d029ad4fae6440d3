//! Numbers as forms, by their bits.
ghost use Rattle.std.specs.Prelude.{◌≡◌, ◌<◌, ◌^◌, IfSome, Ok, Some};
ghost use Rattle.serde_json.specs.View.{view};
ghost use Rattle.doc_forms.specs.Forms.{name, number};
ghost use Rattle.doc_forms.specs.Reading.{Gives};
ghost use Rattle.scenario_doc.specs.Packets.{bits, nullable};

use doc_forms::{DocFail, Form, name, number};
use serde_json::Value;
use std::alloc::Global;
use std::marker::PhantomData;

/// The most of 48 bits: of an Ethernet address.
pub(crate) const ADDRESS: u64 = (1 << 48) - 1;

/// A number of 8 bits.
pub(crate) struct Bits8;

impl Form for Bits8 {
    type Read = u8;

    ghost form = { bits 8 };

    ghost holds = { λ n. n < 2 ^ 8 };

    fn read(alloc: Global, value: &Value) -> Result<u8, DocFail> {
        Ok(number(alloc, value, 0, u64::from(u8::MAX))? as u8)
    }
}

/// A number of 16 bits.
pub(crate) struct Bits16;

impl Form for Bits16 {
    type Read = u16;

    ghost form = { bits 16 };

    ghost holds = { λ n. n < 2 ^ 16 };

    fn read(alloc: Global, value: &Value) -> Result<u16, DocFail> {
        Ok(number(alloc, value, 0, u64::from(u16::MAX))? as u16)
    }
}

/// A number of 48 bits.
pub(crate) struct Bits48;

impl Form for Bits48 {
    type Read = u64;

    ghost form = { bits 48 };

    ghost holds = { λ n. n < 2 ^ 48 };

    fn read(alloc: Global, value: &Value) -> Result<u64, DocFail> {
        number(alloc, value, 0, ADDRESS)
    }
}

/// The number of a switch or a controller.
pub(crate) struct Name;

impl Form for Name {
    type Read = u16;

    ghost form = { name };

    ghost holds = { λ n. n < 2 ^ 16 };

    fn read(alloc: Global, value: &Value) -> Result<u16, DocFail> {
        name(alloc, value)
    }
}

/// `null`, or a value of a form.
pub(crate) struct Nullable<F> {
    form: PhantomData<F>,
}

impl<F: Form> Form for Nullable<F> {
    type Read = Option<F::Read>;

    ghost form = { nullable F.form };

    ghost holds = { λ found. IfSome found F.holds };

    fn read(alloc: Global, value: &Value) -> Result<Option<F::Read>, DocFail> {
        if value.is_null() {
            return Ok(None);
        }
        Ok(Some(F::read(alloc, value)?))
    }
}

//! From bytes to what a document stands for.
ghost use Rattle.std.specs.Prelude.{◌≡◌, IfErr, IfOk, Ok, Err, codes};
ghost use Rattle.serde_json.specs.View.{view};
ghost use Rattle.doc_forms.specs.Reading.{Gives};
ghost use Rattle.doc_forms.specs.Texts.{IsRefused, IsRooted, IsRefusedAtRoot, IsText};

use crate::fail::{DocFail, Path};
use crate::form::Form;
use listed::Listed;
use serde_json::Value;
use std::alloc::{AllocError, Global};

/// What a document of these bytes stands for by a form.
pub fn read_document<F: Form>(alloc: Global, bytes: &[u8]) -> Result<F::Read, DocFail>
    ensures read { IfOk result (λ read. IsText F.form bytes.now read) }
    ensures holds { IfOk result (λ read. F.holds read) }
    ensures refused { IfErr result (λ why. IsRefused F.form bytes.now why) }
{
    match Value::from_slice(alloc, bytes) {
        Ok(value) => match F::read(alloc, &value) {
            Ok(read) => Ok(read),
            Err(why) => Err(rooted(alloc, why)),
        },
        Err(error) if error.is_memory() => Err(DocFail::OutOfMemory),
        Err(_) => Err(not_json(alloc)),
    }
}

/// A refusal with its path from the root of the document.
fn rooted(alloc: Global, why: DocFail) -> DocFail
    ensures { IsRooted why result }
{
    match why {
        DocFail::Refused { number, path } if path.is_empty() => at_root(alloc, number),
        other => other,
    }
}

/// The refusal of bytes that are not one JSON value.
fn not_json(alloc: Global) -> DocFail
    ensures { IsRefusedAtRoot 1 result }
{
    at_root(alloc, 1)
}

fn at_root(alloc: Global, number: u8) -> DocFail
    ensures { IsRefusedAtRoot number result }
{
    match root(alloc) {
        Ok(path) => DocFail::Refused { number, path },
        Err(_) => DocFail::OutOfMemory,
    }
}

fn root(alloc: Global) -> Result<Path, AllocError>
    ensures { IfOk result (λ path. path ≡ codes "/") }
{
    Ok(Listed::of(b"/".to_vec(alloc)?))
}

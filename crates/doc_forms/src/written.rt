//! Values that stand for parts of documents.
ghost use Rattle.std.specs.Prelude.{◌≡◌, ◌≤◌, IfOk, false};
ghost use Rattle.serde_json.specs.Data.{Data, depth};
ghost use Rattle.serde_json.specs.Read.{max_depth};
ghost use Rattle.serde_json.specs.View.{view};
ghost use Rattle.serde_json.specs.Written.{compact_text, has_float};
ghost use Rattle.doc_forms.specs.Texts.{IsJson};
ghost use Rattle.doc_forms.specs.Written.{list_data};

use serde_json::Value;
use std::alloc::{AllocError, Global};

/// How a kind of part of documents is written. A contract sees `json`, the data that stands for a part.
pub trait ToJson {
    /// What is written.
    type Of;

    ghost json: { Self.Of → Data };

    fn to_json(alloc: Global, part: &Self::Of) -> Result<Value, AllocError>
        ensures { IfOk result (λ value. view value ≡ json part.now) };
}

/// A list of parts of one kind.
pub fn list_to_json<J: ToJson>(alloc: Global, parts: &[J::Of]) -> Result<Value, AllocError>
    ensures { IfOk result (λ value. view value ≡ list_data J.json parts.now) }
{
    let mut values = Vec::new(alloc);
    for part in parts {
        values.push(J::to_json(alloc, part)?)?;
    }
    Ok(Value::Array(values))
}

/// The bytes of a value, with no space between its words.
pub fn json_bytes(alloc: Global, value: &Value) -> Result<Vec<u8>, AllocError>
    ensures text { IfOk result
        (λ bytes. has_float (view value.now) ≡ false → bytes.items ≡ compact_text (view value.now)) }
    ensures json { IfOk result
        (λ bytes. depth (view value.now) ≤ max_depth → IsJson bytes.items (view value.now)) }
{
    Ok(value.to_string(alloc)?.into_bytes())
}

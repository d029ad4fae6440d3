//! Why a document is not read.
ghost use Rattle.std.specs.Prelude.{◌≡◌, ◌++◌, ◌∷◌, [], Err, IfOk, codes};
ghost use Rattle.std.specs.Fmt.{decimal};
ghost use Rattle.doc_forms.specs.Reading.{Gives, refused, require, under};

use listed::Listed;
use std::alloc::{AllocError, Global};
use thiserror::Error;

/// Where in a document a rule is broken: `/`, and the keys and indices from the root, joined by `/`. Keys stand as they are.
/// Inside of a form it is the path from the value that is read; that of the value itself is empty.
pub type Path = Listed<u8>;

/// Why a document was not read.
#[derive(Debug, Drop, Error)]
pub enum DocFail {
    /// The document breaks a rule, which is told by its number, at a path.
    #[error("rule {number} is broken")]
    Refused { number: u8, path: Path },
    #[error("out of memory")]
    OutOfMemory,
}

impl From<AllocError> for DocFail {
    ghost use Rattle.doc_forms.specs.declared.fail.DocFail.TheVariants.{OutOfMemory};

    ghost from_gives = { λ _ why. why ≡ OutOfMemory };

    fn from(_: AllocError) -> DocFail {
        DocFail::OutOfMemory
    }
}

/// A value itself breaks a rule.
pub fn refused<T>(alloc: Global, number: u8) -> Result<T, DocFail>
    ensures { result ≡ refused number }
{
    Err(DocFail::Refused {
        number,
        path: Listed::new(alloc),
    })
}

/// A rule of a value itself: it is broken unless the condition holds.
pub fn require(alloc: Global, number: u8, is_kept: bool) -> Result<(), DocFail>
    ensures { result ≡ require number is_kept }
{
    if is_kept {
        Ok(())
    } else {
        refused(alloc, number)
    }
}

/// What was read of a part of a value, told of the value: the path of a refusal begins with the step to the part.
pub fn below<T: Drop>(alloc: Global, step: &str, found: Result<T, DocFail>) -> Result<T, DocFail>
    ensures { Gives result (under step.now found) }
{
    match found {
        Ok(read) => Ok(read),
        Err(DocFail::Refused { number, path }) => Err(DocFail::Refused {
            number,
            path: Listed::of(longer(alloc, step.as_bytes(), path.as_slice())?),
        }),
        Err(DocFail::OutOfMemory) => Err(DocFail::OutOfMemory),
    }
}

/// The same where the part is an element of a list, by its place.
pub fn below_index<T: Drop>(
    alloc: Global,
    index: usize,
    found: Result<T, DocFail>,
) -> Result<T, DocFail>
    ensures { Gives result (under (decimal index) found) }
{
    match found {
        Ok(read) => Ok(read),
        Err(why) => below_number(alloc, index, Err(why)),
    }
}

fn below_number<T: Drop>(
    alloc: Global,
    index: usize,
    found: Result<T, DocFail>,
) -> Result<T, DocFail>
    ensures { Gives result (under (decimal index) found) }
{
    let step = format!(in alloc; "{index}")?;
    below(alloc, step.as_str(), found)
}

fn longer(alloc: Global, step: &[u8], path: &[u8]) -> Result<Vec<u8>, AllocError>
    ensures { IfOk result (λ longer. longer.items ≡ 47 ∷ step.now ++ path.now) }
{
    let mut longer = vec![in alloc; b'/']?;
    longer.extend_from_slice(step)?;
    longer.extend_from_slice(path)?;
    Ok(longer)
}

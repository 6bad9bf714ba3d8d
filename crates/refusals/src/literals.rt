//! Documents of what stands in the source.

use crate::makes::say_document;
use refusals_common::{Fault, say_again, say_call};
use sj_document::OwnedValue;
use std::alloc::{AllocError, Global};

/// A document of that form, made of a list and pairs.
macro_rules! made {
    ($form:ty, $alloc:expr) => {{
        let list = <$form>::array_of($alloc, [<$form>::text($alloc, "a")?, <$form>::null()])?;
        let pairs = vec![in $alloc; ("list", list), ("n", <$form>::from(true))]?;
        <$form>::object_of($alloc, pairs)
    }};
}

fn owned(alloc: Global) -> Result<OwnedValue, AllocError> {
    made!(OwnedValue, alloc)
}

/// Makes a document of that form twice, the first time between the first two writes.
pub fn make(rt: &(impl Print + AllocGlobal), form: &str) -> Result<(), Fault> {
    let alloc = rt.alloc();
    say_call(rt)?;
    match form {
        "owned" => {
            say_again(rt, owned(alloc).is_ok())?;
            say_document(rt, &owned(alloc)?)
        }
        _ => Err(Fault::Usage),
    }
}

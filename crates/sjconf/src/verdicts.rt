//! Which demands a document meets.

ghost use Rattle.std.specs.Prelude.{IfOk, string_bytes};
ghost use Rattle.sj_document.specs.Document.{document_tree};
ghost use Rattle.sjconf.specs.Demands.{Judged};

use crate::demand::Demand;
use sj_owned::Value;
use std::alloc::{AllocError, Global};

/// Of each demand, in order, whether the document meets it.
pub fn verdicts(
    alloc: Global,
    demands: &[Demand],
    document: &Value,
) -> Result<Vec<bool>, AllocError>
    ensures { IfOk result (λ v. Judged (document_tree string_bytes document.now) demands.now v.items) }
{
    let mut verdicts = Vec::new(alloc);
    for demand in demands {
        verdicts.push(demand.is_met(document))?;
    }
    Ok(verdicts)
}

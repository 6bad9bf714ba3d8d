//! Whether a document meets a shape.

ghost use Rattle.std.specs.Prelude.{◌≡◌, OnOk, string_bytes};
ghost use Rattle.std.specs.List.{list_all};
ghost use Rattle.sj_document.specs.Document.{document_tree};
ghost use Rattle.sjconf.specs.Demands.{AllMet};

use crate::demand::Demand;
use crate::fault::Fault;
use crate::report::{Made, report};
use crate::verdicts::verdicts;
use std::alloc::Global;

/// Whether each is true.
fn are_true(verdicts: &[bool]) -> bool
    ensures { result ≡ list_all (λ b. b) verdicts.now }
{
    verdicts.iter().all(|is_met| *is_met)
}

/// Refuses what does not meet each demand, and tells those that it does not meet.
pub fn check(alloc: Global, made: Made<'_, '_>, demands: &[Demand]) -> Result<(), Fault>
    ensures { OnOk result (AllMet (document_tree string_bytes made.entry.whole.now) demands.now) }
{
    let verdicts = verdicts(alloc, demands, made.whole)?;
    if !are_true(&verdicts) {
        return Err(Fault::Unmet(report(alloc, made, demands, &verdicts)?));
    }
    Ok(())
}

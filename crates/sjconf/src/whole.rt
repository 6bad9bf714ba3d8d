//! Files merged, values set in what they make, and the whole checked.

ghost use Rattle.std.specs.Prelude.{IfOk, map, string_bytes};
ghost use Rattle.sj_document.specs.Document.{document_tree};
ghost use Rattle.sjconf.specs.Demands.{AllMet};
ghost use Rattle.sjconf.specs.Layers.{AreRead};
ghost use Rattle.sjconf.specs.Settings.{IsMade};

use crate::check::check;
use crate::demand::Demand;
use crate::fault::Fault;
use crate::input::{Layer, document};
use crate::layers::merge_all;
use crate::report::Made;
use crate::setting::{Setting, set_all};
use sj_owned::Value;
use std::alloc::Global;

/// The documents of the files.
fn documents(alloc: Global, layers: &[Layer<'_>]) -> Result<Vec<Value>, Fault>
    ensures { IfOk result (λ v. AreRead layers.now (map (document_tree string_bytes) v.items)) }
{
    let mut documents = Vec::new(alloc);
    for layer in layers {
        documents.push(document(alloc, layer)?)?;
    }
    Ok(documents)
}

/// The files merged in turn, and what the settings make of that. Refused where it does not meet each
/// demand.
pub fn checked_whole(
    alloc: Global,
    layers: &[Layer<'_>],
    settings: &[Setting<'_>],
    demands: &[Demand],
) -> Result<Value, Fault>
    ensures { IfOk result (λ v. IsMade layers.now settings.now (document_tree string_bytes v) × AllMet (document_tree string_bytes v) demands.now) }
{
    let whole = made_of(alloc, layers, settings)?;
    let made = Made {
        layers,
        settings,
        whole: &whole,
    };
    check(alloc, made, demands)?;
    Ok(whole)
}

/// The files merged in turn, and what the settings make of that.
fn made_of(alloc: Global, layers: &[Layer<'_>], settings: &[Setting<'_>]) -> Result<Value, Fault>
    ensures { IfOk result (λ v. IsMade layers.now settings.now (document_tree string_bytes v)) }
{
    let documents = documents(alloc, layers)?;
    let mut whole = merge_all(alloc, documents)?;
    match set_all(alloc, &mut whole, settings) {
        Ok(()) => Ok(whole),
        Err((index, why)) => {
            let word = match settings.get(index) {
                Some(setting) => setting.word,
                None => "",
            };
            Err(Fault::setting(alloc, word, why)?)
        }
    }
}

//! Values that words set.

ghost use Rattle.std.specs.Prelude.{◌≡◌, Some, None, IfErr, OnErr, OnOk, string_bytes};
ghost use Rattle.sj_document.specs.Document.{document_tree};
ghost use Rattle.sj_path.specs.Made.{set_made};
ghost use Rattle.sjconf.specs.Settings.{all_set};

use crate::key::pointer_of;
use sj_owned::{AccessError, ErrorKind, Value, to_value};
use sj_path::owned::set;
use sj_pointer::{Pointer, PointerError};
use std::alloc::{AllocError, AllocFailed, Global};
use thiserror::Error;

/// A value, and where it is put.
#[derive(Debug, Drop)]
pub struct Setting<'w> {
    /// The word that said so.
    pub word: &'w str,
    pub place: Pointer,
    pub value: Value,
}

/// Why a value was not set.
#[derive(Clone, Copy, Debug, PartialEq, Eq, Error)]
pub enum SettingFault {
    #[error("expected KEY=VALUE")]
    NoSetting,
    #[error("a pointer has a 0 or a 1 behind each tilde")]
    BadTilde,
    #[error("expected a whole number from -2^127 to 2^128-1, or a text in quotes")]
    NoNumber,
    #[error("no such item, or no object or array on the way")]
    LeadsNowhere,
    #[error("out of memory")]
    OutOfMemory,
}

impl From<AllocError> for SettingFault {
    ghost use Rattle.std.specs.Prelude.{◌≡◌};
    ghost use Rattle.sjconf.specs.declared.setting.SettingFault.TheVariants.{OutOfMemory};

    ghost from_gives = { λ _ e. e ≡ OutOfMemory };

    fn from(_error: AllocError) -> SettingFault {
        SettingFault::OutOfMemory
    }
}

impl<T: Drop> From<AllocFailed<T>> for SettingFault {
    fn from(_error: AllocFailed<T>) -> SettingFault {
        SettingFault::OutOfMemory
    }
}

impl From<PointerError> for SettingFault {
    fn from(error: PointerError) -> SettingFault {
        match error {
            PointerError::OutOfMemory => SettingFault::OutOfMemory,
            PointerError::NoSlash | PointerError::BadTilde => SettingFault::BadTilde,
        }
    }
}

/// The setting of a word: behind its first `=` stands the value, in front of it where that goes.
pub fn setting_of<'w>(alloc: Global, word: &'w str) -> Result<Setting<'w>, SettingFault> {
    let Some((key, text)) = word.split_once('=') else {
        return Err(SettingFault::NoSetting);
    };
    Ok(Setting {
        word,
        place: pointer_of(alloc, key)?,
        value: value_of(alloc, text)?,
    })
}

/// The value that the text spells, or else the text. A number that is not whole, or past the limits,
/// is refused, in an array or object too.
fn value_of(alloc: Global, text: &str) -> Result<Value, SettingFault> {
    let mut bytes = text.as_bytes().to_vec(alloc)?;
    match to_value(alloc, &mut bytes) {
        Ok(value) => Ok(value),
        Err(ErrorKind::OutOfMemory) => Err(SettingFault::OutOfMemory),
        Err(ErrorKind::Float | ErrorKind::NumberTooLarge)
            if is_number(trim_blanks(text)) || opens(text) => Err(SettingFault::NoNumber),
        Err(_) => Ok(Value::from(String::from_str(alloc, text)?)),
    }
}

/// The text without the blanks of JSON at its ends.
fn trim_blanks(text: &str) -> &str {
    text.trim_matches([' ', '\t', '\n', '\r'])
}

/// Whether the text begins as an array or an object does.
fn opens(text: &str) -> bool {
    trim_blanks(text).starts_with(['[', '{'])
}

/// Whether the text is a number of JSON (RFC 8259, section 6), of any size, with a fraction or not.
fn is_number(text: &str) -> bool {
    let text = text.strip_prefix('-').unwrap_or(text);
    let (whole, exponent) = text.split_once(['e', 'E']).unwrap_or((text, "0"));
    let (whole, fraction) = whole.split_once('.').unwrap_or((whole, "0"));
    let exponent = exponent.strip_prefix(['+', '-']).unwrap_or(exponent);
    are_digits(whole) && are_digits(fraction) && are_digits(exponent) && !has_idle_zero(whole)
}

fn are_digits(text: &str) -> bool {
    !text.is_empty() && text.bytes().all(|byte| byte.is_ascii_digit())
}

/// Whether a digit stands behind a first 0.
fn has_idle_zero(digits: &str) -> bool {
    digits.len() > 1 && digits.starts_with('0')
}

/// Puts each value in turn where it goes, and makes the objects that are missing on the way. Refused
/// is the first that leads nowhere, by its index; those before it are set then.
pub fn set_all(
    alloc: Global,
    document: &mut Value,
    settings: &[Setting<'_>],
) -> Result<(), (usize, SettingFault)>
    ensures set { OnOk result (all_set settings.now (document_tree string_bytes document.old) ≡ Some (document_tree string_bytes document.new)) }
    ensures nowhere { IfErr result (λ e. e.1 ≡ SettingFault.LeadsNowhere → all_set settings.now (document_tree string_bytes document.old) ≡ None) }
{
    for (index, setting) in settings.iter().enumerate() {
        if let Err(fault) = set_one(alloc, document, setting) {
            return Err((index, fault));
        }
    }
    Ok(())
}

/// Puts the value where it goes. Refused, the document is as it was.
fn set_one(alloc: Global, document: &mut Value, setting: &Setting<'_>) -> Result<(), SettingFault>
    ensures set { OnOk result (set_made setting.now.place (document_tree string_bytes setting.now.value) (document_tree string_bytes document.old) ≡ Some (document_tree string_bytes document.new)) }
    ensures nowhere { IfErr result (λ e. e ≡ SettingFault.LeadsNowhere → set_made setting.now.place (document_tree string_bytes setting.now.value) (document_tree string_bytes document.old) ≡ None) }
    ensures refused { OnErr result (document_tree string_bytes document.new ≡ document_tree string_bytes document.old) }
{
    let value = setting.value.clone()?;
    match set(document, alloc, &setting.place, value) {
        Ok(_) => Ok(()),
        Err(refused) => match refused.why {
            AccessError::OutOfMemory => Err(SettingFault::OutOfMemory),
            _ => Err(SettingFault::LeadsNowhere),
        },
    }
}

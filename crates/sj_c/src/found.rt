//! What a value is, in numbers.

ghost use Rattle.std.specs.Prelude.{◌≡◌, ◌≢◌, ◌^◌, pos, ◌+ℤ◌, ◌<ℤ◌, IsUtf8, length, is_some, IfSome, IfOk, IfErr};
ghost use Rattle.sj_text_core.specs.Reads.{kind_of, as_signed, as_unsigned, as_text, as_boolean};
ghost use Rattle.sj_pointer.specs.Tokens.{tokens_of};
ghost use Rattle.sj_c.specs.Refusals.{Blames, IsReply};
ghost use Rattle.sj_c.specs.Shown.{kind_number, wide};

use crate::lent::start_of;
use crate::status::{BAD_ARGUMENT, BAD_POINTER, MISSING, OK, OUT_OF_MEMORY};
use crate::words::{Words, words_below, words_of};
use sj_document::OwnedValue;
use sj_path::{Pointer, PointerError, pointer};
use sj_text_core::{TypedValue, ValueAsScalar, ValueType};
use std::alloc::Global;

/// What stands at a pointer. To C it is `sj_value`.
#[repr(C)]
#[derive(Drop)]
pub struct Found {
    /// 0 null, 1 truth value, 2 to 5 numbers, 6 text, 7 array, 8 object.
    pub kind: u32,
    /// The truth value.
    pub is_true: bool,
    /// Whether `signed` is the number.
    pub is_signed: bool,
    /// Whether `unsigned` is the number.
    pub is_unsigned: bool,
    pub signed: i64,
    pub unsigned: u64,
    /// The number's low 64 bits, in two's complement of 128.
    pub low: u64,
    /// Its high 64 bits.
    pub high: u64,
    /// How many bytes a text has, or items an array, or members an object.
    pub len: usize,
    /// Where the bytes of a text lie.
    pub text: *const u8,
}

/// A pointer's text read; refused with a status.
pub fn pointer_of(alloc: Global, text: &[u8]) -> Result<Pointer, u32>
    ensures ok { IfOk result (λ p. p ≡ tokens_of text.now) }
    ensures err { IfErr result (λ code. code ≢ OK) }
    ensures known { IfErr result (λ code. code ≢ MISSING) }
    ensures refused { IfErr result (λ code. ¬ (IsReply code)) }
    ensures blames { IfErr result (λ code. Blames code ⊥ text.now (¬ (IsUtf8 text.now))) }
{
    let Ok(text) = std::str::from_utf8(text) else {
        return Err(BAD_ARGUMENT);
    };
    match pointer(alloc, text) {
        Ok(made) => Ok(made),
        Err(PointerError::NoSlash) => Err(BAD_POINTER),
        Err(PointerError::BadTilde) => Err(BAD_POINTER),
        Err(PointerError::OutOfMemory) => Err(OUT_OF_MEMORY),
    }
}

/// The number of a kind.
fn code_of_type(kind: ValueType) -> u32
    ensures { result ≡ kind_number kind }
{
    match kind {
        ValueType::Null => 0,
        ValueType::Bool => 1,
        ValueType::I64 => 2,
        ValueType::U64 => 3,
        ValueType::I128 => 4,
        ValueType::U128 => 5,
        ValueType::String => 6,
        ValueType::Array => 7,
        ValueType::Object | ValueType::Extended(_) => 8,
    }
}

/// The words of the number below 0 that the value is.
fn words_below_in<V: ValueAsScalar>(value: &V) -> Words
    ensures { IfSome (as_signed 128 (V.tree value.now)) (λ n. n <ℤ pos 0 → pos (wide result.low result.high) ≡ n +ℤ pos (2 ^ 128)) }
{
    match value.as_i128() {
        Some(number) if number < 0 => words_below(number),
        _ => Words { low: 0, high: 0 },
    }
}

/// The words of the number that the value is.
fn words_in<V: ValueAsScalar>(value: &V) -> Words
    ensures words { IfSome (as_unsigned 128 (V.tree value.now)) (λ n. wide result.low result.high ≡ n) }
    ensures below { IfSome (as_signed 128 (V.tree value.now)) (λ n. n <ℤ pos 0 → pos (wide result.low result.high) ≡ n +ℤ pos (2 ^ 128)) }
{
    match value.as_u128() {
        Some(number) => words_of(number),
        None => words_below_in(value),
    }
}

/// Writes out what the value is, all but the length.
pub fn tell<V: TypedValue + ValueAsScalar>(value: &V, found: &mut Found)
    ensures kind { found.new.kind ≡ kind_number (kind_of (V.tree value.now)) }
    ensures text { IfSome (as_text (V.tree value.now)) (λ s. found.new.len ≡ length s) }
    ensures truth { IfSome (as_boolean (V.tree value.now)) (λ b. found.new.is_true ≡ b) }
    ensures is_signed { found.new.is_signed ≡ is_some (as_signed 64 (V.tree value.now)) }
    ensures signed { IfSome (as_signed 64 (V.tree value.now)) (λ n. found.new.signed ≡ n) }
    ensures is_unsigned { found.new.is_unsigned ≡ is_some (as_unsigned 64 (V.tree value.now)) }
    ensures unsigned { IfSome (as_unsigned 64 (V.tree value.now)) (λ n. found.new.unsigned ≡ n) }
    ensures words { IfSome (as_unsigned 128 (V.tree value.now)) (λ n. wide found.new.low found.new.high ≡ n) }
    ensures below { IfSome (as_signed 128 (V.tree value.now)) (λ n. n <ℤ pos 0 → pos (wide found.new.low found.new.high) ≡ n +ℤ pos (2 ^ 128)) }
{
    found.kind = code_of_type(value.value_type());
    found.is_true = value.as_bool().unwrap_or(false);
    let signed = value.as_i64();
    found.is_signed = signed.is_some();
    found.signed = signed.unwrap_or(0);
    let unsigned = value.as_u64();
    found.is_unsigned = unsigned.is_some();
    found.unsigned = unsigned.unwrap_or(0);
    let words = words_in(value);
    found.low = words.low;
    found.high = words.high;
    match value.as_str() {
        Some(text) => {
            found.text = start_of(text.as_bytes());
            found.len = text.len();
        }
        None => found.len = 0,
    }
}

//! The statuses of patches that are not done.

ghost use Rattle.std.specs.Prelude.{◌≡◌, ◌≤◌};
ghost use Rattle.sj_c.specs.Patches.{item_status, operation_status};

use sj_patch::{ItemFault, OperationFault};

/// A patch is an array.
pub const PATCH_NOT_AN_ARRAY: u32 = 32;
/// The item is no object.
pub const PATCH_NOT_AN_OBJECT: u32 = 33;
/// The item has no "op" that names an operation.
pub const PATCH_OP: u32 = 34;
/// The item has no "path" that is a pointer.
pub const PATCH_PATH: u32 = 35;
/// The item has no "from" that is a pointer.
pub const PATCH_FROM: u32 = 36;
/// The item has no "value".
pub const PATCH_VALUE: u32 = 37;
/// Nothing stands where the operation wants something.
pub const PATCH_MISSING: u32 = 48;
/// No item can go to that place of the array.
pub const PATCH_NO_PLACE: u32 = 49;
/// The whole document cannot be removed.
pub const PATCH_WHOLE: u32 = 50;
/// A value cannot be moved into itself.
pub const PATCH_INTO_ITSELF: u32 = 51;
/// The value is another one.
pub const PATCH_DIFFERS: u32 = 52;

/// The status of an item that is no operation.
pub fn code_of_item(fault: ItemFault) -> u32
    ensures status { result ≡ item_status fault }
    ensures range { 33 ≤ result }
{
    match fault {
        ItemFault::NotAnObject => PATCH_NOT_AN_OBJECT,
        ItemFault::Op => PATCH_OP,
        ItemFault::Path => PATCH_PATH,
        ItemFault::From => PATCH_FROM,
        ItemFault::Value => PATCH_VALUE,
    }
}

/// The status of an operation that has no result.
pub fn code_of_operation(fault: OperationFault) -> u32
    ensures status { result ≡ operation_status fault }
    ensures range { 48 ≤ result }
{
    match fault {
        OperationFault::Missing => PATCH_MISSING,
        OperationFault::NoPlace => PATCH_NO_PLACE,
        OperationFault::Whole => PATCH_WHOLE,
        OperationFault::IntoItself => PATCH_INTO_ITSELF,
        OperationFault::Differs => PATCH_DIFFERS,
    }
}

//! `Document`, its names, and what makes an empty one.

ghost use Rattle.std.specs.Prelude.{◌≡◌, IfOk};
ghost use Rattle.sj_text_core.specs.Tree.{null, list, obj, no_items, no_members};

mod access;
mod build;
mod change;
mod cmp;
mod convert;
mod copy;
mod depth;
mod drops;
mod edit;
mod from;
mod index;
mod items;
mod lend;
mod literal;
mod make;
mod path;
mod piled;
mod scalar;
mod serialize;
mod swap;
mod taken;
mod typed;

pub use build::{borrowed_from_tape, owned_from_tape};
pub use change::{Change, Replace, change_item, change_member};
pub use cmp::same;
pub use copy::CopyText;
pub use depth::is_within_depth;
use drops::let_go;
pub use lend::{LendItem, LendMember};
pub use path::{Leads, replace_at, update_at};
use sj_object::{HashMap, KeyText, ObjectHasher};
use sj_text_core::StaticNode;
use std::alloc::{AllocError, Global};
use std::borrow::CowStr;
pub use swap::{swap_item, swap_member, swap_token};
pub use taken::Taken;

/// A document whose keys and texts are `T`.
///
/// It means a tree in which no object has two members of one key, at any depth.
#[derive(Debug)]
pub enum Document<T: KeyText> {
    Static(StaticNode),
    String(T),
    Array(Box<Vec<Document<T>>>),
    Object(Box<Object<T>>),
}

/// It goes with no recursion and no memory, at whatever depth its parts lie.
impl<T: KeyText + Drop> Drop for Document<T> {
    fn drop(self) {
        match self {
            Document::Static(_) | Document::String(_) => {}
            Document::Array(items) => let_go(Document::Array(items)),
            Document::Object(members) => let_go(Document::Object(members)),
        }
    }
}

/// The members of an object, in the order of their insertion.
pub type Object<T> = HashMap<T, Document<T>, ObjectHasher>;

/// A document that owns its texts.
pub type OwnedValue = Document<String>;

/// A document whose texts may be lent.
pub type BorrowedValue<'v> = Document<CowStr<'v>>;

impl<T: KeyText> Document<T> {
    ghost use Rattle.sj_document.specs.Document.{document_tree};

    /// A null.
    pub fn null() -> Self
        ensures { document_tree T.text_of result ≡ null }
    {
        Document::Static(StaticNode::Null)
    }
}

impl<T: KeyText + Drop> Document<T> {
    ghost use Rattle.sj_document.specs.Document.{document_tree};

    /// An empty array.
    pub fn array(alloc: Global) -> Result<Self, AllocError>
        ensures { IfOk result (λ v. document_tree T.text_of v ≡ list no_items) }
    {
        Ok(Document::Array(Box::new(alloc, Vec::new(alloc))?))
    }

    /// An empty array with room for that many items.
    pub fn array_with_capacity(alloc: Global, capacity: usize) -> Result<Self, AllocError>
        ensures { IfOk result (λ v. document_tree T.text_of v ≡ list no_items) }
    {
        let items = Vec::with_capacity(alloc, capacity)?;
        Ok(Document::Array(Box::new(alloc, items)?))
    }

    /// An empty object.
    pub fn object(alloc: Global) -> Result<Self, AllocError>
        ensures { IfOk result (λ v. document_tree T.text_of v ≡ obj no_members) }
    {
        Self::object_with_capacity(alloc, 0)
    }

    /// An empty object with room for that many members.
    pub fn object_with_capacity(alloc: Global, capacity: usize) -> Result<Self, AllocError>
        ensures { IfOk result (λ v. document_tree T.text_of v ≡ obj no_members) }
    {
        let members = HashMap::with_capacity_and_hasher(alloc, capacity, ObjectHasher::default())?;
        Ok(Document::Object(Box::new(alloc, members)?))
    }
}

impl<T: KeyText> Default for Document<T> {
    ghost use Rattle.sj_document.specs.Document.{document_tree};

    ghost is_default = { λ v. document_tree T.text_of v ≡ null };

    fn default() -> Self {
        Document::null()
    }
}

//! Values that are taken apart level by level.

ghost use Rattle.std.specs.Prelude.{◌≡◌, ℕ, List, IfSome};
ghost use Rattle.std.specs.Iterator.{YieldsFirstBy};
ghost use Rattle.sj_text_core.specs.Tree.{Tree};
ghost use Rattle.sj_print.specs.Levels.{level_tree};

use crate::plain_text::PlainText;
use sj_text_core::StaticNode;

/// One level of a value: a scalar, a text, maybe one that is known to need no escape, or the parts of
/// an array or an object to go over.
#[derive(Drop)]
pub enum Level<'a, I, M> {
    Static(StaticNode),
    String(&'a str),
    Plain(PlainText<'a>),
    Array(I),
    Object(M),
}

/// A value that is taken apart level by level.
pub trait Parts: Sized + Drop {
    /// Goes over the items of an array.
    type Items: Drop;

    /// Goes over the members of an object.
    type Members: Drop;

    /// A member's key.
    type Key: Drop;

    /// The tree that the value means.
    ghost tree_of: { Self → Tree };

    /// The items that are left.
    ghost items_left: { Self.Items → List Tree };

    /// The members that are left.
    ghost members_left: { Self.Members → List (List ℕ × Tree) };

    /// The bytes of a key.
    ghost key_of: { Self.Key → List ℕ };

    /// Its first level.
    fn level(&self) -> Level<'_, Self::Items, Self::Members>
        ensures { level_tree items_left members_left result ≡ tree_of self.now };

    /// The next item.
    fn next_item(items: &mut Self::Items) -> Option<Self>
        ensures { YieldsFirstBy tree_of items_left items.old result items.new };

    /// The next member.
    fn next_member(members: &mut Self::Members) -> Option<(Self::Key, Self)>
        ensures { YieldsFirstBy (λ (p : Self.Key × Self). (key_of p.0, tree_of p.1)) members_left members.old result members.new };

    /// The text of a key.
    fn key_text<'k>(key: &'k Self::Key) -> &'k str
        ensures { result.now ≡ key_of key.now };

    /// The text of a key that is known to need no escape.
    #[inline(always)]
    fn plain_key<'k>(_key: &'k Self::Key) -> Option<PlainText<'k>>
        ensures { IfSome result (λ plain. plain.text.now ≡ key_of _key.now) }
    {
        None
    }
}

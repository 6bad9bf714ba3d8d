//! The tree that a value means.

/// A value that means one tree. It has no functions: the contracts of the traits below it speak of
/// this tree, so that a bound over several of them speaks of one.
pub trait Meaning {
    ghost use Rattle.sj_text_core.specs.Tree.{Tree};

    /// The tree that a value means.
    ghost tree: { Self → Tree };
}

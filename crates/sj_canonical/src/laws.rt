//! What holds of canonical prints: each function's contract is a law, and its body is empty.

ghost use Rattle.sj_canonical.specs.Laws.{SameIsEqualPrint, SameByIsEqualPrint, SameCanonical, IsOrderedOnce, CanonicalSpells, UnitsOfOne};

/// Two values whose objects repeat no key are the same exactly where their canonical prints are equal.
pub fn same_is_equal_print()
    ensures { SameIsEqualPrint }
{}

/// Two values are the same exactly where their canonical prints are equal, each by its own choice of
/// the member of a key that counts.
pub fn same_by_is_equal_print()
    ensures { SameByIsEqualPrint }
{}

/// A value is the same as its canonical form.
pub fn same_canonical()
    ensures { SameCanonical }
{}

/// The canonical form has every object in order, and what is in order stays as it is.
pub fn ordered_once()
    ensures { IsOrderedOnce }
{}

/// The canonical print is as long as the compact one, and spells the canonical form.
pub fn canonical_spells()
    ensures { CanonicalSpells }
{}

/// Two texts that have the same UTF-16 units are one.
pub fn units_of_one()
    ensures { UnitsOfOne }
{}

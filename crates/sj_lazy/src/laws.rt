//! What holds of every lazy value: the function's contract is a law, and its body is empty.

ghost use Rattle.sj_lazy.specs.Paths.{LeadsKept};

/// A path leads in what a value has once it is written (`as_mut`, `into_value`) to what it led to
/// before by the value's own choice, with the member of each key that counts; or to nothing in
/// both. So a scalar that was found stays, carrier included.
pub fn leads_kept()
    ensures { LeadsKept }
{}

//! What holds of the words of maps: each function's contract is a law, and its body is empty.

ghost use Rattle.sj_object.specs.Laws.{LooksUpMembers, PutsMembers, CutsMembers, KeepsObjects, WalksChain};

/// Looking a text up among the entries of a map finds the value of the first member with that
/// text, as its tree.
pub fn looks_up_members<K, V>()
    ensures { LooksUpMembers K V }
{}

/// What `put` leaves of the entries of a map is, as members, what it leaves of the members.
pub fn puts_members<K, V>()
    ensures { PutsMembers K V }
{}

/// What `cut` leaves of the entries of a map is, as members, what it leaves of the members.
pub fn cuts_members<K, V>()
    ensures { CutsMembers K V }
{}

/// The object of a map whose values are kept is kept: no key stands twice in it.
pub fn keeps_objects<K, V, S>()
    ensures { KeepsObjects K V S }
{}

/// A look-up in buckets compares at most the entries whose hashes share the text's bucket.
pub fn walks_chain<K, V>()
    ensures { WalksChain K V }
{}

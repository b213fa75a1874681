//! States laws about spellings and errors, for all byte lists. Each function states a law in its clauses. It
//! does nothing and allocates no memory.

ghost use Rattle.serf_pack.specs.Laws.{OneTree, OneError, NeverBoth, ReadsExactly, CanonicalHeads, AppendersPack};

/// A byte list spells at most one value and has at most one first error, and never has both.
pub fn one_reading()
    ensures tree { OneTree }
    ensures error { OneError }
    ensures apart { NeverBoth }
{}

/// Reading a byte list from left to right agrees with the relations `Packs` and `IsMalformed`. It returns a
/// value if and only if the bytes spell this value, and an error if and only if it is the first error of the
/// bytes. Whatever it accepts as a head at the start of the bytes is a head. The contracts of the crates that
/// depend on this one use this reading to define what a byte list spells.
pub fn exact_reading()
    ensures { ReadsExactly }
{}

/// The canonical headers are heads with the counts and lengths that they were made from, and the canonical
/// integers are heads with their numbers.
pub fn canonical_heads()
    ensures { CanonicalHeads }
{}

/// The bytes that an appender writes spell the value that it was called with, at every place in an input.
pub fn appenders_pack()
    ensures { AppendersPack }
{}

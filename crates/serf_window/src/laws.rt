//! States laws about slots with entries of any kind, for proofs in the crates that depend on this one.

ghost use Rattle.std.specs.Prelude.{ℕ};
ghost use Rattle.serf_wire.specs.declared.texts.EventBody.{EventBody};
ghost use Rattle.serf_window.specs.Laws.{SlotLaws};
ghost use Rattle.serf_window.specs.Recall.{RecallLaws};

/// States the laws of slots, for events and for queries. The function does nothing at run time.
pub fn slot_laws()
    ensures events { SlotLaws EventBody }
    ensures queries { SlotLaws ℕ }
{}

/// States the laws of windows that are filled again after a restart, for events and for queries. The function
/// does nothing at run time.
pub fn recall_laws()
    ensures events { RecallLaws EventBody }
    ensures queries { RecallLaws ℕ }
{}

//! What a page stands for, a file of pages, and the one-thread object: which replies one user of a file of
//! rows may get (docs/DEFINITIONS.md).
//!
//! The crate has no code. Its function is a law: it ensures something of the definitions alone.
#![tactic(auto)]

ghost use Rattle.rm_model.specs.Laws.{SetsOneSlot};

/// Setting a slot of a page changes that slot and no other, and adds slots only up to it.
pub fn set_changes_one_slot()
    ensures { SetsOneSlot }
{}

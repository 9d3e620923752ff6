//! Laws of soundness. A law is a function without code: its contract is what is proved.

ghost use Rattle.rm_recovery.specs.Laws.{DamagedIsNotSound, SettledIsFit, UnmadeIsNotSound};

/// A volume that is damaged is not sound: no restart of a sound one ends with [`rm_types::Fault::Damaged`].
#[tactic(auto, using(crate::proofs::Soundness::sound_is_not_damaged))]
pub fn what_is_damaged_is_not_sound()
    ensures { DamagedIsNotSound }
{}

/// A volume that is not made is not sound.
#[tactic(auto, using(crate::proofs::Soundness::sound_is_made))]
pub fn what_is_not_made_is_not_sound()
    ensures { UnmadeIsNotSound }
{}

/// A legal log that is restarted is legal, holds the committed rows alone, and is no longer than was kept for it.
#[tactic(auto, using(crate::proofs::Fitness::settled_is_fit))]
pub fn what_is_restarted_is_fit()
    ensures { SettledIsFit }
{}

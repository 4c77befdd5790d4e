//! What holds of all increments.

ghost use Rattle.std.specs.Prelude.{◌≡◌, ℕ, Some, Ok};
ghost use Rattle.vnode_model.specs.declared.volumes.VolumeFields.{VolumeFields};
ghost use Rattle.vnode_model.specs.Limits.{AreVolume};
ghost use Rattle.vnode_model.specs.Increments.{applied, selected, Follows};
ghost use Rattle.vnode_model.specs.Chains.{WholeRestores, ChainRestores, AppliedIsVolume};

/// A volume that follows an older state of it, but for what the server changed since a time, is what its increment from
/// that time on makes of the older state.
pub fn increments_restore()
    ensures { (old new : VolumeFields) (since until : ℕ) → AreVolume old.vnodes → AreVolume new.vnodes → Follows old since new → applied (Some old) (selected new since until) ≡ Ok new }
{}

/// A volume is what its increment from 0 makes of no base.
pub fn whole_increments_restore()
    ensures { WholeRestores }
{}

/// The increments of a chain of volumes, each of which follows the one before it since its from time, make the last of
/// them of the chain's base. Without a base the first one is from 0.
pub fn chains_restore()
    ensures { ChainRestores }
{}

/// What an increment makes of a base, which is a volume or none, is a volume.
pub fn applied_is_a_volume()
    ensures { AppliedIsVolume }
{}

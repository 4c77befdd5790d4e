//! What each call of a cell keeps of the form of its list, where what the call is given has the forms of its types.

ghost use Rattle.std.specs.Prelude.{◌≡◌, ℕ, List as AnyList, Ok};
ghost use Rattle.bk_text.specs.Alphabets.{IsName, IsHost};
ghost use Rattle.byte_formats.specs.Forms.{IsFour};
ghost use Rattle.vnode_model.specs.declared.volumes.VolumeFields.{VolumeFields};
ghost use Rattle.cell_core.specs.declared.stored.Stored.{Stored};
ghost use Rattle.cell_core.specs.Calls.{Creation, after_create, after_put, after_write, after_remove_vnode, after_backup, after_remove};
ghost use Rattle.dump_stream.specs.Forms.{IsBytes};
ghost use Rattle.cell_core.specs.Forms.{IsVolumeForm};
ghost use Rattle.restore_target.specs.Targets.{after_restore};
ghost use Rattle.cell_forms.specs.Forms.{IsCellForm};

use bk_text::form_tests;

/// `create` keeps the form of a cell.
pub fn a_new_volume_keeps_the_form()
    ensures { (cell : AnyList Stored) (server partition name : AnyList ℕ) (now : ℕ) (made : Creation) → IsHost server → IsName partition → IsName name → IsFour now → IsCellForm cell → after_create cell server partition name now ≡ Ok made → IsCellForm made.list }
{}

/// `put` keeps the form of a cell.
pub fn a_put_volume_keeps_the_form()
    ensures { (cell : AnyList Stored) (server partition : AnyList ℕ) (volume : VolumeFields) (new : AnyList Stored) → IsHost server → IsName partition → IsVolumeForm volume → IsCellForm cell → after_put cell server partition volume ≡ Ok new → IsCellForm new }
{}

/// `write` keeps the form of a cell.
pub fn written_data_keeps_the_form()
    ensures { (cell : AnyList Stored) (name : AnyList ℕ) (number : ℕ) (body : AnyList ℕ) (now : ℕ) (new : AnyList Stored) → IsFour number → IsBytes body → IsFour now → IsCellForm cell → after_write cell name number body now ≡ Ok new → IsCellForm new }
{}

/// `remove_vnode` keeps the form of a cell.
pub fn a_removed_vnode_keeps_the_form()
    ensures { (cell : AnyList Stored) (name : AnyList ℕ) (number now : ℕ) (new : AnyList Stored) → IsFour now → IsCellForm cell → after_remove_vnode cell name number now ≡ Ok new → IsCellForm new }
{}

/// `backup` keeps the form of a cell.
pub fn a_backup_volume_keeps_the_form()
    ensures { (cell : AnyList Stored) (name : AnyList ℕ) (now : ℕ) (new : AnyList Stored) → IsFour now → IsCellForm cell → after_backup cell name now ≡ Ok new → IsCellForm new }
{}

/// `remove` keeps the form of a cell.
pub fn a_removed_volume_keeps_the_form()
    ensures { (cell : AnyList Stored) (name : AnyList ℕ) (new : AnyList Stored) → IsCellForm cell → after_remove cell name ≡ Ok new → IsCellForm new }
{}

/// A volume that is restored under a name, as one made now, keeps the form of a cell.
pub fn a_restored_volume_keeps_the_form()
    ensures { (cell : AnyList Stored) (server partition name : AnyList ℕ) (now : ℕ) (volume : VolumeFields) (new : AnyList Stored) → IsHost server → IsName partition → IsFour now → IsVolumeForm volume → IsCellForm cell → after_restore cell server partition name now volume ≡ Ok new → IsCellForm new }
{
    form_tests();
}

//! What is so of what scripts find.

ghost use Rattle.std.specs.Prelude.{◌≡◌, ◌++◌, ℕ, List as AnyList, true, false, All};
ghost use Rattle.backup_session.specs.Worlds.{World};
ghost use Rattle.backup_script.specs.Scripts.{script};
ghost use Rattle.backup_script.specs.Held.{IsHeldThroughout, line_asks_archive};

/// A script none of whose lines is a command that asks the archive finds all that it asks for, whatever stands on the plant.
pub fn scripts_that_ask_no_archive()
    ensures { (w : World) (moments : AnyList ℕ) (lines : AnyList (AnyList ℕ)) → All (λ line. line_asks_archive line ≡ false) lines → IsHeldThroughout w moments lines }
{}

/// Where all lines find what they ask for, the first of them do, and so do those behind them, in the world that the first ones leave.
pub fn fronts_of_scripts()
    ensures front { (w : World) (moments : AnyList ℕ) (lines more : AnyList (AnyList ℕ)) → IsHeldThroughout w moments (lines ++ more) → IsHeldThroughout w moments lines }
    ensures behind { (w : World) (moments : AnyList ℕ) (lines more : AnyList (AnyList ℕ)) → let s = script w moments lines in s.goes ≡ true → IsHeldThroughout w moments (lines ++ more) → IsHeldThroughout s.world s.moments more }
{}

//! What holds of all streams.

ghost use Rattle.std.specs.Prelude.{◌≡◌, ℕ, List, [], ◌++◌, Result};
ghost use Rattle.vnode_model.specs.declared.increments.Increment.{Increment};
ghost use Rattle.dump_stream.specs.declared.answers.StreamFault.{StreamFault};
ghost use Rattle.dump_stream.specs.Stream.{Spells};
ghost use Rattle.dump_stream.specs.Reads.{Answers, Agree};

/// No stream is a proper prefix of another, and no bytes say two things.
pub fn no_stream_begins_another()
    ensures { (bytes more : List ℕ) (i j : Increment) → Spells bytes i → Spells (bytes ++ more) j → (more ≡ []) × (j ≡ i) }
{}

/// Bytes have one answer, unless memory runs out: what `read` gives, and what pieces that are fed come to.
pub fn bytes_have_one_answer()
    ensures { (bytes : List ℕ) (one other : Result (Increment × ℕ) StreamFault) → Answers bytes one → Answers bytes other → Agree one other }
{}

//! What holds of records and their bytes. Each function carries its laws as clauses, and does nothing.
ghost use Rattle.std.specs.Prelude.{◌≡◌, ◌≤◌, ℕ, List, length, Ok, Err};
ghost use Rattle.fw_flow.specs.Dataflow.{Dataflow};
ghost use Rattle.fw_record.specs.declared.record.Checkpoint.{Checkpoint as Saved};
ghost use Rattle.fw_record.specs.declared.record.Record.{Record as Spelled};
ghost use Rattle.fw_record.specs.Spelling.{spelling};
ghost use Rattle.fw_record.specs.Sound.{IsCheckpoint, IsSound};
ghost use Rattle.fw_record.specs.OfNode.{IsCheckpointRecordOf, AreChangesOf, HasCanonicalFronts};
ghost use Rattle.fw_record.specs.Reading.{whole_of};

/// Reading gives a sound record exactly of its spelling, and no two sound records have one spelling.
pub fn one_spelling()
    ensures read_again { (r : Spelled) → IsSound r → whole_of (spelling r) ≡ Ok r }
    ensures same { (q r : Spelled) → IsSound q → IsSound r → spelling q ≡ spelling r → q ≡ r }
{}

/// The first broken field begins in the bytes, or at their end.
#[tactic(auto, using(crate::proofs::PlaceLaws::left_is_inside))]
pub fn left_is_in_the_bytes()
    ensures { (bytes : List ℕ) (left : ℕ) → whole_of bytes ≡ Err left → left ≤ length bytes }
{}

/// The fronts of a checkpoint that has a spelling and is one of a node, whole or as changes, are canonical in their domains.
pub fn fronts_of_a_node_are_canonical()
    ensures whole { (flow : Dataflow) (p : ℕ) (f : List (List ℕ)) (c : Saved) → IsCheckpoint c → IsCheckpointRecordOf flow p f c
        → HasCanonicalFronts flow p c.recorded }
    ensures changes { (flow : Dataflow) (p : ℕ) (f : List (List ℕ)) (c : Saved) → IsCheckpoint c → AreChangesOf flow p f c
        → HasCanonicalFronts flow p c.recorded }
{}

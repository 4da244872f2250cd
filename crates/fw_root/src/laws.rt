//! What holds of roots and their bytes. Each function carries its laws as clauses, and does nothing.
ghost use Rattle.std.specs.Prelude.{◌≡◌, ◌≤◌, ℕ, List, length, Ok, Err};
ghost use Rattle.fw_flow.specs.Dataflow.{Dataflow};
ghost use Rattle.fw_root.specs.declared.root.Root.{Root as Spelled};
ghost use Rattle.fw_root.specs.OfFlow.{Given};
ghost use Rattle.fw_root.specs.Spelling.{root_spelling};
ghost use Rattle.fw_root.specs.Sound.{IsRootFor};
ghost use Rattle.fw_root.specs.Reading.{read_root_head, root_reading};

/// Reading gives a root of a dataflow and its batches exactly of its spelling, and no two of them have one spelling.
pub fn roots_have_one_spelling()
    ensures read_again { (flow : Dataflow) (batches : Given) (r : Spelled) → IsRootFor flow batches r
        → root_reading flow batches (root_spelling r) ≡ Ok r }
    ensures same { (flow : Dataflow) (batches : Given) (q r : Spelled) → IsRootFor flow batches q → IsRootFor flow batches r
        → root_spelling q ≡ root_spelling r → q ≡ r }
{}

/// The bytes of a root begin with its head, so that it is known of which texts and which turn it is before the rest is read.
#[tactic(auto, using(crate::proofs::HeadLaws::head_of_root))]
pub fn roots_begin_with_their_heads()
    ensures { (flow : Dataflow) (batches : Given) (r : Spelled) → IsRootFor flow batches r
        → (rest : List ℕ) × (read_root_head (root_spelling r) ≡ Ok (record { digests = r.mark.digests; turn = r.mark.turn }, rest)) }
{}

/// The first broken field of a root begins in the bytes, or at their end.
#[tactic(auto, using(crate::proofs::RootLaws::left_is_inside))]
pub fn broken_fields_are_in_the_bytes()
    ensures { (flow : Dataflow) (batches : Given) (bytes : List ℕ) (left : ℕ)
        → root_reading flow batches bytes ≡ Err left → left ≤ length bytes }
{}

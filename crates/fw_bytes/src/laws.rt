//! What holds of numbers, stamps, fronts and counts and of their bytes. Each function carries its laws as clauses, and does
//! nothing.
ghost use Rattle.std.specs.Prelude.{◌≡◌, ℕ, ◌<◌, ◌^◌, List, [], ◌∷◌, true, length};
ghost use Rattle.std.specs.Int.{w16, w32, w64, to_be_bytes};
ghost use Rattle.std.specs.List.{AllByRecursion};
ghost use Rattle.fw_time.specs.declared.stamp.Bounds.{Bounds as Domain};
ghost use Rattle.fw_time.specs.Stamp.{in_domain};
ghost use Rattle.fw_frontier.specs.Front.{IsCanonical};
ghost use Rattle.fw_bytes.specs.Fields.{byte_of, number_field, stamp_field, sent_count_of};
ghost use Rattle.fw_bytes.specs.Spelling.{u32_bytes, u64_bytes, stamp_bytes, front_bytes, sent_count_bytes, sent_counts_bytes};
ghost use Rattle.fw_bytes.specs.Sound.{IsStamp, IsFront, IsSentCount, AreSentCounts};
ghost use Rattle.fw_bytes.specs.Reading.{read_front, sent_counts_of};
ghost use Rattle.fw_bytes.specs.Exact.{IsExactField, IsExactReading};

/// A byte and numbers of two, four and eight bytes are read as they are spelled.
pub fn numbers_are_read_as_spelled()
    ensures one { IsExactField byte_of (λ b. b ∷ []) (λ b. b < 256) }
    ensures two { IsExactField (number_field w16) (λ n. to_be_bytes w16 n) (λ n. n < 2 ^ 16) }
    ensures four { IsExactField (number_field w32) u32_bytes (λ n. n < 2 ^ 32) }
    ensures eight { IsExactField (number_field w64) u64_bytes (λ n. n < 2 ^ 64) }
{}

/// Stamps of one to four coordinates are read as they are spelled, and so are the fronts of such stamps that are in order.
pub fn fronts_are_read_as_spelled()
    ensures stamps { IsExactField stamp_field stamp_bytes IsStamp }
    ensures fronts { IsExactReading read_front front_bytes IsFront }
{}

/// Counts of what was sent are read as they are spelled, and so are lists of them that are in order.
pub fn counts_are_read_as_spelled()
    ensures one { IsExactField sent_count_of sent_count_bytes IsSentCount }
    ensures all { IsExactReading sent_counts_of sent_counts_bytes AreSentCounts }
{}

/// In a domain of stamps that have a spelling the fronts that have one are the canonical ones.
pub fn sound_fronts_are_canonical()
    ensures canonical { (bounds : Domain) (f : List (List ℕ))
        → AllByRecursion (λ o. in_domain bounds o ≡ true) f → IsFront f → IsCanonical bounds f }
    ensures sound { (bounds : Domain) (f : List (List ℕ))
        → IsStamp bounds.greatest → length f < 2 ^ 32 → IsCanonical bounds f → IsFront f }
{}

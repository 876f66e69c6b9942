//! Laws of slots, sums and texts.

ghost use Rattle.std.specs.Prelude.{◌≡◌, ◌+◌, ◌-◌, ◌*◌, ◌/◌, ◌<◌, ◌≤◌, ◌⊎◌, ◌↔◌, ◌∷◌, ◌++◌, [], ℕ};
ghost use Rattle.std.specs.Prelude.{◌≢◌, All, List, codes, decimal, flat_map, length, map, min};
ghost use Rattle.std.specs.Prelude.{take, sum, sum_by, slice_index, slice_index_or};
ghost use Rattle.plan_cert.specs.declared.Segment.{Segment};
ghost use Rattle.plan_cert.specs.PlanSlots.{slot_of, slots_of, plan_slots, total_slots};
ghost use Rattle.plan_cert.specs.PlanSlots.{total_bytes, sum_through};
ghost use Rattle.plan_cert.specs.Plan.{IsPlan};
ghost use Rattle.plan_cert.specs.CertFormat.{cert_text, segment_words};
ghost use Rattle.plan_cert.specs.CertGrammar.{FitCertLimits, IsBadLine, IsCertificate, IsOneLine};
ghost use Rattle.plan_cert.specs.CertGrammar.{OfBegunTexts, begun_text};
ghost use Rattle.plan_cert.specs.Feasibility.{excess};

use crate::cert_reader::{MAX_NUMBER, MAX_SEGMENTS};

/// A plan's slots are those of its segments and add up to its bytes. A slot of a segment sends the
/// segment's bytes over its slots, rounded down or up; what its first slots have sent is the height
/// of its straight line at their end, rounded down.
pub fn law_plan_slots_add_up_to_its_bytes()
    // the slots of all segments, one after the other
    ensures count { (segments : List Segment) →
        length (plan_slots segments) ≡ total_slots segments }
    ensures sum { (segments : List Segment) → IsPlan segments →
        sum (plan_slots segments) ≡ total_bytes segments }
    ensures place { (segments : List Segment) (s : Segment) (i j : ℕ) → i < length segments →
        s ≡ slice_index_or segments i s → j < s.slots →
        slice_index (plan_slots segments) (total_slots (take i segments) + j) ≡ slot_of s j }
    // one slot of a segment, and its first ones
    ensures rounded { (s : Segment) (j : ℕ) → 1 ≤ s.slots →
        (slot_of s j ≡ s.bytes / s.slots) ⊎ (slot_of s j ≡ (s.bytes + (s.slots - 1)) / s.slots) }
    ensures line { (s : Segment) (j : ℕ) → 1 ≤ s.slots → j ≤ s.slots →
        (sum (take j (slots_of s)) * s.slots ≤ j * s.bytes)
        × (j * s.bytes < (sum (take j (slots_of s)) + 1) * s.slots) }
{}

/// The running sum of a plan's slots grows in each slot by that slot's bytes, never falls, and is
/// the plan's bytes from its last slot on.
pub fn law_running_sum_grows_by_each_slot()
    ensures first { (segments : List Segment) →
        sum_through segments 0 ≡ slice_index (plan_slots segments) 0 }
    ensures next { (segments : List Segment) (t : ℕ) →
        sum_through segments (t + 1)
        ≡ sum_through segments t + slice_index (plan_slots segments) (t + 1) }
    ensures rises { (segments : List Segment) (t u : ℕ) → t ≤ u →
        sum_through segments t ≤ sum_through segments u }
    ensures end { (segments : List Segment) (t : ℕ) → IsPlan segments →
        total_slots segments ≤ t + 1 → sum_through segments t ≡ total_bytes segments }
{}

/// A law: a certificate is these lines, each ended by LF: the title, the slots and the bytes of all
/// segments, and for each segment its slots and bytes, in this order. No other list of segments
/// whose numbers a certificate can name has the same text.
pub fn law_certificate_text_is_unique()
    ensures lines { (segments : List Segment) →
        cert_text segments ≡ flat_map (λ line. line ++ codes "\n")
        (codes "smooth 1"
        ∷ (codes "slots " ++ decimal (sum_by (λ s. s.slots) segments))
        ∷ (codes "bytes " ++ decimal (sum_by (λ s. s.bytes) segments))
        ∷ map (λ s. codes "segment " ++ decimal s.slots ++ codes " " ++ decimal s.bytes) segments
        ++ codes "end" ∷ []) }
    ensures one { (segments others : List Segment) → FitCertLimits segments → FitCertLimits others →
        cert_text segments ≡ cert_text others → segments ≡ others }
{}

/// The text that is written of a plan is read back: it is the certificate of the plan's own
/// segments, with their slots and bytes, and so [`crate::read_cert`] answers them, or that there is
/// no memory.
pub fn law_written_plan_is_read_back()
    ensures { (segments : List Segment) → IsPlan segments →
        IsCertificate (cert_text segments) (total_slots segments) (total_bytes segments) segments }
{}

/// The line that is named of a text that is no certificate is the first one that breaks the format:
/// every line before it is that of a certificate, and it isn't, or the text ends in it, or it
/// stands behind the end. Of a text whose lines are all well formed it is `slots` where the
/// segments have another number of slots, else `bytes`. No other line is named.
pub fn law_bad_line_is_the_first()
    // a line of the head
    ensures title { (line rest : List ℕ) → IsOneLine line → line ≢ codes "smooth 1" →
        IsBadLine (line ++ 10 ∷ rest) 1 }
    ensures slots { (line rest : List ℕ) → IsOneLine line →
        ((n : ℕ) → n ≤ MAX_NUMBER → line ≢ codes "slots " ++ decimal n) →
        IsBadLine (codes "smooth 1" ++ 10 ∷ (line ++ 10 ∷ rest)) 2 }
    ensures bytes { (slots : ℕ) (line rest : List ℕ) → slots ≤ MAX_NUMBER → IsOneLine line →
        ((n : ℕ) → n ≤ MAX_NUMBER → line ≢ codes "bytes " ++ decimal n) →
        IsBadLine
        (codes "smooth 1" ++ 10 ∷ ((codes "slots " ++ decimal slots) ++ 10 ∷ (line ++ 10 ∷ rest)))
        3 }
    // a line after the head: a bad one, one that is missing, or one behind the end
    ensures segment { OfBegunTexts (λ slots bytes segments. (line rest : List ℕ) →
        IsOneLine line → line ≢ codes "end" → (length segments ≡ MAX_SEGMENTS)
        ⊎ ((s : Segment) → s.slots ≤ MAX_NUMBER → s.bytes ≤ MAX_NUMBER → line ≢ segment_words s) →
        IsBadLine (begun_text slots bytes segments (line ++ 10 ∷ rest)) (length segments + 4)) }
    ensures short { OfBegunTexts (λ slots bytes segments. (line : List ℕ) → IsOneLine line →
        IsBadLine (begun_text slots bytes segments line) (length segments + 4)) }
    ensures after { OfBegunTexts (λ slots bytes segments. (rest : List ℕ) → rest ≢ [] →
        IsBadLine (begun_text slots bytes segments (codes "end" ++ 10 ∷ rest))
        (length segments + 5)) }
    // well formed lines whose sums don't agree
    ensures sums { OfBegunTexts (λ slots bytes segments.
        (total_slots segments ≢ slots →
        IsBadLine (begun_text slots bytes segments (codes "end\n")) 2)
        × (total_slots segments ≡ slots → total_bytes segments ≢ bytes →
        IsBadLine (begun_text slots bytes segments (codes "end\n")) 3)) }
    // no other line
    ensures one { (text : List ℕ) (line other : ℕ) → IsBadLine text line → IsBadLine text other →
        line ≡ other }
{}

/// A law: what is sent above a rate and what is sent within it are together what is sent. Nothing
/// is sent above a rate that no slot exceeds, and else something is.
pub fn law_excess_and_the_rest_are_all_bytes()
    ensures parts { (x : List ℕ) (p q : ℕ) →
        excess x p q + sum_by (λ b. min (q * b) p) x ≡ q * sum x }
    ensures none { (x : List ℕ) (p q : ℕ) →
        (excess x p q ≡ 0) ↔ All (λ b. q * b ≤ p) x }
{}

//! Laws: what the two curves mean for a client that plays its pictures.

ghost use Rattle.std.specs.Prelude.{◌≡◌, ℕ, ◌+◌, ◌*◌, ◌<◌, ◌≤◌, ◌↔◌, List, max, min};
ghost use Rattle.wire_curve.specs.declared.film.Timing.{Timing};
ghost use Rattle.wire_curve.specs.FilmCurves.{due_slot, used_before, bytes_used_in, low_at, up_at};
ghost use Rattle.wire_curve.specs.FilmCurves.{total_of};
ghost use Rattle.wire_curve.specs.PlayedPictures.{AreUsedBy, AreUsedBefore, played_to};
ghost use Rattle.wire_curve.specs.declared.film.CurveFault.TheVariants.{BufferTooSmall};
ghost use Rattle.wire_curve.specs.CurveFaults.{HasCurveFault, IsAccepted};

/// A law: a picture is used in the slot in whose time its own time begins, where slots are counted
/// from the end of the delay.
pub fn law_picture_is_used_in_its_slot()
    ensures { (timing : Timing) (k s : ℕ) → 1 ≤ timing.slot_units →
        (due_slot timing k ≡ s + timing.delay)
        ↔ ((s * timing.slot_units ≤ k * timing.picture_units)
        × (k * timing.picture_units < (s + 1) * timing.slot_units)) }
{}

/// A law: some first pictures are those that are used by the end of a slot, and the lower curve is
/// their bytes, or what was sent before. Some are those that are used before it begins: the upper
/// curve is their bytes and a full buffer, or all bytes. From one slot to the next what is used
/// grows by what the slot uses.
pub fn law_curves_follow_the_played_pictures()
    // the lower curve, by the pictures that are used by the end of a slot
    ensures some_by { (sizes : List ℕ) (timing : Timing) (t : ℕ) → 1 ≤ timing.slot_units →
        (n : ℕ) × AreUsedBy sizes timing n t }
    ensures low { (sizes : List ℕ) (timing : Timing) (n t : ℕ) → AreUsedBy sizes timing n t →
        low_at sizes timing t ≡ max timing.sent (played_to sizes timing n) }
    // the upper curve, by those that are used before it begins
    ensures some_before { (sizes : List ℕ) (timing : Timing) (t : ℕ) → 1 ≤ timing.slot_units →
        (n : ℕ) × AreUsedBefore sizes timing n t }
    ensures up { (sizes : List ℕ) (timing : Timing) (n t : ℕ) → AreUsedBefore sizes timing n t →
        up_at sizes timing t
        ≡ min (total_of sizes timing) (played_to sizes timing n + timing.buffer) }
    // the growth of what is used, from one slot to the next
    ensures slot { (sizes : List ℕ) (timing : Timing) (t : ℕ) → used_before sizes timing (t + 1)
        ≡ used_before sizes timing t + bytes_used_in sizes timing t }
{}

/// A law: where a buffer is too small, the pictures have curves for the same client with another
/// buffer exactly where that holds the least one named, or more.
pub fn law_least_buffer_is_exact()
    ensures { (sizes : List ℕ) (timing : Timing) (slot used least buffer : ℕ) →
        HasCurveFault sizes timing (BufferTooSmall slot used least) →
        (IsAccepted sizes (record timing { buffer = buffer }) ↔ (least ≤ buffer)) }
{}

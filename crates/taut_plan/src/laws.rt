//! The law that sound curves have one taut list of segments.

ghost use Rattle.std.specs.Prelude.{◌≡◌, ℕ, List};
ghost use Rattle.wire_curve.specs.SoundCurves.{AreSound};
ghost use Rattle.plan_cert.specs.declared.Segment.{Segment};
ghost use Rattle.cert_check.specs.CertFaults.{IsTaut};

/// Sound curves have exactly one taut list of segments.
pub fn law_exactly_one_taut_list_exists()
    ensures { (from : ℕ) (low up : List ℕ) → AreSound from low up →
        (segments : List Segment) × (IsTaut from low up segments ×
        ((others : List Segment) → IsTaut from low up others → others ≡ segments)) }
{}

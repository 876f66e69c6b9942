//! Laws of offers, and of the buffer that a refusal names.

ghost use Rattle.std.specs.Prelude.{◌≡◌, ℕ, List, Option};
ghost use Rattle.plan_cert.specs.declared.Segment.{Segment};
ghost use Rattle.early_start.specs.StartSearch.{Offers};
ghost use Rattle.film_run.specs.Plans.{rest_sizes, timing_of};
ghost use Rattle.film_run.specs.Units.{stored_sizes};
ghost use Rattle.session_records.specs.declared.notes.OfferNote.{OfferNote};
ghost use Rattle.rtsp_methods.specs.declared.refusals.Refusal.TheVariants.{Buffer};
ghost use Rattle.session.specs.RequestSteps.{after_offer};
ghost use Rattle.session.specs.OfferLaws.{IsLeastBuffer, IsLeastBufferReply, IsOfferAsked};
ghost use Rattle.session.specs.OfferLaws.{IsOfferReply};
ghost use Rattle.session.specs.RequestedPlans.{HasNoPlan};
ghost use Rattle.session.specs.RunRequests.{playback_of, run_of};
ghost use Rattle.rtsp_replies.specs.Replies.{refusal_text};
ghost use Rattle.session_laws.specs.SessionTerms.{Ask, Hears, Run, SessionState, Setup};
ghost use Rattle.session_laws.specs.SessionTerms.{sequence_of};

/// An offer is asked of the station exactly as its request has it: in Ready, with the plan of a
/// PLAY without a Range and the wait that its `x-Wait` names, and nothing else changes. The reply
/// names the start that was found, and each start without room, a line each.
pub fn law_offer_matches_its_request()
    ensures asked { (old new : SessionState) (message : List ℕ) (plan : List Segment) (offers :
        Offers)
        → Hears old message (Ask.Offer plan offers) new
        → IsOfferAsked old message plan offers new }
    ensures told { (old : SessionState) (note : OfferNote)
        → IsOfferReply (sequence_of old.awaited) note.offers (after_offer old note).text }
{}

/// The buffer that a refusal names is the least with which what the PLAY asks for has a plan, and
/// the reply names it, with 451.
pub fn law_least_buffer_is_exact()
    ensures least { (old : SessionState) (setup : Setup) (paused : Option Run) (range : Option (List
        ℕ))
        (least : ℕ) → (is : HasNoPlan old setup paused range (Buffer least))
        → IsLeastBuffer (rest_sizes (stored_sizes is.stored) (run_of is.wanted))
        (timing_of (playback_of is.stored.film old.settings setup) (run_of is.wanted)) least }
    ensures told { (sequence : Option ℕ) (least : ℕ) (option : List ℕ)
        → IsLeastBufferReply sequence least (refusal_text sequence (Buffer least) option) }
{}

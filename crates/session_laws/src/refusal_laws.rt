//! Laws of the refusals that all methods share, in their order, of the CSeq of replies, and of a
//! PLAY without a Range.

ghost use Rattle.std.specs.Prelude.{◌≡◌, ℕ, List, None, Some};
ghost use Rattle.rtsp_fields.specs.Ranges.{IsSpan};
ghost use Rattle.rtsp_fields.specs.declared.ranges.Origin.TheVariants.{Now};
ghost use Rattle.rtsp_fields.specs.declared.ranges.Span.{Span};
ghost use Rattle.rtsp_methods.specs.declared.methods.Method.{Method};
ghost use Rattle.session.specs.Laws.{Resumes};
ghost use Rattle.session_laws.specs.PlayLaws.{PassesEarlierChecks};
ghost use Rattle.session_laws.specs.RefusalLaws.{BeginsFilm, IsInvalidMethod, IsKnownMethod};
ghost use Rattle.session_laws.specs.RefusalLaws.{IsOfNoFilm, IsOfNoSession, IsRefusedBy};
ghost use Rattle.session_laws.specs.RefusalLaws.{IsWholeFilm, RequiresSomeOption};
ghost use Rattle.session_laws.specs.ReplyNumbers.{RepliesHaveNumber};
ghost use Rattle.session_laws.specs.SessionTerms.{Ask, Hears, IsPlannedRun, IsReadAs, Planned};
ghost use Rattle.session_laws.specs.SessionTerms.{Request, Run, SessionState, Setup, Stored};

/// The refusals that all methods share come in this order, each by the CSeq of its request: 501
/// for an unknown method, 551 for a request that has Require or Proxy-Require, 454 for one that
/// names another session or none that it needs, 404 for a URL that names no film, and 455 for a
/// method that isn't valid in the state (RFC 2326 sections 7.1.1, 12.27, 12.32 and 12.37).
pub fn law_refusals_come_in_order()
    // each of these has as premise that no earlier one applies
    ensures method { (old new : SessionState) (message : List ℕ) (ask : Ask) (request : Request) →
        Hears old message ask new → IsReadAs message request →
        ¬ IsKnownMethod request → IsRefusedBy old 501 request.sequence ask new }
    ensures option { (old new : SessionState) (message : List ℕ) (ask : Ask) (request : Request) →
        Hears old message ask new → IsReadAs message request →
        IsKnownMethod request → RequiresSomeOption request →
        IsRefusedBy old 551 request.sequence ask new }
    ensures session { (old new : SessionState) (message : List ℕ) (ask : Ask) (request : Request) →
        Hears old message ask new → IsReadAs message request →
        IsOfNoSession old request → IsRefusedBy old 454 request.sequence ask new }
    ensures film { (old new : SessionState) (message : List ℕ) (ask : Ask) (request : Request) →
        Hears old message ask new → IsReadAs message request →
        IsOfNoFilm old request → IsRefusedBy old 404 request.sequence ask new }
    ensures state { (old new : SessionState) (message : List ℕ) (ask : Ask) (request : Request)
        (method : Method) → Hears old message ask new → IsReadAs message request →
        PassesEarlierChecks method old request → IsInvalidMethod method old →
        IsRefusedBy old 455 request.sequence ask new }
{}

/// A PLAY without a Range plays the film from its beginning to its end, where no run is paused (RFC
/// 2326 section 10.5).
pub fn law_play_without_range_plays_whole_film()
    ensures { (old : SessionState) (stored : Stored) (setup : Setup) (planned : Planned) →
        IsPlannedRun old stored setup None None planned → IsWholeFilm stored.film planned.run }
{}

/// A Range from `now` on means where the paused run stopped: the run goes on from the byte after
/// the last that was sent, whatever end the Range names. Where no run is paused it means the film's
/// beginning (RFC 2326 section 3.6).
pub fn law_play_from_now_goes_on()
    ensures begins { (old : SessionState) (stored : Stored) (setup : Setup) (value : List ℕ)
        (span : Span) (planned : Planned) → IsSpan value span → span.from ≡ Now →
        IsPlannedRun old stored setup None (Some value) planned →
        BeginsFilm stored.film planned.run }
    ensures resumes { (old : SessionState) (stored : Stored) (setup : Setup) (paused : Run)
        (value : List ℕ) (span : Span) (planned : Planned) → IsSpan value span →
        span.from ≡ Now → IsPlannedRun old stored setup (Some paused) (Some value) planned →
        Resumes old paused planned }
{}

/// Each reply has the CSeq of its request, whether the session answers by itself or with what the
/// station answered (RFC 2326 section 12.17).
pub fn law_replies_have_the_request_cseq()
    ensures { (old new : SessionState) (message : List ℕ) (ask : Ask) (request : Request) →
        Hears old message ask new → IsReadAs message request →
        RepliesHaveNumber request.sequence ask new }
{}

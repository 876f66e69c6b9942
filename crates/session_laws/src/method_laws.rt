//! Laws of the methods: what each of them does for a request that nothing refuses, and how it
//! refuses one (RFC 2326 section 10).

ghost use Rattle.std.specs.Prelude.{◌≡◌, ◌⊎◌, ℕ, List, [], None, Option, Some, codes};
ghost use Rattle.rtsp_fields.specs.declared.transports.Channels.{Channels};
ghost use Rattle.rtsp_text.specs.Fields.{header_value};
ghost use Rattle.rtsp_text.specs.Replies.{reply_text};
ghost use Rattle.session.specs.declared.states.State.TheVariants.{Init};
ghost use Rattle.session_laws.specs.MethodLaws.{AnswersAlone, GivesChannels, HasBadNumber};
ghost use Rattle.session_laws.specs.MethodLaws.{IsDescribeRequest, IsFilmDescribed, IsFilmMethod};
ghost use Rattle.session_laws.specs.MethodLaws.{IsLookAsked, IsOfferAskedOf, IsOptionsAnswered};
ghost use Rattle.session_laws.specs.MethodLaws.{IsParameterRequest, IsPlainMessage, IsPlayAskedOf};
ghost use Rattle.session_laws.specs.MethodLaws.{IsPlayConfirmed, IsPlayRequest, IsRefusedFor};
ghost use Rattle.session_laws.specs.MethodLaws.{IsSetupAnswered, IsSetupRequest, IsUnknownBody};
ghost use Rattle.session_laws.specs.MethodLaws.{NamesNoOwnFilm, NamesNoSession, NamesOtherFilm};
ghost use Rattle.session_laws.specs.MethodLaws.{NamesSession, PlanRefusal, SettlesSetup, setup_in};
ghost use Rattle.session.specs.OfferLaws.{IsWaitIn};
ghost use Rattle.session_laws.specs.RefusalLaws.{IsKnownMethod, IsRefusedBy, RequiresSomeOption};
ghost use Rattle.rtsp_methods.specs.Methods.{IsWord};
ghost use Rattle.session_laws.specs.SessionTerms.{AreFilms, Ask, HasCode, Hears, IsPlannedRun};
ghost use Rattle.session_laws.specs.SessionTerms.{IsReadAs, Planned, Played, Playing, Ready};
ghost use Rattle.session_laws.specs.SessionTerms.{Request, Run, SessionState, Setup, Stored};

/// An OPTIONS that requires no option is answered 200 with the list of methods, in any state,
/// whatever its URL and its Session are (RFC 2326 section 10.1).
pub fn law_options_is_answered()
    ensures { (old new : SessionState) (message : List ℕ) (ask : Ask) (request : Request) →
        Hears old message ask new → IsPlainMessage message (codes "OPTIONS") request →
        IsOptionsAnswered old request.sequence ask new }
{}

/// A DESCRIBE of a film of the server that requires no option is answered 200 with the film's
/// description, in any state, whatever its Session is (RFC 2326 section 10.2).
pub fn law_describe_is_answered()
    ensures { (old new : SessionState) (message : List ℕ) (ask : Ask) (request : Request) →
        Hears old message ask new → IsDescribeRequest old message request →
        IsFilmDescribed old request ask new }
{}

/// The first SETUP of a film of the server is answered 200, and the session is Ready with what it
/// settles. Where no transport of its Transport can be taken it is refused by 461; where one can,
/// and its `x-Buffer` or `x-Startup` is no number in its range, by 451 (RFC 2326 section 10.4).
pub fn law_setup_is_answered()
    ensures settled { (old new : SessionState) (message : List ℕ) (ask : Ask) (request : Request)
        (film : ℕ) (setup : Setup) → AreFilms old.films → Hears old message ask new →
        IsSetupRequest old message request film →
        SettlesSetup old.settings request.head.now film setup →
        IsSetupAnswered old request.sequence setup ask new }
    ensures transport { (old new : SessionState) (message : List ℕ) (ask : Ask)
        (request : Request) (film : ℕ) → Hears old message ask new →
        IsSetupRequest old message request film →
        ((channels : Channels) → ¬ GivesChannels request.head.now channels) →
        IsRefusedBy old 461 request.sequence ask new }
    ensures number { (old new : SessionState) (message : List ℕ) (ask : Ask) (request : Request)
        (film : ℕ) → Hears old message ask new → IsSetupRequest old message request film →
        HasBadNumber old.settings request.head.now →
        IsRefusedBy old 451 request.sequence ask new }
{}

/// A PLAY that names the session and its film, and requires no option, does this. In Playing,
/// without a Range, it is answered 200 with the session, and nothing changes. In Ready the station
/// is asked for the run that its Range gives; or it is refused, by 457 where the Range has no
/// meaning for the film or gives too many pictures, by 451 where the client's buffer is too small,
/// and by 500 where memory runs out. Where its Range gives a run that has a plan, it is refused
/// only where memory runs out (RFC 2326 section 10.5).
pub fn law_play_is_answered()
    ensures playing { (old new : SessionState) (message : List ℕ) (ask : Ask) (request : Request)
        (setup : Setup) (play : Played) → Hears old message ask new →
        old.state ≡ Playing setup play → IsPlayRequest old message request setup →
        header_value request.head.now (codes "Range") ≡ None →
        IsPlayConfirmed old request.sequence ask new }
    ensures ready { (old new : SessionState) (message : List ℕ) (ask : Ask) (request : Request)
        (setup : Setup) (paused : Option Run) → Hears old message ask new →
        old.state ≡ Ready setup paused → IsPlayRequest old message request setup →
        IsPlayAskedOf old request setup paused ask new
        ⊎ PlanRefusal old setup paused (header_value request.head.now (codes "Range"))
        request.sequence ask new }
    ensures asked { (old new : SessionState) (message : List ℕ) (ask : Ask) (request : Request)
        (setup : Setup) (paused : Option Run) (stored : Stored) (planned : Planned) →
        Hears old message ask new → old.state ≡ Ready setup paused →
        IsPlayRequest old message request setup →
        IsPlannedRun old stored setup paused
        (header_value request.head.now (codes "Range")) planned →
        IsPlayAskedOf old request setup paused ask new
        ⊎ IsRefusedBy old 500 request.sequence ask new }
{}

/// A GET_PARAMETER that names the session and its film, or none, and requires no option, does what
/// its body asks for. An empty one is answered 200. `x-Booked` looks at the last slot; once the
/// room of the first 1,024 looks is used up, 500 is possible. `x-Offer` is refused by 454 where
/// there is no session, by 455 in Playing, and by 451 without a wait in its `x-Wait`; else an offer
/// is asked for, or refused as a PLAY without a Range is. Any other body is refused by 451 (RFC
/// 2326 section 10.8).
pub fn law_get_parameter_is_answered()
    // an empty body, and one that means nothing
    ensures alone { (old new : SessionState) (message : List ℕ) (ask : Ask) (request : Request) →
        Hears old message ask new → IsParameterRequest old message request →
        request.body.now ≡ [] → AnswersAlone old ask new }
    ensures empty { (old new : SessionState) (message : List ℕ) (ask : Ask) (request : Request) →
        Hears old message ask new → IsParameterRequest old message request →
        request.body.now ≡ [] → new.text ≡ reply_text 200 (Some request.sequence) [] [] }
    ensures unknown { (old new : SessionState) (message : List ℕ) (ask : Ask) (request : Request) →
        Hears old message ask new → IsParameterRequest old message request →
        IsUnknownBody request.body.now → IsRefusedBy old 451 request.sequence ask new }
    // what is booked now: one entry of the journal, so it may need memory
    ensures look { (old new : SessionState) (message : List ℕ) (ask : Ask) (request : Request) →
        Hears old message ask new → IsParameterRequest old message request →
        IsWord (codes "x-Booked") request.body.now → IsLookAsked old request.sequence ask new
        ⊎ IsRefusedFor (old.looks_left ≡ 0) old 500 request.sequence ask new }
    // a start for a play: refused by state first, then for its wait, and else asked for
    ensures no_session { (old new : SessionState) (message : List ℕ) (ask : Ask)
        (request : Request) → Hears old message ask new → IsParameterRequest old message request →
        IsWord (codes "x-Offer") request.body.now → old.state ≡ Init →
        IsRefusedBy old 454 request.sequence ask new }
    ensures playing { (old new : SessionState) (message : List ℕ) (ask : Ask) (request : Request)
        (setup : Setup) (play : Played) → Hears old message ask new →
        IsParameterRequest old message request → IsWord (codes "x-Offer") request.body.now →
        old.state ≡ Playing setup play → IsRefusedBy old 455 request.sequence ask new }
    ensures no_wait { (old new : SessionState) (message : List ℕ) (ask : Ask) (request : Request)
        (setup : Setup) (paused : Option Run) → Hears old message ask new →
        IsParameterRequest old message request → IsWord (codes "x-Offer") request.body.now →
        old.state ≡ Ready setup paused → ((wait : ℕ) → ¬ IsWaitIn request.head.now wait) →
        IsRefusedBy old 451 request.sequence ask new }
    ensures offer { (old new : SessionState) (message : List ℕ) (ask : Ask) (request : Request)
        (setup : Setup) (paused : Option Run) (wait : ℕ) → Hears old message ask new →
        IsParameterRequest old message request → IsWord (codes "x-Offer") request.body.now →
        old.state ≡ Ready setup paused → IsWaitIn request.head.now wait →
        IsOfferAskedOf old message ask new
        ⊎ PlanRefusal old setup paused None request.sequence ask new }
{}

/// A request that names the session but another film than the session's, or none, is refused by
/// 404, unless it is an OPTIONS or a DESCRIBE, which may be asked of any film (RFC 2326 section
/// 7.1.1).
pub fn law_other_film_is_not_found()
    ensures { (old new : SessionState) (message method : List ℕ) (ask : Ask) (request : Request)
        (setup : Setup) → Hears old message ask new → IsPlainMessage message method request →
        IsFilmMethod method → setup_in old.state ≡ Some setup →
        NamesSession old.id request.head.now →
        NamesOtherFilm old.films request.url.now setup.film →
        IsRefusedBy old 404 request.sequence ask new }
{}

/// A refusal that all methods share comes for its cause alone: 501 only where the method is
/// unknown, 551 only where an option is required, 454 only where no session exists that the request
/// names, and 404 only where its URL names no film of the server but others than the session's (RFC
/// 2326 section 7.1.1).
pub fn law_refusals_have_their_causes()
    ensures method { (old new : SessionState) (message : List ℕ) (request : Request) →
        Hears old message Ask.Reply new → IsReadAs message request → HasCode 501 new.text →
        ¬ IsKnownMethod request }
    ensures option { (old new : SessionState) (message : List ℕ) (request : Request) →
        Hears old message Ask.Reply new → IsReadAs message request → HasCode 551 new.text →
        RequiresSomeOption request }
    ensures session { (old new : SessionState) (message : List ℕ) (request : Request) →
        Hears old message Ask.Reply new → IsReadAs message request → HasCode 454 new.text →
        NamesNoSession old request.head.now }
    ensures film { (old new : SessionState) (message : List ℕ) (request : Request) →
        Hears old message Ask.Reply new → IsReadAs message request → HasCode 404 new.text →
        NamesNoOwnFilm old request.url.now }
{}

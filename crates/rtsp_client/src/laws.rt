//! What the definitions of a watching come to.

ghost use Rattle.std.specs.Prelude.{◌≡◌, ◌+◌, ◌-◌, ◌^◌, ◌<◌, ◌≤◌, ◌↔◌, ◌++◌, ℕ, List, length, take};
ghost use Rattle.std.specs.Prelude.{◌∷◌, [], Option, Some, codes, drop, false, is_ok, true};
ghost use Rattle.std.specs.List.{filter};
ghost use Rattle.vod_base.specs.Links.{IoEvent};
ghost use Rattle.rtp_pack.specs.Packets.{OfUnit};
ghost use Rattle.rtp_pack.specs.Heads.{head_at, head_of};
ghost use Rattle.film_frames.specs.Laws.{AreConsecutive, OfRuns, run_frames};
ghost use Rattle.film_frames.specs.FramedRuns.{run_of};
ghost use Rattle.mpeg_scan.specs.declared.films.Film.{Film};
ghost use Rattle.rtp_pack.specs.declared.reports.Identity.{Identity};
ghost use Rattle.rtsp_client.specs.Answers.{Gives, GoOn, payloads_of, request_after};
ghost use Rattle.rtsp_client.specs.RequestParts.{IsRequestText, IsSessionId};
ghost use Rattle.rtsp_client.specs.RequestParts.{play_parts, setup_parts, teardown_parts};
ghost use Rattle.rtsp_client.specs.Meters.{most_waiting, count_over, count_under, watched_in};
ghost use Rattle.rtsp_client.specs.MeterReadings.{is_overrun, is_underrun, readings};
ghost use Rattle.rtsp_client.specs.Films.{is_complete, is_good_frame};
ghost use Rattle.rtsp_client.specs.Replies.{IsAnswer, number_in, play_start, setup_session};
ghost use Rattle.rtsp_client.specs.ClientHistory.{History, ClientEvent, Frame, Reply, first_frame};
ghost use Rattle.rtsp_client.specs.ClientHistory.{frames, is_playing, replies, session};
ghost use Rattle.rtsp_client.specs.WholeFilms.{AwaitsFilm, HaveNoReply, frames_of_film};
ghost use Rattle.rtsp_client.specs.declared.watch_request.WatchEnd.TheVariants.{Done};
ghost use Rattle.rtsp_client.specs.Outcomes.{IsOutcome, WatchOutcome, events_in};
ghost use Rattle.rtsp_client.specs.MeterGuarantee.{IsBetweenAlways, IsFilmHeardAlways};
ghost use Rattle.rtsp_client.specs.MeterGuarantee.{frames_heard, frames_of};
ghost use Rattle.rtsp_client.specs.Requests.{play_text, setup_text, teardown_text};
ghost use Rattle.rtsp_client.specs.WatchRequests.{IsWish};
ghost use Rattle.rtsp_client.specs.declared.watch_request.Wish.{Wish};

use film_frames::laws::{law_payloads_are_film_bytes, law_sequence_numbers_are_consecutive};
use rtp_pack::laws::law_packets_respect_slices;

/// A watching has one outcome. The events that the client received decide it, and also what it sent
/// and handed on. No prefix of these events has another outcome: the outcome is the first cause in
/// the order of the events.
pub fn law_events_decide_watch_result()
    ensures { (wish : Wish) (told later : List IoEvent) (out : Option (List ℕ))
        (one other : WatchOutcome) → IsOutcome wish told out one → IsOutcome wish told out other →
        events_in other.doings ≡ events_in one.doings ++ later → one ≡ other }
{}

/// Where at each reading the bytes that came lie between the two curves of a film's units, the
/// meter stays between empty and the buffer: no picture is missing when it is used, and what waits
/// fits.
pub fn law_meter_stays_within_buffer()
    ensures { (wish : Wish) (sizes : List ℕ) (picture_time : ℕ) (h : History) → IsWish wish →
        0 < picture_time → 0 < length sizes → IsBetweenAlways wish sizes picture_time h →
        (count_over wish h ≡ 0) × (count_under wish h ≡ 0)
        × (most_waiting wish h ≤ wish.buffer) }
{}

/// The meter shows when the bytes that came leave the space between the two curves: where a film's
/// first units were received and no reading was over or under, what came lay between the curves at
/// each reading; and the most that waited is above the buffer exactly where a reading was over.
pub fn law_meter_detects_curve_violations()
    ensures between { (wish : Wish) (sizes : List ℕ) (picture_time : ℕ) (h : History) →
        IsWish wish → 0 < picture_time → IsFilmHeardAlways wish sizes picture_time h →
        count_over wish h ≡ 0 → count_under wish h ≡ 0 →
        IsBetweenAlways wish sizes picture_time h }
    ensures most { (wish : Wish) (h : History) →
        (most_waiting wish h ≤ wish.buffer) ↔ (count_over wish h ≡ 0) }
{}

/// The meter counts its readings: `over` is the number of those at which more waited than the
/// buffer holds, and `under` of those at which a picture was missing that was to be used by then.
pub fn law_meter_counts_readings()
    ensures over { (wish : Wish) (h : History) →
        (watched_in wish h).over ≡ length (filter (is_overrun wish) (readings wish h)) }
    ensures under { (wish : Wish) (h : History) →
        (watched_in wish h).under ≡ length (filter is_underrun (readings wish h)) }
{}

/// A client accepts each further frame of its source whose sequence number is the next one, as long
/// as units are missing. Numbers count on modulo 2^16 from any first one, so they may wrap: as
/// those of a run do (RFC 3550 section 5.1).
pub fn law_next_sequence_number_is_accepted()
    ensures { (h : History) (block : List ℕ) (first : ℕ) → is_playing h ≡ true →
        is_complete h ≡ false → 0 < frames h → is_ok (head_of (drop 4 block)) ≡ true →
        (head_at (drop 4 block)).ssrc ≡ (head_at (drop 4 (first_frame h))).ssrc →
        AreConsecutive first (frames_heard h ++ block ∷ []) → is_good_frame h block ≡ true }
{}

/// No frame of a film that is sent from its first picture to its last is refused by a client that
/// waits for it, however many frames there are and whatever number the first one has: numbers may
/// wrap (RFC 3550 section 5.1). The client asks for TEARDOWN directly after the last frame, and not
/// before. The reply to that ends the watching with `Done`.
pub fn law_whole_film_ends_in_done()
    ensures frame { (film : Film) (identity : Identity) (h : History) (block : List ℕ)
        (rest : List (List ℕ)) → identity.ssrc < 2 ^ 32 → AwaitsFilm film h →
        frames_of_film film identity ≡ frames_heard h ++ block ∷ rest →
        is_good_frame h block ≡ true }
    ensures frames { (film : Film) (identity : Identity) (h : History) (events : List ClientEvent)
        (rest : List (List ℕ)) → identity.ssrc < 2 ^ 32 → AwaitsFilm film h → HaveNoReply events →
        frames_of_film film identity ≡ (frames_heard h ++ frames_of events) ++ rest →
        GoOn h events }
    ensures before { (film : Film) (identity : Identity) (wish : Wish) (h : History)
        (block next : List ℕ) (rest : List (List ℕ)) → identity.ssrc < 2 ^ 32 →
        AwaitsFilm film h → frames_of_film film identity ≡ frames_heard h ++ block ∷ next ∷ rest →
        request_after wish h (Frame block) ≡ [] }
    ensures last { (film : Film) (identity : Identity) (wish : Wish) (h : History)
        (block : List ℕ) → identity.ssrc < 2 ^ 32 → AwaitsFilm film h →
        frames_of_film film identity ≡ frames_heard h ++ block ∷ [] →
        request_after wish h (Frame block) ≡ teardown_text wish (session h) }
    ensures done { (film : Film) (identity : Identity) (wish : Wish) (h : History)
        (message : List ℕ) → identity.ssrc < 2 ^ 32 → AwaitsFilm film h →
        frames_of_film film identity ≡ frames_heard h → replies h ≡ 2 → IsAnswer message 3 200 →
        Gives wish h (Reply message) (Done (watched_in wish h)) }
{
    // These calls hand the prover the laws of the server's frames.
    law_sequence_numbers_are_consecutive();
    law_packets_respect_slices();
}

/// The start that a client reads in a reply to PLAY is from 1 to 2^62 + 1, and each number in that
/// range is read.
pub fn law_play_start_is_in_range()
    ensures within { (message : List ℕ) (start : ℕ) → play_start message ≡ Some start →
        (1 ≤ start) × (start ≤ 2 ^ 62 + 1) }
    ensures read { (message : List ℕ) (start : ℕ) →
        number_in message (codes "x-Start") ≡ Some start → 1 ≤ start → start ≤ 2 ^ 62 + 1 →
        play_start message ≡ Some start }
{}

/// The id of a session that a client takes from the reply to SETUP may stand in a header field of
/// its requests, where it has at most 1,024 bytes: it has no control byte but the tab.
pub fn law_session_id_fits_requests()
    ensures { (message id : List ℕ) → setup_session message ≡ Some id → length id ≤ 1024 →
        IsSessionId id }
{}

/// Where the frames that came are those of a run of a film's units, what is handed on are the
/// film's bytes from where the run's first unit begins to where its last one ends.
pub fn law_output_is_film_bytes()
    ensures { OfRuns (λ film first_unit end_unit identity. (moments : List ClientEvent) →
        frames_of moments ≡ run_frames (run_of film first_unit end_unit identity) →
        OfUnit film.units.items first_unit (λ first.
        OfUnit film.units.items (end_unit - 1) (λ last.
        payloads_of moments ≡ take (last.to - first.from) (drop first.from film.bytes.items)))) }
{
    // Hands the prover the law of the server's payloads.
    law_payloads_are_film_bytes();
}

/// The texts that a client sends are complete requests of RTSP 1.0, whatever comes after them, and
/// are read as what it asks for: their method, URL and sequence number, and each name has the value
/// of the client's first field of that name: Transport, `x-Buffer` and `x-Startup` in SETUP,
/// Session and Range in PLAY, Session in TEARDOWN (RFC 2326 sections 6, 10 and 12).
pub fn law_requests_are_valid_rtsp()
    ensures setup { (wish : Wish) → IsWish wish → wish.port < 2 ^ 16 →
        IsRequestText (setup_text wish) (setup_parts wish) 1 }
    ensures play { (wish : Wish) (session : List ℕ) → IsWish wish → wish.port < 2 ^ 16 →
        IsSessionId session → IsRequestText (play_text wish session) (play_parts wish session) 2 }
    ensures teardown { (wish : Wish) (session : List ℕ) → IsWish wish → wish.port < 2 ^ 16 →
        IsSessionId session →
        IsRequestText (teardown_text wish session) (teardown_parts wish session) 3 }
{}

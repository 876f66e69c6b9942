//! What a client makes of what a connection sends: the promise to its meter, and what it reads in
//! replies.

ghost use Rattle.std.specs.Prelude.{◌≡◌, ◌≤◌, ◌<◌, ◌+◌, ◌^◌, ◌++◌, ◌∷◌, All, List, Some, [], ℕ};
ghost use Rattle.std.specs.Prelude.{codes, decimal, length, map, slice_index};
ghost use Rattle.interleave.specs.Elements.{IsMessageLength};
ghost use Rattle.mpeg_scan.specs.PictureRates.{picture_time};
ghost use Rattle.mpeg_scan.specs.declared.films.Film.{Film};
ghost use Rattle.rtsp_client.specs.Films.{units_until};
ghost use Rattle.rtsp_text.specs.Replies.{IsPlain, all_fields};
ghost use Rattle.film_run.specs.Laws.{IsSending};
ghost use Rattle.film_run.specs.Units.{stored_sizes};
ghost use Rattle.plan_cert.specs.declared.Segment.{Segment};
ghost use Rattle.film_streams.specs.Films.{length_ms};
ghost use Rattle.session.specs.RunRequests.{IsPlayable};
ghost use Rattle.film_streams.specs.declared.stream_numbers.Counts.{Counts};
ghost use Rattle.film_streams.specs.declared.stream_numbers.StreamSource.{StreamSource};
ghost use Rattle.rtsp_replies.specs.Replies.{field, play_fields, play_text};
ghost use Rattle.vod_base.specs.Links.{IoEvent};
ghost use Rattle.admission.specs.declared.entries.Entry.{Entry};
ghost use Rattle.conn.specs.Agreement.{Visit};
ghost use Rattle.conn.specs.EventSteps.{IsPrefixOf, rounds_doings};
ghost use Rattle.conn.specs.Journals.{Terms};
ghost use Rattle.rtsp_client.specs.WatchCourses.{HasCourse};
ghost use Rattle.rtsp_client.specs.Meters.{first_slot};
ghost use Rattle.rtsp_client.specs.WatchRequests.{IsWish};
ghost use Rattle.rtsp_client.specs.Outcomes.{IsDecided};
ghost use Rattle.rtsp_client.specs.declared.watch_request.WatchEnd.{WatchEnd};
ghost use Rattle.rtsp_client.specs.declared.watch_request.WatchEnd.TheVariants.{Done};
ghost use Rattle.rtsp_client.specs.declared.watch_request.Watched.{Watched};
ghost use Rattle.rtsp_client.specs.declared.watch_request.Wish.{Wish};
ghost use Rattle.session_laws.specs.SessionTerms.{Settings, Setup, Stored};
ghost use Rattle.connection_laws.specs.ClientRequests.{AreInRange, EndsWhole, HasWatchedWhole};
ghost use Rattle.connection_laws.specs.ClientRequests.{IsAskedFor};
ghost use Rattle.connection_laws.specs.LinkDelivery.{IsCarried, IsDelivered, heard_bytes};
ghost use Rattle.connection_laws.specs.LinkDelivery.{sent_bytes};
ghost use Rattle.connection_laws.specs.Replies.{text_of};
ghost use Rattle.connection_laws.specs.StartRanges.{AreMadeByConnections, IsCourseIn};
ghost use Rattle.connection_laws.specs.StartRanges.{StartsInRange};
ghost use Rattle.connection_laws.specs.WatchEnds.{AreGoodReplies, RefusesNothing};
ghost use Rattle.connection_laws.specs.WholePlays.{HasPlayedWhole, IsSetUpFor, playback_of};
ghost use Rattle.connection_laws.specs.WholePlays.{whole_run};
ghost use Rattle.connection_laws.specs.PlayReplies.{IsPlayRead};
ghost use Rattle.connection_laws.specs.Courses.{Course};

use rtsp_client::laws::law_whole_film_ends_in_done;

/// Where a link carries, slot by slot, what a server's connection sent, a film that is watched over
/// it comes back from its first picture to its last one. At each reading no picture is missing that
/// is used, and what waits fits in the buffer (Salehi, Zhang, Kurose and Towsley 1998). This
/// requires that the connection was asked for the film by the client's requests, and that its one
/// play, of the entire film and for the client's own buffer, start delay and slot, was sent to its
/// end.
///
/// The client refuses no byte, no frame and no reply of such a connection: where it was asked for
/// the film, or where the replies to the client's requests are 200. Once it received all that the
/// server sent, the reply to TEARDOWN with it, it ends in `Done`, unless its own I/O failed or its
/// memory ran out.
///
/// So it does where the server's report agrees with a journal, and connections made each entry of
/// the journal (`served_done`). Then the play's start is in its range
/// (`law_admitted_plays_start_in_range`).
pub fn law_watched_film_is_complete()
    ensures played { (wish : Wish) (stored : Stored) (course : Course) (watched : Watched)
        (heard : List IoEvent) (out : List ℕ) → IsWish wish
        → (played : HasPlayedWhole wish stored course)
        → (client : HasCourse wish (Done watched) (Some []) (Some heard) (Some []) (Some out))
        → IsCarried (rounds_doings course.rounds) heard played.play.start
        (first_slot client.mid.history) → HasWatchedWhole wish stored watched out }
    ensures asked { (wish : Wish) (stored : Stored) (course : Course) (watched : Watched)
        (heard : List IoEvent) (out : List ℕ) → (asked : IsAskedFor wish stored course)
        → (client : HasCourse wish (Done watched) (Some []) (Some heard) (Some []) (Some out))
        → IsCarried (rounds_doings course.rounds) heard asked.play.start
        (first_slot client.mid.history) → HasWatchedWhole wish stored watched out }
    ensures unrefused { (wish : Wish) (stored : Stored) (course : Course) (end : WatchEnd)
        (heard : List IoEvent) (out : List ℕ) → (played : HasPlayedWhole wish stored course)
        → played.identity.ssrc < 2 ^ 32
        → AreGoodReplies stored.film played.setup played.played (map text_of played.later)
        → HasCourse wish end (Some []) (Some heard) (Some []) (Some out)
        → IsPrefixOf (heard_bytes heard) (sent_bytes (rounds_doings course.rounds))
        → RefusesNothing end }
    ensures done { (wish : Wish) (stored : Stored) (course : Course) (end : WatchEnd)
        (heard : List IoEvent) (out : List ℕ) → IsWish wish
        → (played : HasPlayedWhole wish stored course) → played.identity.ssrc < 2 ^ 32
        → AreGoodReplies stored.film played.setup played.played (map text_of played.later)
        → (client : HasCourse wish end (Some []) (Some heard) (Some []) (Some out))
        → IsCarried (rounds_doings course.rounds) heard played.play.start
        (first_slot client.mid.history) → IsDelivered course heard → IsDecided end
        → EndsWhole wish stored end out }
    ensures asked_unrefused { (wish : Wish) (stored : Stored) (course : Course) (end : WatchEnd)
        (heard : List IoEvent) (out : List ℕ) → (asked : IsAskedFor wish stored course)
        → AreInRange course asked.play
        → HasCourse wish end (Some []) (Some heard) (Some []) (Some out)
        → IsPrefixOf (heard_bytes heard) (sent_bytes (rounds_doings course.rounds))
        → RefusesNothing end }
    ensures asked_done { (wish : Wish) (stored : Stored) (course : Course) (end : WatchEnd)
        (heard : List IoEvent) (out : List ℕ) → (asked : IsAskedFor wish stored course)
        → AreInRange course asked.play
        → (client : HasCourse wish end (Some []) (Some heard) (Some []) (Some out))
        → IsCarried (rounds_doings course.rounds) heard asked.play.start
        (first_slot client.mid.history) → IsDelivered course heard → IsDecided end
        → EndsWhole wish stored end out }
    ensures served_done { (wish : Wish) (stored : Stored) (course : Course) (end : WatchEnd)
        (heard : List IoEvent) (out : List ℕ) (visit : Visit) (terms : Terms)
        (journal : List Entry) → (asked : IsAskedFor wish stored course)
        → IsCourseIn visit terms journal course → AreMadeByConnections journal
        → slice_index course.words 2 < 2 ^ 32
        → (client : HasCourse wish end (Some []) (Some heard) (Some []) (Some out))
        → IsCarried (rounds_doings course.rounds) heard asked.play.start
        (first_slot client.mid.history) → IsDelivered course heard → IsDecided end
        → EndsWhole wish stored end out }
{
    // Hands the prover the law of the client's end.
    law_whole_film_ends_in_done();
}

/// A client asks a connection for a film with SETUP, PLAY and, once the film was due to its end,
/// TEARDOWN. Where its play was admitted and not stopped early, it is played as the client asked:
/// one play, of the entire film, by its plan for the client's buffer, start delay and slot, on the
/// channels 0 and 1. The replies to SETUP and to PLAY come before the film's first byte, and a
/// later one after its last (RFC 2326 sections 10.4, 10.5 and 10.12).
pub fn law_requested_film_is_played()
    ensures { (wish : Wish) (stored : Stored) (course : Course)
        → (asked : IsAskedFor wish stored course)
        → (played : HasPlayedWhole wish stored course) × (played.play ≡ asked.play) }
{}

/// A client that asks a connection for a film reads 200 in each reply: the one to SETUP names a
/// session, and the one to PLAY has the film's end and the play's start, which is at most slot
/// 2^62 + 1. The film's frames have the SSRC that is the third of the connection's random words
/// (RFC 3550 section 5.1). The start is in this range where the connection's report agrees with a
/// journal whose entries connections made.
pub fn law_client_requests_are_answered()
    ensures replies { (wish : Wish) (stored : Stored) (course : Course)
        → (asked : IsAskedFor wish stored course) → asked.play.start ≤ 2 ^ 62 + 1
        → (played : HasPlayedWhole wish stored course)
        → AreGoodReplies stored.film played.setup played.played (map text_of played.later) }
    ensures source { (wish : Wish) (stored : Stored) (course : Course)
        → IsAskedFor wish stored course → (played : HasPlayedWhole wish stored course)
        × (played.identity.ssrc ≡ slice_index course.words 2) }
    ensures start { (wish : Wish) (stored : Stored) (course : Course) (visit : Visit)
        (terms : Terms) (journal : List Entry) → (asked : IsAskedFor wish stored course)
        → IsCourseIn visit terms journal course → AreMadeByConnections journal
        → StartsInRange asked.play }
{}

/// A client reads in the reply to PLAY what the server writes in it: its code and number, the
/// session, the film's end and the play's start. The reply is a complete message, and its fields'
/// values have no LF and no blanks around them.
pub fn law_play_reply_is_read_correctly()
    ensures { (message id authority name : List ℕ) (sequence end_ms number time slots : ℕ)
        → IsMessageLength message (length message)
        → message ≡ play_text sequence (play_fields id 0 end_ms authority name number time) slots
        → All IsPlain (all_fields (Some sequence)
        (play_fields id 0 end_ms authority name number time
        ++ field (codes "x-Start") (decimal slots) ∷ []))
        → sequence < 2 ^ 64 → end_ms < 2 ^ 64 → 1 ≤ slots → slots ≤ 2 ^ 62 + 1
        → IsPlayRead message id sequence end_ms slots }
{}

/// The end that a server reports of an entire film, in whole milliseconds, and the time of a
/// picture give the number of the film's units.
pub fn law_unit_count_from_end_time()
    ensures { (film : Film) → units_until (length_ms film) (picture_time film.rate) ≡ length
        film.units.items }
{}

/// The plan with which a session asks for an entire film is the film's plan for the client for whom
/// the session was set up.
pub fn law_whole_film_uses_its_plan()
    ensures { (wish : Wish) (stored : Stored) (source : StreamSource) (settings : Settings)
        (setup : Setup) (counts : Counts) (plan : List Segment) → IsWish wish
        → IsSetUpFor wish settings setup
        → IsPlayable stored source settings setup counts (whole_run stored) plan
        → IsSending (stored_sizes stored) (playback_of wish stored) (whole_run stored) plan }
{}

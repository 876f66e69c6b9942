//! What the definitions of the fields come to.

ghost use Rattle.std.specs.Prelude.{◌≡◌, ◌≢◌, ◌+◌, ◌*◌, ◌/◌, ◌^◌, ◌<◌, ◌≤◌, ◌∷◌, ◌++◌, ◌↔◌, ℕ};
ghost use Rattle.std.specs.Prelude.{All, List, Some, None, codes, decimal, flat_map, length, true};
ghost use Rattle.std.specs.Char.{is_ascii_alphanumeric, is_ascii_digit};
ghost use Rattle.std.specs.List.{list_all};
ghost use Rattle.std.specs.Str.Parse.{digits_value};
ghost use Rattle.vod_base.specs.Names.{good_name};
ghost use Rattle.rtsp_text.specs.Grammar.{IsUrl};
ghost use Rattle.rtsp_fields.specs.Laws.{HasNoComma, IsDescription, IsFilmPath, IsOtherParameter};
ghost use Rattle.rtsp_fields.specs.Laws.{IsPlayParameter, IsSpelling};
ghost use Rattle.rtsp_fields.specs.Ranges.{IsSpan};
ghost use Rattle.rtsp_fields.specs.declared.ranges.Span.{Span};
ghost use Rattle.rtsp_fields.specs.declared.transports.Channels.{Channels};
ghost use Rattle.rtsp_fields.specs.Sdp.{description_text, seconds_text};
ghost use Rattle.rtsp_fields.specs.SeparatedParts.{in_lower_case};
ghost use Rattle.rtsp_fields.specs.SessionIds.{IsSession};
ghost use Rattle.rtsp_fields.specs.NptTimes.{IsTime};
ghost use Rattle.rtsp_fields.specs.Transports.{IsTransport};
ghost use Rattle.rtsp_fields.specs.Urls.{IsAbsoluteUrl, NamesFilm};

use crate::ranges::Origin;

/// A Range value gives one span.
pub fn law_range_is_unique()
    ensures { (value : List ℕ) (one other : Span) → IsSpan value one → IsSpan value other →
        one ≡ other }
{}

/// A Transport value gives one pair of channels.
pub fn law_channels_are_unique()
    ensures { (value : List ℕ) (one other : Channels) → IsTransport value one →
        IsTransport value other → one ≡ other }
{}

/// The URLs that a request line may have (RFC 2326 section 6.1), except `*`, are those that
/// [`crate::read_url`] reads.
pub fn law_every_request_url_is_read()
    ensures { (url : List ℕ) →
        (IsUrl url × (url ≢ codes "*")) ↔ ((path : ℕ) × IsAbsoluteUrl url path) }
{}

/// The authority of a URL ends at one place.
pub fn law_url_authority_is_unique()
    ensures { (url : List ℕ) (one other : ℕ) → IsAbsoluteUrl url one → IsAbsoluteUrl url other →
        one ≡ other }
{}

/// A path names one film.
pub fn law_film_name_is_unique()
    ensures { (path one other : List ℕ) → NamesFilm path one → NamesFilm path other →
        one ≡ other }
{}

/// A path names a film exactly where it is `/`, the film's good name, and nothing, `/`, or `/video`
/// with `/` after it or not.
pub fn law_film_paths_are_exact()
    ensures { (path name : List ℕ) →
        NamesFilm path name ↔ ((good_name name ≡ true) × IsFilmPath path name) }
{}

/// Milliseconds below 10^12, written as seconds with three digits, are read back as that time, in
/// nanoseconds.
pub fn law_seconds_text_round_trips()
    ensures { (ms : ℕ) → ms < 10 ^ 12 → IsTime (seconds_text ms) (ms * 1000000) }
{}

/// Seconds, a point and digits are read as that time, in nanoseconds: the digits write a part of a
/// second, which is rounded down (RFC 2326 section 3.6).
pub fn law_fraction_is_rounded_down()
    ensures { (seconds : ℕ) (digits : List ℕ) → seconds < 10 ^ 9 →
        list_all is_ascii_digit digits ≡ true → IsTime (decimal seconds ++ 46 ∷ digits)
        (seconds * 1000000000 + digits_value 10 digits * 10 ^ 9 / 10 ^ length digits) }
{}

/// The description of a film that lasts less than 10^12 milliseconds has the lines that RFC 4566
/// asks for, in their order. A player that reads them finds the duration of the film in it, and the
/// control URL of the film's one stream.
pub fn law_description_has_sdp_lines()
    ensures { (name : List ℕ) (end_ms : ℕ) → good_name name ≡ true → end_ms < 10 ^ 12
        → IsDescription (description_text name end_ms) name (end_ms * 1000000) }
{}

/// Hours, minutes and seconds, with `:` between them, are read as that time, in nanoseconds (RFC
/// 2326 section 3.6).
pub fn law_clock_time_is_read()
    ensures { (hours minutes seconds : ℕ) → hours < 10 ^ 5 → minutes ≤ 59 → seconds ≤ 59 →
        IsTime (decimal hours ++ 58 ∷ (decimal minutes ++ 58 ∷ decimal seconds))
        ((hours * 3600 + minutes * 60 + seconds) * 1000000000) }
{}

/// A Range value in normal play time, of a time, `-`, and nothing or a second time, is read as the
/// span from the one to the other; `now` means the current place (RFC 2326 section 3.6). The
/// letters of `npt` are in any case.
pub fn law_npt_range_is_read()
    ensures from { (ms : ℕ) → ms < 10 ^ 12 →
        IsSpan (codes "npt=" ++ (seconds_text ms ++ codes "-"))
        (record { from = Origin.At (ms * 1000000); to = None }) }
    ensures between { (ms end_ms : ℕ) → ms < 10 ^ 12 → end_ms < 10 ^ 12 →
        IsSpan (codes "npt=" ++ (seconds_text ms ++ (codes "-" ++ seconds_text end_ms)))
        (record { from = Origin.At (ms * 1000000); to = Some (end_ms * 1000000) }) }
    ensures now { IsSpan (codes "npt=now-") (record { from = Origin.Now; to = None }) }
    ensures now_to { (end_ms : ℕ) → end_ms < 10 ^ 12 →
        IsSpan (codes "npt=now-" ++ seconds_text end_ms)
        (record { from = Origin.Now; to = Some (end_ms * 1000000) }) }
    ensures any_case { (unit rest : List ℕ) (span : Span) → in_lower_case unit ≡ codes "npt" →
        IsSpan (codes "npt=" ++ rest) span → IsSpan (unit ++ codes "=" ++ rest) span }
{}

/// A Transport value that asks for unicast delivery on the connection itself is read as it says: on
/// two different channels, or on one, which means the next one too (RFC 2326 sections 10.12 and
/// 12.39).
pub fn law_interleaved_transport_is_read()
    ensures single { (media : ℕ) → media ≤ 254 →
        IsTransport (codes "RTP/AVP/TCP;unicast;interleaved=" ++ decimal media)
        (record { media = media; control = media + 1 }) }
    ensures pair { (media control : ℕ) → media ≤ 255 → control ≤ 255 → media ≢ control →
        IsTransport
        (codes "RTP/AVP/TCP;unicast;interleaved=" ++ (decimal media ++ 45 ∷ decimal control))
        (record { media = media; control = control }) }
{}

/// Where a Transport value asks for delivery on the connection itself and names no channels, these
/// are 0 and 1; whatever other parameters it has (RFC 2326 sections 10.12 and 12.39).
pub fn law_default_channels_are_0_and_1()
    ensures { (parts : List (List ℕ)) → All IsOtherParameter parts →
        IsTransport (codes "RTP/AVP/TCP" ++ flat_map (λ part. codes ";" ++ part) parts)
        (record { media = 0; control = 1 }) }
{}

/// Words of a Transport value are read in any case, with blanks around each part or not.
/// `mode=play` and `mode="play"` ask for playback, which is what this server does (RFC 2326 section
/// 12.39).
pub fn law_transport_words_are_read_in_any_case()
    ensures { (protocol : List ℕ) (parts : List (List ℕ)) →
        IsSpelling (codes "rtp/avp/tcp") protocol → All IsPlayParameter parts →
        IsTransport (protocol ++ flat_map (λ part. codes ";" ++ part) parts)
        (record { media = 0; control = 1 }) }
{}

/// The id of a session, one or more letters and digits, is read as itself, alone and with
/// parameters after it (RFC 2326 section 12.37).
pub fn law_session_id_is_matched()
    ensures alone { (id : List ℕ) → list_all is_ascii_alphanumeric id ≡ true → 0 < length id →
        IsSession id id }
    ensures parameters { (id rest : List ℕ) → list_all is_ascii_alphanumeric id ≡ true →
        0 < length id → IsSession (id ++ 59 ∷ rest) id }
{}

/// The alternatives of a Transport value, with a comma between two, are tried in their order: the
/// first one counts where it can be taken alone, and else the value means what the others mean (RFC
/// 2326 section 12.39).
pub fn law_first_usable_transport_counts()
    ensures first { (first rest : List ℕ) (channels : Channels) → HasNoComma first →
        IsTransport first channels → IsTransport (first ++ codes "," ++ rest) channels }
    ensures later { (first rest : List ℕ) (channels : Channels) → HasNoComma first →
        ((any : Channels) → ¬ IsTransport first any) → IsTransport rest channels →
        IsTransport (first ++ codes "," ++ rest) channels }
{}

/// An alternative that asks for delivery to many, or for recording, isn't taken.
pub fn law_multicast_and_record_are_refused()
    ensures multicast { (front : List ℕ) (channels : Channels) →
        HasNoComma (front ++ codes ";multicast") →
        ¬ IsTransport (front ++ codes ";multicast") channels }
    ensures recording { (front : List ℕ) (channels : Channels) →
        HasNoComma (front ++ codes ";mode=record") →
        ¬ IsTransport (front ++ codes ";mode=record") channels }
{}

//! What is true for every run of a film: its sizes, frames and reports.

ghost use Rattle.std.specs.Prelude.{◌≡◌, ◌+◌, ◌-◌, ◌^◌, ◌<◌, ◌≤◌, ℕ, length, map, sum, take, drop};
ghost use Rattle.mpeg_scan.specs.declared.films.Film.{Film};
ghost use Rattle.rtp_pack.specs.declared.reports.Identity.{Identity};
ghost use Rattle.rtp_pack.specs.Packets.{OfUnit};
ghost use Rattle.film_frames.specs.Laws.{AreCountsBefore, AreBlocks, AreOnChannels, AreConsecutive};
ghost use Rattle.film_frames.specs.Laws.{HeadsRoundTrip, ReportsCountFrames, ReportsPrecedeGroups};
ghost use Rattle.film_frames.specs.Laws.{HaveSizes, OfRuns, ReportsHaveSessionCounts, payloads};
ghost use Rattle.film_frames.specs.Laws.{run_frames};
ghost use Rattle.film_frames.specs.Pieces.{frames_in, wire_size};
ghost use Rattle.film_frames.specs.FramedRuns.{FramedRun, HaveEnded, count_ended, run_of};
ghost use Rattle.film_frames.specs.FramedRuns.{run_pieces, pieces_in};
ghost use Rattle.film_frames.specs.Tracks.{framed_bytes};

/// The sizes of all units of a film on the wire, and so those of any range of them, add up to at
/// most 2^42.
pub fn law_wire_size_of_film_is_bounded()
    ensures range { (film : Film) (from count : ℕ)
        → sum (map (λ u. wire_size film.slice_starts.items u)
        (take count (drop from film.units.items))) ≤ 2 ^ 42 }
    ensures all { (film : Film)
        → sum (map (λ u. wire_size film.slice_starts.items u) film.units.items) ≤ 2 ^ 42 }
{}

/// The film comes back: the payloads of a run's frames, one after another, are the film's bytes
/// from where the run's first unit begins to where its last one ends.
pub fn law_payloads_are_film_bytes()
    ensures { OfRuns (λ film first_unit end_unit identity.
        OfUnit film.units.items first_unit (λ first.
        OfUnit film.units.items (end_unit - 1) (λ last.
        payloads (run_frames (run_of film first_unit end_unit identity))
        ≡ take (last.to - first.from) (drop first.from film.bytes.items)))) }
{}

/// The sequence numbers of a run's frames count on from the identity's, modulo 2^16, and leave none
/// out.
pub fn law_sequence_numbers_are_consecutive()
    ensures frames { (run : FramedRun) → length (run_frames run) ≡ frames_in (pieces_in run) }
    ensures numbers { (run : FramedRun) → AreConsecutive run.identity.sequence (run_frames run) }
{}

/// Each report counts, modulo 2^32, the packets and octets that the session sent before the run and
/// those of the run's frames before the report, as they are read at their bytes (RFC 3550 section
/// 6.4.1). Reports are on the control channel, and frames on the other.
pub fn law_reports_count_frames_sent_before()
    ensures counts { (run : FramedRun) → ReportsCountFrames run }
    ensures fields { (run : FramedRun) → ReportsHaveSessionCounts run }
    ensures channels { (run : FramedRun) → AreOnChannels run }
{}

/// A report of a run stands directly before the first frame of each unit that starts a group, and
/// nowhere else.
pub fn law_reports_precede_groups()
    ensures { (film : Film) (first_unit end_unit : ℕ) (identity : Identity)
        → ReportsPrecedeGroups (pieces_in (run_of film first_unit end_unit identity)) }
{}

/// Each report of a run has 52 bytes; each frame has 21 to 1,400, of which its octets are all but
/// 16. Each is a complete interleaved block. All together have the sizes of the run's units.
pub fn law_frame_and_report_sizes_are_exact()
    ensures pieces { OfRuns (λ film first_unit end_unit identity.
        HaveSizes (pieces_in (run_of film first_unit end_unit identity))
        (run_pieces (run_of film first_unit end_unit identity))) }
    ensures blocks { (run : FramedRun) → AreBlocks (run_pieces run) }
    ensures all { OfRuns (λ film first_unit end_unit identity.
        length (framed_bytes (run_pieces (run_of film first_unit end_unit identity)))
        ≡ sum (map (λ u. wire_size film.slice_starts.items u)
        (take (end_unit - first_unit) (drop first_unit film.units.items)))) }
{}

/// A run of fewer units is a prefix of a run: its pieces are the first ones.
pub fn law_shorter_run_is_a_prefix()
    ensures { (film : Film) (first_unit mid_unit end_unit : ℕ) (identity : Identity)
        → mid_unit ≤ end_unit
        → take (length (run_pieces (run_of film first_unit mid_unit identity)))
        (run_pieces (run_of film first_unit end_unit identity))
        ≡ run_pieces (run_of film first_unit mid_unit identity) }
{}

/// One more unit adds its size on the wire to the bytes of a run.
pub fn law_unit_adds_its_wire_size()
    ensures { (film : Film) (first_unit unit : ℕ) (identity : Identity)
        → first_unit ≤ unit → unit < length film.units.items
        → OfUnit film.units.items unit (λ u.
        length (framed_bytes (run_pieces (run_of film first_unit (unit + 1) identity)))
        ≡ length (framed_bytes (run_pieces (run_of film first_unit unit identity)))
        + wire_size film.slice_starts.items u) }
{}

/// The head of each frame of a run reads back completely: its marker, sequence number, timestamp,
/// source and video header.
pub fn law_frame_heads_round_trip()
    ensures { (run : FramedRun) → run.identity.ssrc < 2 ^ 32 → HeadsRoundTrip run }
{}

/// How many pieces of a run have ended at a place: the last of them ends at or before it, and the
/// next doesn't.
pub fn law_ended_pieces_are_counted()
    ensures { (run : FramedRun) (at : ℕ)
        → HaveEnded (run_pieces run) at (count_ended at (run_pieces run)) }
{}

/// The frames before a place, and their octets, are those among the pieces that have ended there.
pub fn law_frames_before_are_counted()
    ensures { (run : FramedRun) (at count : ℕ) → HaveEnded (run_pieces run) at count →
        AreCountsBefore run at count }
{}

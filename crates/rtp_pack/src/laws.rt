//! What is true of every cutting, of the headers and of the times in them.

ghost use Rattle.std.specs.Prelude.{◌≡◌, ◌+◌, ◌*◌, ◌%◌, ◌^◌, ◌<◌, ◌≤◌, ◌++◌, ℕ, List, sum, Ok};
ghost use Rattle.mpeg_scan.specs.declared.units.Unit.{Unit as PictureUnit};
ghost use Rattle.rtp_pack.specs.declared.heads.Head.{Head};
ghost use Rattle.rtp_pack.specs.declared.payloads.Packet.{Packet};
ghost use Rattle.rtp_pack.specs.declared.reports.Identity.{Identity};
ghost use Rattle.rtp_pack.specs.declared.reports.Report.{Report};
ghost use Rattle.rtp_pack.specs.Packetization.{AreCutPoints};
ghost use Rattle.rtp_pack.specs.Fields.{HasReportFields, HasRtpFields, HasVideoFields, IsTickOf};
ghost use Rattle.rtp_pack.specs.Heads.{head_bytes, head_of, unit_timestamp, video_word};
ghost use Rattle.rtp_pack.specs.Laws.{ArePortions, AreShortUncut, DoLongEndPortions, IsLastMarked};
ghost use Rattle.rtp_pack.specs.Laws.{IsUncut, ForAllCutPoints, OnlyFirstHasSequenceHeader};
ghost use Rattle.rtp_pack.specs.Reports.{report_bytes, media_time};
ghost use Rattle.rtp_pack.specs.PacketizationRules.{HaveBytes, MeetsRules};
ghost use Rattle.rtp_pack.specs.Packets.{ArePackets, DoCover};

use crate::open_packet::MAX_PAYLOAD_BYTES;

/// The rules for cutting leave one list: two lists of cut points that meet them for one unit are
/// equal.
pub fn law_packetization_is_unique()
    ensures { (from headers_end : ℕ) (slices one other : List ℕ) →
        AreCutPoints from headers_end slices one → AreCutPoints from headers_end slices other →
        one ≡ other }
{}

/// What the rules for cutting come to. The portions have 1 to 1,380 bytes and cover the unit in
/// order. The headers are never cut, nor is a slice of at most 1,380 bytes. A longer slice ends
/// with its last portion.
pub fn law_packets_respect_slices()
    ensures portions { ForAllCutPoints (λ from headers_end slices cuts.
        ArePortions from cuts (headers_end + sum slices)) }
    ensures headers { ForAllCutPoints (λ from headers_end slices cuts. IsUncut from headers_end
        cuts) }
    ensures short_slices { ForAllCutPoints (λ from headers_end slices cuts.
        AreShortUncut headers_end slices cuts) }
    ensures long_slices { ForAllCutPoints (λ from headers_end slices cuts.
        DoLongEndPortions headers_end slices cuts) }
{}

/// The last packet of a unit has the marker, and no other (RFC 2250 section 3.3). `packets` gives
/// what this asks for.
pub fn law_only_last_packet_has_marker()
    ensures { (unit : PictureUnit) (slice_starts : List ℕ) (packets : List Packet) →
        ArePackets slice_starts unit packets → DoCover unit.from packets unit.to →
        IsLastMarked packets }
{}

/// S is set on the first packet of a unit that has a sequence header, and on no other packet (RFC
/// 2250 section 3.4). `packets` satisfies the premises.
pub fn law_only_first_packet_has_sequence_header()
    ensures { (unit : PictureUnit) (slice_starts : List ℕ) (packets : List Packet) →
        ArePackets slice_starts unit packets → DoCover unit.from packets unit.to →
        OnlyFirstHasSequenceHeader unit.has_sequence packets }
{}

/// A head is read back from what is written of it, whatever follows.
pub fn law_packet_head_round_trips()
    ensures { (head : Head) (rest : List ℕ) → head.sequence < 2 ^ 16 → head.timestamp < 2 ^ 32 →
        head.ssrc < 2 ^ 32 → head.video < 2 ^ 32 → head_of (head_bytes head ++ rest) ≡ Ok head }
{}

/// The rules of cutting as conditions on the list of cut points: exactly one list meets them, and
/// it is the packer's.
pub fn law_rules_define_packetization()
    ensures some { (from headers_end : ℕ) (slices : List ℕ) → from < headers_end →
        headers_end ≤ from + MAX_PAYLOAD_BYTES → HaveBytes slices
        → (cuts : List ℕ) × MeetsRules from headers_end slices cuts }
    ensures one { (from headers_end : ℕ) (slices one other : List ℕ)
        → MeetsRules from headers_end slices one → MeetsRules from headers_end slices other
        → one ≡ other }
    ensures meets { (from headers_end : ℕ) (slices cuts : List ℕ) → from < headers_end →
        headers_end ≤ from + MAX_PAYLOAD_BYTES → HaveBytes slices
        → AreCutPoints from headers_end slices cuts → MeetsRules from headers_end slices cuts }
    ensures cutting { (from headers_end : ℕ) (slices cuts : List ℕ) → from < headers_end →
        headers_end ≤ from + MAX_PAYLOAD_BYTES → HaveBytes slices
        → MeetsRules from headers_end slices cuts → AreCutPoints from headers_end slices cuts }
{}

/// The fields of a packet's head, each read at its bits (RFC 3550 section 5.1).
pub fn law_rtp_header_fields_are_exact()
    ensures { (head : Head) → head.sequence < 2 ^ 16 → head.timestamp < 2 ^ 32 →
        head.ssrc < 2 ^ 32 → head.video < 2 ^ 32 → HasRtpFields (head_bytes head) head }
{}

/// The fields of a video header, each read at its bits (RFC 2250 section 3.4). Film units keep both
/// premises.
pub fn law_video_header_fields_are_exact()
    ensures { (unit : PictureUnit) (packet : Packet) → unit.temporal < 2 ^ 10 →
        unit.vectors < 2 ^ 8 → HasVideoFields (video_word unit packet) unit packet }
{}

/// The fields of a report, each read at its bytes (RFC 3550 sections 6.4.1 and 6.5).
pub fn law_sender_report_fields_are_exact()
    ensures { (report : Report) → report.ssrc < 2 ^ 32 → report.time < 2 ^ 64 →
        report.timestamp < 2 ^ 32 → report.packets < 2 ^ 32 → report.octets < 2 ^ 32
        → HasReportFields (report_bytes report) report }
{}

/// A report's time, in seconds with 32 bits after the point, and a packet's timestamp, on a clock
/// of 90,000 Hz, are those of a unit's place in its film, which counts in 1/360,000 second.
pub fn law_media_times_are_exact()
    ensures time { (picture_time : ℕ) (unit : PictureUnit) →
        unit.presentation * picture_time < 360000 * 2 ^ 32
        → IsTickOf (unit.presentation * picture_time) (2 ^ 32) (media_time picture_time unit) }
    ensures timestamp { (identity : Identity) (picture_time : ℕ) (unit : PictureUnit) →
        (tick : ℕ) × (IsTickOf (unit.presentation * picture_time) 90000 tick
        × (unit_timestamp identity picture_time unit ≡ (identity.timestamp + tick) % 2 ^ 32)) }
{}

//! The Transport header.

ghost use Rattle.std.specs.Prelude.{◌≡◌, ◌↔◌, IsTrue, ◌⊎◌, MatchOption};
ghost use Rattle.rtsp_fields.specs.SeparatedParts.{NoPart, NoneBefore};
ghost use Rattle.rtsp_fields.specs.declared.transports.Channels.{Channels};
ghost use Rattle.rtsp_fields.specs.Transports.{AreChannels, AsksOtherDelivery, HasChannels};
ghost use Rattle.rtsp_fields.specs.Transports.{IsDelivery, IsPair, IsSingle, IsTransport};
ghost use Rattle.rtsp_fields.specs.Transports.{NamesChannels};

use crate::separated_parts::{part_end, parts_of, starts_with};
use vod_base::{number_within, trim};

/// What the part with the channels begins with.
const NAME: &[u8; 12] = b"interleaved=";

/// The channels of interleaved delivery (RFC 2326 section 10.12).
#[derive(Clone, Copy, Debug, PartialEq, Eq)]
pub struct Channels {
    /// The channel of the RTP packets.
    pub media: u8,
    /// The channel of the RTCP reports.
    pub control: u8,
}

/// Reads the value of a Transport header (RFC 2326 section 12.39): the channels of the first
/// alternative that asks for unicast delivery on the connection itself (section 10.12).
///
/// An alternative, between commas, can be taken where its first part, between `;`, is
/// `RTP/AVP/TCP`, no part is `multicast` or a `mode` other than `play`, and its first part that
/// begins `interleaved=`, if any, is two different channels, or one channel up to 254, which means
/// itself and the next. Without one the channels are 0 and 1. Letters are in any case, and blanks
/// may stand around each part. None exactly where no alternative can be taken.
pub fn read_transport(value: &[u8]) -> Option<Channels>
    ensures { MatchOption result ((channels : Channels) →
        ¬ IsTransport value.now channels) (IsTransport value.now) }
{
    // RFC 2326 section 12.39: alternatives stand in the order in which the client prefers them.
    for alternative in parts_of(value, b',') {
        if let Some(channels) = read_alternative(alternative) {
            return Some(channels);
        }
    }
    None
}

/// Two different channels with `-` between them.
fn read_pair(text: &[u8]) -> Option<Channels>
    ensures { MatchOption result ((channels : Channels) →
        ¬ IsPair text.now channels) (IsPair text.now) }
{
    let dash = part_end(text, 0, b'-');
    if dash == text.len() {
        return None;
    }
    let media = number_within(&text[..dash], 0, 255)?;
    let control = number_within(&text[dash + 1..], 0, 255)?;
    // RFC 2326 section 10.12: a block's channel alone tells packets from reports.
    if media == control {
        return None;
    }
    Some(Channels {
        media: media as u8,
        control: control as u8,
    })
}

/// One channel, which means itself and the next.
fn read_single(text: &[u8]) -> Option<Channels>
    ensures { MatchOption result ((channels : Channels) →
        ¬ IsSingle text.now channels) (IsSingle text.now) }
{
    // At most 254, since the reports go on the next channel, and a channel is one byte.
    let media = number_within(text, 0, 254)?;
    Some(Channels {
        media: media as u8,
        control: media as u8 + 1,
    })
}

/// The channels that stand after `interleaved=`.
fn read_channels(text: &[u8]) -> Option<Channels>
    ensures { MatchOption result ((channels : Channels) →
        ¬ AreChannels text.now channels) (AreChannels text.now) }
{
    match read_pair(text) {
        Some(channels) => Some(channels),
        None => read_single(text),
    }
}

/// Whether a part asks for another thing than unicast delivery to a player.
fn asks_other_delivery(part: &[u8]) -> bool
    ensures { IsTrue result ↔ AsksOtherDelivery part.now }
{
    let word = trim(part);
    word.eq_ignore_ascii_case(b"multicast")
        // RFC 2326 writes a mode with quotes and without. This server plays, and doesn't record.
        || (starts_with(word, b"mode=")
            && !word.eq_ignore_ascii_case(b"mode=play")
            && !word.eq_ignore_ascii_case(b"mode=\"play\""))
}

/// Whether no part of an alternative asks for another thing.
fn is_plain(text: &[u8]) -> bool
    ensures { IsTrue result ↔ NoPart 59 text.now AsksOtherDelivery }
{
    for part in parts_of(text, b';') {
        if asks_other_delivery(part) {
            return false;
        }
    }
    true
}

/// The channels that an alternative names, or 0 and 1.
#[tactic(auto, using(crate::proofs::PartLemmas::name_within))]
fn channels_of(text: &[u8]) -> Option<Channels>
    ensures { MatchOption result ((channels : Channels) →
        ¬ HasChannels text.now channels) (HasChannels text.now) }
{
    for part in parts_of(text, b';') {
        let part = trim(part);
        // Only the first such part counts, also where it is bad: the alternative is then refused.
        if starts_with(part, NAME) {
            return read_channels(&part[NAME.len()..]);
        }
    }
    Some(Channels {
        media: 0,
        control: 1,
    })
}

/// The channels of an alternative, where it can be taken.
fn read_alternative(text: &[u8]) -> Option<Channels>
    ensures { MatchOption result ((channels : Channels) →
        ¬ IsDelivery text.now channels) (IsDelivery text.now) }
{
    let end = part_end(text, 0, b';');
    // SETUP for UDP ends here: media goes over this connection alone.
    if !trim(&text[..end]).eq_ignore_ascii_case(b"RTP/AVP/TCP") {
        return None;
    }
    if !is_plain(text) {
        return None;
    }
    channels_of(text)
}

//! What a SETUP names, and what it settles.

ghost use Rattle.std.specs.Prelude.{◌≡◌, ◌<◌, ◌≤◌, ℕ, IfOk, IfSome, MatchOption};
ghost use Rattle.film_streams.specs.SettingRanges.{AreSettings, IsSetup};
ghost use Rattle.film_streams.specs.Setups.{HasChannels, IsBuffer, IsDelay, IsSetupRead};
ghost use Rattle.rtsp_fields.specs.declared.transports.Channels.{Channels};

use crate::settings::Settings;
use rtsp_fields::{Channels, read_buffer, read_delay, read_transport};
use rtsp_methods::Refusal;
use rtsp_text::{Request, header};
use vod_base::{MAX_BYTES, MAX_DELAY};

/// What SETUP settled (RFC 2326 section 10.4).
#[derive(Clone, Copy, Debug)]
pub struct Setup {
    /// The number of the film.
    pub film: usize,
    /// The channel of the frames.
    pub media: u8,
    /// The channel of the reports.
    pub control: u8,
    /// The client's buffer in bytes.
    pub buffer: u64,
    /// The slots before the first picture is used.
    pub delay: u64,
}

impl Setup {
    /// Returns the channels of the frames and of the reports.
    pub fn channels(&self) -> Channels
        ensures { result ≡ record { media = self.now.media; control = self.now.control } }
    {
        Channels {
            media: self.media,
            control: self.control,
        }
    }
}

/// Reads what a SETUP asks for: the transport first, then the client's buffer and the start delay.
///
/// # Errors
///
/// [`Refusal::Transport`] where there is no transport that the server can take, and
/// [`Refusal::Parameter`] where the buffer or the delay has no meaning.
pub fn read_setup(request: &Request<'_>, film: usize, settings: &Settings) -> Result<Setup, Refusal>
    requires { AreSettings settings.now }
    ensures read { IsSetupRead settings.now request.now.head.now film result }
    ensures ranges { (films : ℕ) → film < films → IfOk result (IsSetup films) }
{
    // 461 goes before 451: the causes are tried in one order.
    let channels = channels_of(request).ok_or(Refusal::Transport)?;
    let buffer = buffer_of(request, settings).ok_or(Refusal::Parameter)?;
    let delay = delay_of(request, settings).ok_or(Refusal::Parameter)?;
    Ok(Setup {
        film,
        media: channels.media,
        control: channels.control,
        buffer,
        delay,
    })
}

/// Returns the channels of the first transport that the server can take (RFC 2326 section 12.39),
/// or None where there is none.
pub fn channels_of(request: &Request<'_>) -> Option<Channels>
    ensures { MatchOption result ((channels : Channels) →
        ¬ HasChannels request.now.head.now channels) (HasChannels request.now.head.now) }
{
    read_transport(header(request, b"Transport")?)
}

/// Returns the client's buffer in bytes, from 1 to 2^42: that of `x-Buffer`, or the server's own.
/// None where the field isn't such a number.
pub fn buffer_of(request: &Request<'_>, settings: &Settings) -> Option<u64>
    requires { AreSettings settings.now }
    ensures read { MatchOption result ((n : ℕ) → ¬ IsBuffer settings.now request.now.head.now n)
        (IsBuffer settings.now request.now.head.now) }
    ensures some { IfSome result (λ buffer. 1 ≤ buffer) }
    ensures most { IfSome result (λ buffer. buffer ≤ MAX_BYTES) }
{
    match header(request, b"x-Buffer") {
        Some(value) => read_buffer(value),
        None => Some(settings.buffer),
    }
}

/// Returns the slots before the first picture is used, at most 10,000: those of `x-Startup`, or the
/// server's own. None where the field isn't such a number.
pub fn delay_of(request: &Request<'_>, settings: &Settings) -> Option<u64>
    requires { AreSettings settings.now }
    ensures read { MatchOption result ((n : ℕ) → ¬ IsDelay settings.now request.now.head.now n)
        (IsDelay settings.now request.now.head.now) }
    ensures most { IfSome result (λ delay. delay ≤ MAX_DELAY) }
{
    match header(request, b"x-Startup") {
        Some(value) => read_delay(value),
        None => Some(settings.startup),
    }
}

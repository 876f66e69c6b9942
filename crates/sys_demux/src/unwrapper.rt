//! The state of a reader of system streams.

ghost use Rattle.std.specs.Prelude.{IsTrue};
ghost use Rattle.sys_demux.specs.ValidStates.{is_sound};

use crate::parser_states::ParserState;

/// A reader that takes the video bytes out of an MPEG-1 system stream (ISO/IEC 11172-1), chunk by
/// chunk. It takes no memory.
#[derive(Debug, Drop)]
pub struct Unwrapper {
    /// Where in the stream the next byte stands.
    pub(crate) place: ParserState,
    /// The place of the item's prefix.
    pub(crate) item: u64,
    /// The stream_id of the first packet of video.
    pub(crate) chosen: Option<u8>,
    /// How many bytes were taken.
    pub(crate) fed: u64,
    ghost sound: { IsTrue (is_sound place) },
}

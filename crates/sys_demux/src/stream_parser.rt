//! Takes the bytes of a system stream, and says at its end whether it was one.

ghost use Rattle.std.specs.Prelude.{◌≡◌, ℕ, ◌+◌, ◌^◌, ◌<◌, ◌≤◌, ◌⊎◌, IsTrue, List, [], ◌∷◌, ◌++◌};
ghost use Rattle.std.specs.Prelude.{length, take, Option, Some, Err, IfOk, IfErr, MatchResult};
ghost use Rattle.sys_demux.specs.StreamItems.{choose};
ghost use Rattle.sys_demux.specs.SystemStreams.{IsSystem, IsBadStream};
ghost use Rattle.sys_demux.specs.ValidStates.{is_sound};
ghost use Rattle.sys_demux.specs.ParserStates.{WasFed, IsByByte, IsShown, fault_of};
ghost use Rattle.sys_demux.specs.declared.faults.SystemFault.{SystemFault};

use crate::faults::SystemFault;
use crate::parser_states::{
    ParserState, end_fault, header_place, length_next, mark_next, pass, value_next, video,
    zeros_next,
};
use crate::unwrapper::Unwrapper;

/// The least stream_id of video (ISO/IEC 11172-1, section 2.4.4.2).
const FIRST_VIDEO: u8 = 0xe0;

/// The greatest stream_id of video.
const LAST_VIDEO: u8 = 0xef;

/// What a call of [`Unwrapper::feed`] took.
#[derive(Clone, Copy, Debug)]
pub struct Fed<'p> {
    /// How many bytes of the chunk were taken, at least one.
    pub taken: usize,
    /// The video among them: all of them, or none.
    pub video: &'p [u8],
}

impl Unwrapper {
    /// Returns an unwrapper before the first byte of a stream.
    pub fn new() -> Unwrapper
        ensures { WasFed result [] [] }
    {
        Unwrapper {
            place: ParserState::Zeros(0),
            item: 0,
            chosen: None,
            fed: 0,
        }
    }

    /// Takes a byte that is neither video nor passed over.
    fn take(&mut self, byte: u8)
        requires place { IsByByte self.old.place }
        requires room { self.old.fed < 2 ^ 40 }
        ensures fed { self.new.fed ≡ self.old.fed + 1 }
        ensures next { (seen video : List ℕ) → WasFed self.old seen video →
            WasFed self.new (seen ++ byte ∷ []) video }
    {
        let (at, mut item, mut chosen) = (self.fed, self.item, self.chosen);
        let place = match self.place {
            ParserState::Zeros(zeros) => {
                // Where a prefix ends at this byte, it began two bytes ago. Else this place is
                // never used, so that it may stop at 0.
                item = at.saturating_sub(2);
                zeros_next(zeros, byte, at)
            }
            ParserState::Value => {
                chosen = choose(chosen, byte);
                value_next(byte, item)
            }
            ParserState::Mark => mark_next(byte, item),
            ParserState::High(value) => ParserState::Low(value, byte),
            ParserState::Low(value, high) => length_next(chosen, value, high, byte, item),
            // A header that is read has a byte to come, so `left` is at least 1.
            ParserState::InHeader(header, left) => header_place(header, byte, left - 1, item),
            // `feed` takes no single byte in these states
            ParserState::Pass(left) => ParserState::Pass(left),
            ParserState::Video(left) => ParserState::Video(left),
            ParserState::End => ParserState::End,
            ParserState::Failed(fault) => ParserState::Failed(fault),
        };
        *self = Unwrapper {
            place,
            item,
            chosen,
            fed: at + 1,
        };
    }

    /// Takes bytes that are video or passed over, and goes to the place after them.
    fn skip(&mut self, count: usize, place: ParserState)
        requires room { self.old.fed + count ≤ 2 ^ 40 }
        requires sound { IsTrue (is_sound place) }
        ensures place { self.new.place ≡ place }
        ensures item { self.new.item ≡ self.old.item }
        ensures chosen { self.new.chosen ≡ self.old.chosen }
        ensures fed { self.new.fed ≡ self.old.fed + count }
    {
        *self = Unwrapper {
            place,
            item: self.item,
            chosen: self.chosen,
            fed: self.fed + count as u64,
        };
    }

    /// Processes the first bytes of a chunk of the stream, at least one, and lends the video among
    /// them.
    ///
    /// A fault comes as soon as the bytes show it, whatever follows them, and again in each later
    /// call. `Truncated` never comes. At most 2^40 bytes may be fed in all.
    ///
    /// # Errors
    ///
    /// [`SystemFault`] with its place in all the bytes that were fed; never `Truncated`.
    pub fn feed<'p>(&mut self, chunk: &'p [u8]) -> Result<Fed<'p>, SystemFault>
        // needs: a byte at least, and at most 2^40 bytes in all
        requires some { 0 < length chunk.now }
        requires room { self.old.fed + length chunk.now ≤ 2 ^ 40 }
        // answers: how many bytes were taken, and the video among them, all or none
        ensures taken { IfOk result (λ fed. (0 < fed.taken) × (fed.taken ≤ length chunk.now)) }
        ensures video { IfOk result (λ fed. (fed.video.now ≡ [])
            ⊎ (fed.video.now ≡ take fed.taken chunk.now)) }
        ensures count { IfOk result (λ fed. self.new.fed ≡ self.old.fed + fed.taken) }
        // leaves: the bytes taken are read, and the video so far is what was lent
        ensures next { (seen video : List ℕ) → WasFed self.old seen video →
            IfOk result (λ fed.
            WasFed self.new (seen ++ take fed.taken chunk.now) (video ++ fed.video.now)) }
        // answers: a fault that later bytes can't undo; it stays
        ensures fault { (seen video : List ℕ) → WasFed self.old seen video →
            IfErr result (λ fault. (more : List ℕ) → IsBadStream (seen ++ chunk.now ++ more) fault) }
        ensures shown { (seen video : List ℕ) → WasFed self.old seen video → IfErr result IsShown }
        ensures kept { IfErr result (λ fault. fault_of self.new ≡ Some fault) }
        ensures again { (fault : SystemFault) → fault_of self.old ≡ Some fault →
            result ≡ Err fault }
    {
        match self.place {
            ParserState::Failed(fault) => Err(fault),
            ParserState::Pass(left) => {
                let taken = chunk.len().min(usize::from(left));
                self.skip(taken, pass(left - taken as u16));
                Ok(Fed {
                    taken,
                    video: &chunk[..0],
                })
            }
            ParserState::Video(left) => {
                // The video is lent from the chunk, not copied. `left` is in 16 bits, and `taken`
                // not above it.
                let taken = chunk.len().min(usize::from(left));
                self.skip(taken, video(left - taken as u16));
                Ok(Fed {
                    taken,
                    video: &chunk[..taken],
                })
            }
            ParserState::End => {
                // What follows the end code is taken, too: so a caller's loop comes to its end.
                self.skip(chunk.len(), ParserState::End);
                Ok(Fed {
                    taken: chunk.len(),
                    video: &chunk[..0],
                })
            }
            _ => {
                // A chunk may end anywhere in a header, so headers are read byte by byte.
                self.take(chunk[0]);
                match self.place {
                    ParserState::Failed(fault) => Err(fault),
                    _ => Ok(Fed {
                        taken: 1,
                        video: &chunk[..0],
                    }),
                }
            }
        }
    }

    /// Returns whether the bytes fed are a complete system stream, whose video is what was lent; or
    /// why they are none.
    ///
    /// Another fault than `Truncated` comes only where [`Unwrapper::feed`] answered it.
    ///
    /// # Errors
    ///
    /// [`SystemFault`] with its place: one that [`Unwrapper::feed`] returned, or `Truncated` where
    /// the stream ends inside an item.
    pub fn finish(&self) -> Result<(), SystemFault>
        ensures end { (seen video : List ℕ) → WasFed self.now seen video →
            MatchResult result (λ _. IsSystem seen video) (λ fault. IsBadStream seen fault) }
        ensures again { (fault : SystemFault) → fault_of self.now ≡ Some fault →
            result ≡ Err fault }
        ensures only { IfErr result (λ fault. IsShown fault → fault_of self.now ≡ Some fault) }
    {
        match end_fault(self.place, self.item) {
            None => Ok(()),
            Some(fault) => Err(fault),
        }
    }
}

/// The chosen stream_id once a packet of this one stands.
fn choose(chosen: Option<u8>, value: u8) -> Option<u8>
    ensures { result ≡ choose chosen value }
{
    match chosen {
        // The first stream of video is the film. Other streams are passed over.
        Some(first) => Some(first),
        None if FIRST_VIDEO <= value && value <= LAST_VIDEO => Some(value),
        None => None,
    }
}

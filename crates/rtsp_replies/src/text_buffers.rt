//! The text of a reply's body, in a buffer of a fixed size.

ghost use Rattle.std.specs.Prelude.{◌≡◌, ◌+◌, ◌≤◌, ◌++◌, [], length, decimal, IfOk};

use itoa::Buffer;
use std::alloc::Global;
use std::fmt;
use std::marker::Model;
use vod_base::NoMemory;

/// The most bytes of a text. An offer of 256 starts has the longest one: at most 23,839 bytes.
pub const MAX_TEXT_BYTES: usize = 24_576;

/// The text of a reply's body, in a buffer of 24,576 bytes that `new` takes. It is apart from
/// [`rtsp_text::Reply`], which writes a head and takes the entire body at its end, since the head
/// gives the body's length. Contracts see the text so far.
#[derive(Drop)]
pub struct Text {
    bytes: Vec<u8>,
}

impl Model for Text {
    ghost use Rattle.std.specs.Prelude.{ℕ, List, ◌≤◌, vec_capacity};
    ghost use Rattle.rtsp_replies.specs.declared.text_buffers.TheConstants.{MAX_TEXT_BYTES};

    ghost Value = { List ℕ };

    ghost view = { λ text. text.bytes.items };

    ghost invariant = { λ text. MAX_TEXT_BYTES ≤ vec_capacity text.bytes };
}

impl fmt::Debug for Text {
    fn fmt<W: fmt::Write>(&self, f: &mut fmt::Formatter<W>) -> fmt::Result {
        f.debug_struct("Text")
            .field("length", &self.bytes.len())
            .finish_non_exhaustive()
    }
}

impl Text {
    /// Reserves the room; no other call takes memory.
    ///
    /// # Errors
    ///
    /// [`NoMemory`] where there is none for the buffer.
    pub fn new(alloc: Global) -> Result<Text, NoMemory>
        ensures { IfOk result (λ text. text ≡ []) }
    {
        // All room is reserved here, so that a body is written without a case for a lack of memory.
        let bytes = Vec::with_capacity(alloc, MAX_TEXT_BYTES)?;
        Ok(Text { bytes })
    }

    /// Drops the text; the buffer stays.
    pub fn clear(&mut self)
        ensures { self.new ≡ [] }
    {
        self.bytes.clear();
    }

    /// Returns the text so far.
    pub fn bytes(&self) -> &[u8]
        ensures { result.now ≡ self.now }
    {
        self.bytes.as_slice()
    }

    /// Appends bytes.
    pub fn put(&mut self, bytes: &[u8])
        requires { length self.old + length bytes.now ≤ MAX_TEXT_BYTES }
        ensures text { self.new ≡ self.old ++ bytes.now }
        ensures long { length self.new ≡ length self.old + length bytes.now }
    {
        // the room is reserved, and so this takes no memory and never fails
        self.bytes.extend_from_slice(bytes).ok();
    }

    /// Appends a number in decimal digits, of which there are at most 20.
    pub fn put_number(&mut self, number: u64)
        requires { length self.old + 20 ≤ MAX_TEXT_BYTES }
        ensures text { self.new ≡ self.old ++ decimal number }
        ensures short { length self.new ≤ length self.old + 20 }
    {
        self.put(Buffer::new().format(number).as_bytes());
    }
}

//! Replies, as they are written.

ghost use Rattle.std.specs.Prelude.{◌≡◌, ◌+◌, ◌≤◌, ◌++◌, ℕ, IsTrue, true, Option, List, [], ◌∷◌};
ghost use Rattle.std.specs.Prelude.{length, decimal, codes, IfOk, sum_by, flat_map};
ghost use Rattle.std.specs.List.{list_all};
ghost use Rattle.rtsp_text.specs.Lines.{is_one_line};
ghost use Rattle.rtsp_text.specs.Replies.{is_code, phrase, Field, field_line, sequence_line};
ghost use Rattle.rtsp_text.specs.Replies.{status_line, reply_front, reply_text, AddsField};

use itoa::Buffer;
use std::alloc::Global;
use std::fmt;
use std::marker::Model;
use vod_base::NoMemory;

/// The text of a reply (RFC 2326 section 7), in a buffer of [`MAX_REPLY_BYTES`] bytes.
///
/// Contracts see the text so far as a list of bytes. Only `new` takes memory.
#[derive(Drop)]
pub struct Reply {
    text: Vec<u8>,
}

/// The most bytes of a reply's text. The longest reply has a body of 24,576 bytes, or repeats
/// 16,384 bytes of its request's head.
pub const MAX_REPLY_BYTES: usize = 65_536;

/// The most bytes of a phrase, which `Method Not Valid In This State` has.
pub const MAX_PHRASE_BYTES: usize = 30;

/// The most bytes of a status line: `RTSP/1.0 `, the code's digits, a space, the phrase and the
/// line's end.
pub const MAX_STATUS_LINE_BYTES: usize = 9 + 5 + 1 + MAX_PHRASE_BYTES + 2;

/// The most bytes of a field's line after its name, where the value is a number: `: `, 20 digits
/// and the line's end.
pub const MAX_NUMBER_FIELD_BYTES: usize = 24;

/// The most bytes of a status line and a line `CSeq: N`.
pub const MAX_REPLY_START_BYTES: usize = MAX_STATUS_LINE_BYTES + 4 + MAX_NUMBER_FIELD_BYTES;

impl Model for Reply {
    ghost use Rattle.std.specs.Prelude.{ℕ, List, ◌≤◌, vec_capacity};
    ghost use Rattle.rtsp_text.specs.declared.replies.TheConstants.{MAX_REPLY_BYTES};

    ghost Value = { List ℕ };

    ghost view = { λ r. r.text.items };

    ghost invariant = { λ r. MAX_REPLY_BYTES ≤ vec_capacity r.text };
}

impl fmt::Debug for Reply {
    fn fmt<W: fmt::Write>(&self, f: &mut fmt::Formatter<W>) -> fmt::Result {
        f.debug_struct("Reply")
            .field("length", &self.text.len())
            .finish_non_exhaustive()
    }
}

impl Reply {
    /// Reserves room for [`MAX_REPLY_BYTES`] bytes; no other call takes memory.
    ///
    /// # Errors
    ///
    /// [`NoMemory`] where there is none.
    pub fn new(alloc: Global) -> Result<Reply, NoMemory>
        ensures { IfOk result (λ reply. reply ≡ []) }
    {
        // All room is reserved here, so that a request can be answered 500 when memory is out.
        let text = Vec::with_capacity(alloc, MAX_REPLY_BYTES)?;
        Ok(Reply { text })
    }

    /// Forgets the text.
    pub fn clear(&mut self)
        ensures { self.new ≡ [] }
    {
        self.text.clear();
    }

    /// Returns the text so far.
    pub fn bytes(&self) -> &[u8]
        ensures { result.now ≡ self.now }
    {
        self.text.as_slice()
    }

    /// Appends bytes.
    fn put(&mut self, bytes: &[u8])
        requires { length self.old + length bytes.now ≤ MAX_REPLY_BYTES }
        ensures text { self.new ≡ self.old ++ bytes.now }
        ensures long { length self.new ≡ length self.old + length bytes.now }
    {
        // the room is reserved, and so this takes no memory and never fails
        self.text.extend_from_slice(bytes).ok();
    }

    /// Appends the status line.
    fn put_status(&mut self, code: u16)
        requires code { IsTrue (is_code code) }
        requires fits { length self.old + MAX_STATUS_LINE_BYTES ≤ MAX_REPLY_BYTES }
        ensures text { self.new ≡ self.old ++ status_line code }
        ensures short { length self.new ≤ length self.old + MAX_STATUS_LINE_BYTES }
    {
        self.put(b"RTSP/1.0 ");
        self.put(Buffer::new().format(code).as_bytes());
        self.put(b" ");
        self.put(phrase(code));
        self.put(b"\r\n");
    }

    /// Appends a field's line.
    fn put_field(&mut self, name: &[u8], value: &[u8])
        requires { length self.old + (length name.now + length value.now + 4) ≤ MAX_REPLY_BYTES }
        ensures text { self.new ≡
            self.old ++ field_line (record { name = name.now; value = value.now }) }
        ensures long { length self.new ≡
            length self.old + (length name.now + length value.now + 4) }
    {
        self.put(name);
        self.put(b": ");
        self.put(value);
        self.put(b"\r\n");
    }

    /// Appends the status line `RTSP/1.0 CODE PHRASE` and, where there is a sequence number, the
    /// line `CSeq: N`: at most [`MAX_REPLY_START_BYTES`] bytes.
    pub fn start(&mut self, code: u16, sequence: Option<u64>)
        // needs: a code with a phrase, and room
        requires code { IsTrue (is_code code) }
        requires fits { length self.old + MAX_REPLY_START_BYTES ≤ MAX_REPLY_BYTES }
        // leaves: the two lines behind the old text
        ensures text { self.new ≡ self.old ++ (status_line code ++ sequence_line sequence) }
        ensures short { length self.new ≤ length self.old + MAX_REPLY_START_BYTES }
        ensures front { self.old ≡ [] → self.new ≡ reply_front code sequence [] }
    {
        self.put_status(code);
        // A 400 to a message without a number repeats none (RFC 2326 section 12.17).
        if let Some(number) = sequence {
            self.put_field(b"CSeq", Buffer::new().format(number).as_bytes());
        }
    }

    /// Appends the line `NAME: VALUE`, ended by CR LF. The value has no LF.
    pub fn field(&mut self, name: &[u8], value: &[u8])
        // needs: a value on one line, and room
        requires one_line { is_one_line value.now ≡ true }
        requires fits { length self.old + (length name.now + length value.now + 4)
            ≤ MAX_REPLY_BYTES }
        // leaves: the field's line behind the old text
        ensures text { self.new ≡
            self.old ++ field_line (record { name = name.now; value = value.now }) }
        ensures long { length self.new ≡
            length self.old + (length name.now + length value.now + 4) }
        ensures front { AddsField self.old self.new
            (record { name = name.now; value = value.now }) }
    {
        self.put_field(name, value);
    }

    /// Appends bytes, part after part.
    fn put_parts(&mut self, parts: &[&[u8]])
        requires { length self.old + sum_by (λ part. length part.now) parts.now ≤ MAX_REPLY_BYTES }
        ensures text { self.new ≡ self.old ++ flat_map (λ part. part.now) parts.now }
        ensures long { length self.new ≡
            length self.old + sum_by (λ part. length part.now) parts.now }
    {
        for part in parts {
            self.put(part);
        }
    }

    /// Appends the line `NAME: VALUE`, where the value is these parts, one after another. No part
    /// has an LF.
    pub fn field_from_parts(&mut self, name: &[u8], parts: &[&[u8]])
        // needs: parts on one line, and room for them together
        requires one_line { list_all (λ part. is_one_line part.now) parts.now ≡ true }
        requires fits { length self.old
            + (length name.now + sum_by (λ part. length part.now) parts.now + 4) ≤ MAX_REPLY_BYTES }
        // leaves: the field's line behind the old text
        ensures text { let value = flat_map (λ part. part.now) parts.now in
            self.new ≡ self.old ++ field_line (record { name = name.now; value = value }) }
        ensures long { let value_length = sum_by (λ part. length part.now) parts.now in
            length self.new ≡ length self.old + (length name.now + value_length + 4) }
        ensures front { let value = flat_map (λ part. part.now) parts.now in
            AddsField self.old self.new (record { name = name.now; value = value }) }
    {
        self.put(name);
        self.put(b": ");
        self.put_parts(parts);
        self.put(b"\r\n");
    }

    /// Appends the line `NAME: VALUE`, the value in decimal, of at most 20 digits.
    pub fn number_field(&mut self, name: &[u8], value: u64)
        requires { length self.old + (length name.now + MAX_NUMBER_FIELD_BYTES) ≤ MAX_REPLY_BYTES }
        ensures text { self.new ≡
            self.old ++ field_line (record { name = name.now; value = decimal value }) }
        ensures short { length self.new ≤ length self.old + (length name.now +
            MAX_NUMBER_FIELD_BYTES) }
        ensures front { AddsField self.old self.new
            (record { name = name.now; value = decimal value }) }
    {
        self.put_field(name, Buffer::new().format(value).as_bytes());
    }

    /// Appends the empty line and the body: the reply is then complete.
    pub fn finish(&mut self, body: &[u8])
        requires { length self.old + (2 + length body.now) ≤ MAX_REPLY_BYTES }
        ensures text { self.new ≡ self.old ++ (codes "\r\n" ++ body.now) }
        ensures long { length self.new ≡ length self.old + (2 + length body.now) }
        ensures whole { (code : ℕ) (sequence : Option ℕ) (fields : List Field) →
            self.old ≡ reply_front code sequence fields →
            self.new ≡ reply_text code sequence fields body.now }
    {
        self.put(b"\r\n"); // the empty line
        self.put(body);
    }
}

/// The phrase of a code.
fn phrase(code: u16) -> &'static [u8]
    requires { IsTrue (is_code code) }
    ensures text { result.now ≡ phrase code }
    ensures short { length result.now ≤ MAX_PHRASE_BYTES }
{
    match code {
        200 => b"OK",
        400 => b"Bad Request",
        404 => b"Not Found",
        451 => b"Parameter Not Understood",
        453 => b"Not Enough Bandwidth",
        454 => b"Session Not Found",
        455 => b"Method Not Valid In This State",
        457 => b"Invalid Range",
        461 => b"Unsupported Transport",
        500 => b"Internal Server Error",
        501 => b"Not Implemented",
        503 => b"Service Unavailable",
        505 => b"RTSP Version Not Supported",
        551 => b"Option Not Supported",
        // The contract admits only the codes above.
        _ => b"",
    }
}

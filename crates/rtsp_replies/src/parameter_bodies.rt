//! The bodies of the replies to GET_PARAMETER (RFC 2326 section 10.8), line by line.

ghost use Rattle.std.specs.Prelude.{◌≡◌, ◌+◌, ◌≤◌, ◌++◌, length};
ghost use Rattle.rtsp_replies.specs.Replies.{look_body, offer_body, over_line, start_line};
ghost use Rattle.rtsp_replies.specs.Replies.{start_text};
ghost use Rattle.rtsp_replies.specs.declared.text_buffers.TheConstants.{MAX_TEXT_BYTES};

use crate::text_buffers::Text;
use early_start::{Offers, Tried};

/// Writes what is booked in a slot, over the old text: the slot `now` up to which the calendar has
/// moved, the slot `at` and the bytes that are booked in it.
pub fn put_look(body: &mut Text, now: u64, at: u64, booked: u64)
    ensures text { body.new ≡ look_body now at booked }
    ensures short { length body.new ≤ MAX_TEXT_BYTES }
{
    body.clear();
    body.put(b"x-Now: ");
    body.put_number(now);
    body.put(b"\r\nx-Slot: ");
    body.put_number(at);
    body.put(b"\r\nx-Booked: ");
    body.put_number(booked);
    body.put(b"\r\n");
}

/// Writes from which slot on a play would fit, and the first slot without room for each start that
/// was tried without room, over the old text: at most 257 lines.
pub fn put_offer(body: &mut Text, offers: &Offers)
    ensures text { body.new ≡ offer_body offers.now.start offers.now.tried }
    ensures short { length body.new ≤ MAX_TEXT_BYTES }
{
    // The contract of `wait` says that it is at most 255, so at most 256 starts were tried. Their
    // lines of at most 93 bytes and the first one of at most 31 then fit.
    let _most = offers.wait();
    body.clear();
    put_start_line(body, offers.start());
    for tried in offers.tried() {
        put_over_line(body, tried);
    }
}

/// The slot in which a play could begin, or `none`.
fn put_start_text(body: &mut Text, start: Option<u64>)
    requires { length body.old + 20 ≤ MAX_TEXT_BYTES }
    ensures text { body.new ≡ body.old ++ start_text start }
    ensures short { length body.new ≤ length body.old + 20 }
{
    match start {
        Some(start) => body.put_number(start),
        None => body.put(b"none"),
    }
}

/// The line of the slot in which a play could begin.
fn put_start_line(body: &mut Text, start: Option<u64>)
    requires { length body.old + 31 ≤ MAX_TEXT_BYTES }
    ensures text { body.new ≡ body.old ++ start_line start }
    ensures short { length body.new ≤ length body.old + 31 }
{
    body.put(b"x-Start: ");
    put_start_text(body, start);
    body.put(b"\r\n");
}

/// The line of a start that was tried without room: the first slot without room, what is booked in
/// it and what the plan asks for there.
fn put_over_line(body: &mut Text, tried: &Tried)
    requires { length body.old + 93 ≤ MAX_TEXT_BYTES }
    ensures text { body.new ≡ body.old ++ over_line tried.now }
    ensures short { length body.new ≤ length body.old + 93 }
{
    body.put(b"x-Over: ");
    body.put_number(tried.start);
    body.put(b" ");
    body.put_number(tried.over.slot);
    body.put(b" ");
    body.put_number(tried.over.booked);
    body.put(b" ");
    body.put_number(tried.over.asked);
    body.put(b"\r\n");
}

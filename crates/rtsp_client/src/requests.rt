//! The three requests of a client (RFC 2326 sections 6 and 10).

ghost use Rattle.std.specs.Prelude.{◌≡◌, ◌++◌, IfOk, OnOk};
ghost use Rattle.rtsp_client.specs.Requests.{film_url, play_text, setup_text, teardown_text};

use crate::watch_request::Wish;
use std::alloc::Global;
use vod_base::{NoMemory, push, push_field};

/// SETUP of the film's video, interleaved on the channels 0 and 1, with the client's buffer and
/// start delay.
pub(crate) fn setup_request(alloc: Global, wish: &Wish) -> Result<Vec<u8>, NoMemory>
    ensures { IfOk result (λ text. text.items ≡ setup_text wish.now) }
{
    let mut text = Vec::new(alloc);
    push(&mut text, b"SETUP ")?;
    push_url(&mut text, wish)?;
    push(&mut text, b"/video RTSP/1.0\r\nCSeq: 1\r\n")?;
    push(
        &mut text,
        b"Transport: RTP/AVP/TCP;unicast;interleaved=0-1\r\n",
    )?;
    push_field(&mut text, b"x-Buffer: ", wish.buffer)?;
    push_field(&mut text, b"\r\nx-Startup: ", wish.startup)?;
    push(&mut text, b"\r\n\r\n")?;
    Ok(text)
}

/// PLAY of the complete film, in this session.
pub(crate) fn play_request(alloc: Global, wish: &Wish, session: &[u8]) -> Result<Vec<u8>, NoMemory>
    ensures { IfOk result (λ text. text.items ≡ play_text wish.now session.now) }
{
    // The number of the request, which its reply must repeat (RFC 2326 section 12.17).
    let fields = b" RTSP/1.0\r\nCSeq: 2\r\nSession: ";
    session_request(
        alloc,
        wish,
        session,
        b"PLAY ",
        fields,
        b"\r\nRange: npt=0-\r\n\r\n",
    )
}

/// TEARDOWN of this session.
pub(crate) fn teardown_request(
    alloc: Global,
    wish: &Wish,
    session: &[u8],
) -> Result<Vec<u8>, NoMemory>
    ensures { IfOk result (λ text. text.items ≡ teardown_text wish.now session.now) }
{
    let fields = b" RTSP/1.0\r\nCSeq: 3\r\nSession: ";
    session_request(alloc, wish, session, b"TEARDOWN ", fields, b"\r\n\r\n")
}

/// Appends the film's URL.
fn push_url(text: &mut Vec<u8>, wish: &Wish) -> Result<(), NoMemory>
    ensures { OnOk result (text.new.items ≡ text.old.items ++ film_url wish.now) }
{
    // The gate that dials connects to this machine alone.
    push_field(text, b"rtsp://127.0.0.1:", u64::from(wish.port))?;
    push(text, b"/")?;
    push(text, wish.name.as_bytes())?;
    Ok(())
}

/// A request on the film, in this session: its method, the head's text between URL and session, and
/// what follows the session.
fn session_request(
    alloc: Global,
    wish: &Wish,
    session: &[u8],
    method: &[u8],
    fields: &[u8],
    end: &[u8],
) -> Result<Vec<u8>, NoMemory>
    ensures { IfOk result (λ text. text.items
        ≡ (((method.now ++ film_url wish.now) ++ fields.now) ++ session.now) ++ end.now) }
{
    let mut text = Vec::new(alloc);
    push(&mut text, method)?;
    push_url(&mut text, wish)?;
    push(&mut text, fields)?;
    push(&mut text, session)?;
    push(&mut text, end)?;
    Ok(text)
}

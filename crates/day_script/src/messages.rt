//! What a line says.

ghost use Rattle.std.specs.Prelude.{◌≡◌, IfSome};
ghost use Rattle.std.specs.Str.{bytes_eq};
ghost use Rattle.day_script.specs.TextLines.{texts_at};
ghost use Rattle.day_script.specs.MessageWords.{ArePlayParamsInRange, IsInRange, asked_in, kind_in};
ghost use Rattle.day_script.specs.MessageWords.{client_in, pair_in, play_in, offer_in, message_in};

use crate::scripts::{CLIENTS, SourceKind};
use early_start::MAX_WAIT;
use vod_base::{LATEST_SLOT, MAX_BYTES, MAX_DELAY, number_within};

/// What a play or an offer asks for; its film or trace is the line's fourth word.
#[derive(Clone, Copy)]
pub(crate) struct PlayParams {
    pub(crate) client: u8,
    pub(crate) kind: SourceKind,
    /// The bytes that the client's buffer holds, 1 to [`MAX_BYTES`].
    pub(crate) buffer: u64,
    /// The slots before the first picture is used, at most [`MAX_DELAY`].
    pub(crate) delay: u64,
}

/// What a line says.
#[derive(Clone, Copy)]
pub(crate) enum Message {
    Play(PlayParams),
    /// The client.
    Pause(u8),
    /// The client.
    Resume(u8),
    /// The slot, at most [`LATEST_SLOT`].
    Look(u64),
    /// The slot, from 1 to [`LATEST_SLOT`].
    Slot(u64),
    /// What is asked for, and the wait in slots, at most [`MAX_WAIT`].
    Offer(PlayParams, u64),
}

/// What a line of these words says.
pub(crate) fn message_in(words: &[&[u8]]) -> Option<Message>
    ensures message { result ≡ message_in (texts_at words.now) }
    ensures range { IfSome result IsInRange }
{
    match words {
        // By the number of words first: each verb has one.
        [verb, word] => pair_in(verb, word),
        [verb, client, kind, _, buffer, delay] => {
            play_in(verb, asked_in(client, kind, buffer, delay))
        }
        [verb, client, kind, _, buffer, delay, wait] => {
            offer_in(verb, asked_in(client, kind, buffer, delay), wait)
        }
        _ => None,
    }
}

/// Whether a word is this text.
fn is_text(word: &[u8], text: &[u8]) -> bool
    ensures { result ≡ bytes_eq word.now text.now }
{
    word == text
}

/// The client that a word names.
fn client_in(word: &[u8]) -> Option<u8>
    ensures { result ≡ client_in word.now }
{
    let number = number_within(word, 0, CLIENTS as u64 - 1)?;
    Some(number as u8)
}

/// What a word says is named: `film` or `trace`.
fn kind_in(word: &[u8]) -> Option<SourceKind>
    ensures { result ≡ kind_in word.now }
{
    if is_text(word, b"film") {
        Some(SourceKind::Film)
    } else if is_text(word, b"trace") {
        Some(SourceKind::Trace)
    } else {
        None
    }
}

/// What is asked for by the words after `play` or `offer` beside the name.
fn asked_in(client: &[u8], kind: &[u8], buffer: &[u8], delay: &[u8]) -> Option<PlayParams>
    ensures asked { result ≡ asked_in client.now kind.now buffer.now delay.now }
    ensures range { IfSome result ArePlayParamsInRange }
{
    let client = client_in(client)?;
    let kind = kind_in(kind)?;
    let buffer = number_within(buffer, 1, MAX_BYTES)?;
    let delay = number_within(delay, 0, MAX_DELAY)?;
    Some(PlayParams {
        client,
        kind,
        buffer,
        delay,
    })
}

/// What a line of two words says.
fn pair_in(verb: &[u8], word: &[u8]) -> Option<Message>
    ensures message { result ≡ pair_in verb.now word.now }
    ensures range { IfSome result IsInRange }
{
    if is_text(verb, b"pause") {
        let client = client_in(word)?;
        return Some(Message::Pause(client));
    }
    if is_text(verb, b"resume") {
        let client = client_in(word)?;
        return Some(Message::Resume(client));
    }
    if is_text(verb, b"look") {
        let slot = number_within(word, 0, LATEST_SLOT)?;
        return Some(Message::Look(slot));
    }
    if is_text(verb, b"slot") {
        let slot = number_within(word, 1, LATEST_SLOT)?;
        return Some(Message::Slot(slot));
    }
    None
}

/// What a line of six words says.
fn play_in(verb: &[u8], asked: Option<PlayParams>) -> Option<Message>
    requires { IfSome asked ArePlayParamsInRange }
    ensures message { result ≡ play_in verb.now asked }
    ensures range { IfSome result IsInRange }
{
    if !is_text(verb, b"play") {
        return None;
    }
    let asked = asked?;
    Some(Message::Play(asked))
}

/// What a line of seven words says.
fn offer_in(verb: &[u8], asked: Option<PlayParams>, wait: &[u8]) -> Option<Message>
    requires { IfSome asked ArePlayParamsInRange }
    ensures message { result ≡ offer_in verb.now asked wait.now }
    ensures range { IfSome result IsInRange }
{
    if !is_text(verb, b"offer") {
        return None;
    }
    let asked = asked?;
    let wait = number_within(wait, 0, MAX_WAIT)?;
    Some(Message::Offer(asked, wait))
}

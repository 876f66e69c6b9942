//! Makes a film as an MPEG-1 system stream.

ghost use Rattle.std.specs.Prelude.{◌≡◌, ◌+◌, ◌/◌, ◌++◌, ◌≤◌, length, IfOk, OnOk};
ghost use Rattle.film_make.specs.Generator.{words_of};
ghost use Rattle.film_make.specs.Film.{film_of};
ghost use Rattle.film_make.specs.SystemStream.{pack_of, packs_of, system_of};

use crate::films::make_film;
use std::alloc::Global;
use vod_base::NoMemory;

/// Video bytes of a packet.
const PACKET: usize = 2000;

/// A pack header, and the start code of a packet of video stream 0.
const PACK: [u8; 16] = [
    0, 0, 1, 0xba, 0x21, 0x00, 0x01, 0x00, 0x01, 0x80, 0x00, 0x03, 0, 0, 1, 0xe0,
];

/// The end code of a system stream.
const END: [u8; 4] = [0, 0, 1, 0xb9];

/// Makes the film of a number as an MPEG-1 system stream (ISO/IEC 11172-1): packets of 2,000 video
/// bytes, or of what is left, each in a pack of its own.
///
/// `pictures` is at most 100,000 on the command line, and any number here.
///
/// # Errors
///
/// [`NoMemory`] where there is none for the film or the stream.
pub fn make_system(alloc: Global, number: u64, pictures: u32) -> Result<Vec<u8>, NoMemory>
    ensures { IfOk result (λ stream. stream.items ≡
        system_of (film_of (words_of number) pictures)) }
{
    let film = make_film(alloc, number, pictures)?;
    wrap(alloc, &film)
}

/// Appends a pack of one packet with these video bytes.
#[tactic(auto, using(std::proofs::lemmas::List::append_assoc))]
fn write_pack(video: &[u8], out: &mut Vec<u8>) -> Result<(), NoMemory>
    requires { length video.now ≤ 2000 }
    ensures { OnOk result (out.new.items ≡ out.old.items ++ pack_of video.now) }
{
    // The content is the byte 0F, which says that there is no time stamp, and the video. Both are
    // at most 2,001 bytes, so they fit in 16 bits.
    let length = (video.len() + 1) as u16;
    out.extend_from_slice(&PACK)?;
    out.extend_from_slice(&length.to_be_bytes())?;
    out.push(0x0f)?;
    out.extend_from_slice(video)?;
    Ok(())
}

/// Appends video in packs, without the end code.
fn write_packs(video: &[u8], out: &mut Vec<u8>) -> Result<(), NoMemory>
    ensures { OnOk result (out.new.items ≡
        out.old.items ++ packs_of video.now ((length video.now + 1999) / 2000)) }
{
    for part in 0..video.len().div_ceil(PACKET) {
        let rest = &video[part * PACKET..];
        write_pack(&rest[..rest.len().min(PACKET)], out)?;
    }
    Ok(())
}

/// Video as a system stream.
fn wrap(alloc: Global, video: &[u8]) -> Result<Vec<u8>, NoMemory>
    ensures { IfOk result (λ stream. stream.items ≡ system_of video.now) }
{
    let mut stream = Vec::new(alloc);
    write_packs(video, &mut stream)?;
    stream.extend_from_slice(&END)?;
    Ok(stream)
}

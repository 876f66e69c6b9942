//! Makes a film, as an MPEG-1 video stream.

ghost use Rattle.std.specs.Prelude.{◌≡◌, IfOk};
ghost use Rattle.film_make.specs.Generator.{words_of};
ghost use Rattle.film_make.specs.Film.{film_of, pictures_of};

use crate::draws::Draws;
use crate::pictures::write_picture;
use std::alloc::Global;
use vod_base::NoMemory;

/// A sequence end code.
const SEQUENCE_END: [u8; 4] = [0, 0, 1, 0xb7];

/// Makes the film of a number: MPEG-1 video (ISO/IEC 11172-2) of 25 pictures a second, twelve
/// pictures to a group, four slices to a picture.
///
/// `pictures` is at most 100,000 on the command line, and any number here.
///
/// # Errors
///
/// [`NoMemory`] where there is none for the film.
pub fn make_film(alloc: Global, number: u64, pictures: u32) -> Result<Vec<u8>, NoMemory>
    ensures { IfOk result (λ film. film.items ≡ film_of (words_of number) pictures) }
{
    let mut film = make_pictures(alloc, number, pictures)?;
    film.extend_from_slice(&SEQUENCE_END)?;
    Ok(film)
}

/// The pictures of a film, without the end of the sequence.
fn make_pictures(alloc: Global, number: u64, pictures: u32) -> Result<Vec<u8>, NoMemory>
    ensures { IfOk result (λ film. film.items ≡ pictures_of (words_of number) pictures) }
{
    let mut draws = Draws::new(number);
    let mut film = Vec::new(alloc);
    for index in 0..pictures {
        write_picture(&mut draws, index, &mut film)?;
    }
    Ok(film)
}

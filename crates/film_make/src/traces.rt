//! Makes a trace: the sizes of pictures, one a line.

ghost use Rattle.std.specs.Prelude.{◌≡◌, ◌++◌, IfOk, ◌*◌, ◌+◌, ◌%◌, ◌==◌, [], ◌∷◌};
ghost use Rattle.std.specs.Prelude.{if◌then◌else◌, decimal, OnOk};
ghost use Rattle.film_make.specs.Generator.{words_after, words_left, words_of};
ghost use Rattle.film_make.specs.Trace.{sizes_of, trace_of};

use crate::draws::Draws;
use crate::pictures::GROUP_PICTURES;
use std::alloc::Global;
use vod_base::{NoMemory, push_number};

/// Makes the sizes of a trace by the next draws: one for each picture, in bytes, from 200 to 7,996.
///
/// # Errors
///
/// [`NoMemory`] where there is none for the sizes.
pub fn draw_sizes(alloc: Global, draws: &mut Draws, pictures: u32) -> Result<Vec<u64>, NoMemory>
    ensures sizes { IfOk result (λ sizes. sizes.items ≡ sizes_of (words_left draws.old) pictures) }
    ensures left { OnOk result
        (words_left draws.new ≡ words_after pictures (words_left draws.old)) }
{
    let mut sizes = Vec::new(alloc);
    for index in 0..pictures {
        sizes.push(u64::from(next_size(draws, index)))?;
    }
    Ok(sizes)
}

/// Makes the trace by the next draws: for each picture its size in bytes, from 200 to 7,996, one a
/// line.
///
/// # Errors
///
/// [`NoMemory`] where there is none for the text.
pub fn draw_trace(alloc: Global, draws: &mut Draws, pictures: u32) -> Result<Vec<u8>, NoMemory>
    ensures trace { IfOk result (λ trace. trace.items ≡ trace_of (words_left draws.old) pictures) }
    ensures left { OnOk result
        (words_left draws.new ≡ words_after pictures (words_left draws.old)) }
{
    let mut trace = Vec::new(alloc);
    for index in 0..pictures {
        write_line(next_size(draws, index), &mut trace)?;
    }
    Ok(trace)
}

/// Makes the trace of a number: for each picture its size in bytes, from 200 to 7,996, one a line.
///
/// `pictures` is at most 100,000 on the command line, and any number here.
///
/// # Errors
///
/// [`NoMemory`] where there is none for the text.
pub fn make_trace(alloc: Global, number: u64, pictures: u32) -> Result<Vec<u8>, NoMemory>
    ensures { IfOk result (λ trace. trace.items ≡ trace_of (words_of number) pictures) }
{
    let mut draws = Draws::new(number);
    draw_trace(alloc, &mut draws, pictures)
}

/// The size of picture `index`, by the next word.
fn next_size(draws: &mut Draws, index: u32) -> u32
    ensures value { result ≡
        (if index % 12 == 0 then 4 else 1) * (200 + words_left draws.old 0 % 1800) }
    ensures left { words_left draws.new ≡ words_after 1 (words_left draws.old) }
{
    // As in coded films, the I picture that begins a group is usually the largest.
    let size = 200 + draws.draw(1800);
    if index % GROUP_PICTURES == 0 {
        4 * size
    } else {
        size
    }
}

/// Appends a line with a number.
fn write_line(number: u32, out: &mut Vec<u8>) -> Result<(), NoMemory>
    ensures { OnOk result (out.new.items ≡ out.old.items ++ (decimal number ++ 10 ∷ [])) }
{
    push_number(out, u64::from(number))?;
    out.push(b'\n')?;
    Ok(())
}

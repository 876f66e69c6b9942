//! The command `make`: the trace, film or system stream of a number.

ghost use Rattle.std.specs.Prelude.{◌≡◌, IfOk};
ghost use Rattle.offline_commands.specs.OfflineCommands.{generated_text};

use cli_args::MediaKind;
use film_make::{make_film, make_system, make_trace};
use std::alloc::Global;
use vod_base::NoMemory;

/// Makes the trace, film or system stream of a number.
///
/// # Errors
///
/// [`NoMemory`] alone.
pub fn make(alloc: Global, kind: MediaKind, seed: u64, pictures: u32) -> Result<Vec<u8>, NoMemory>
    ensures { IfOk result (λ text. text.items ≡ generated_text kind seed pictures) }
{
    match kind {
        MediaKind::Film => make_film(alloc, seed, pictures),
        MediaKind::Trace => make_trace(alloc, seed, pictures),
        MediaKind::System => make_system(alloc, seed, pictures),
    }
}

//! The arguments of the command line.

ghost use Rattle.std.specs.Prelude.{◌≡◌, [], IfOk, IfErr, IsOk, IsErr};
ghost use Rattle.std.specs.IoError.{error_kind};

use std::alloc::{AllocError, Global};
use std::env::Args;
use std::io::ErrorKind;
use std::rt::Env;
use std::{env, io};

/// Returns the arguments of the command line, without the program's name. If one of them isn't
/// UTF-8 there are none, and a command line without arguments means nothing.
///
/// # Errors
///
/// [`AllocError`] where there is no memory for them.
pub fn program_args(rt: &(impl Env + AllocGlobal)) -> Result<Vec<String>, AllocError> {
    without_name(rt.alloc(), env::args(rt))
}

/// The arguments without the first one, which is the program's name.
fn without_name(alloc: Global, args: io::Result<Args<Global>>) -> Result<Vec<String>, AllocError>
    ensures memory { IfErr args (λ error. error_kind error ≡ ErrorKind.OutOfMemory →
        IsErr result) }
    ensures none { IfErr args (λ error. (error_kind error ≡ ErrorKind.OutOfMemory → ⊥) →
        IsOk result) }
    ensures empty { IfErr args (λ error. IfOk result (λ words. words.items ≡ [])) }
{
    match args {
        Ok(args) => args.skip(1).collect(alloc),
        Err(error) => match error.kind() {
            ErrorKind::OutOfMemory => Err(AllocError),
            // No name and no value has such bytes. So it is a usage error (status 2), as any other
            // word without a meaning.
            _ => Ok(Vec::new(alloc)),
        },
    }
}

//! The seed that the identities of a server's connections are drawn from.

ghost use Rattle.std.specs.Prelude.{◌≡◌, ◌++◌, ℕ, Bool, List, [], false, OnOk, IfOk, IsTrue};

use std::fmt;
use std::random::RandomSource;

/// No random bytes could be drawn.
#[derive(Clone, Copy, Debug, PartialEq, Eq)]
pub struct NoRandomBytes;

/// A source of random bytes. Where `tells` is true it exposes to contracts all the bytes that it
/// gave, in order, as `drawn`.
pub trait ByteSource {
    ghost tells: { Bool };

    ghost drawn: { Self → List ℕ };

    /// Fills `into` with the next bytes.
    ///
    /// # Errors
    ///
    /// After a fault `into` may hold anything.
    fn fill(&mut self, into: &mut [u8]) -> Result<(), NoRandomBytes>
        ensures { OnOk result (IsTrue tells → drawn self.new ≡ drawn self.old ++ into.new) };
}

/// Draws a seed: the next 32 bytes of the source, in order.
///
/// # Errors
///
/// The source gave none.
pub fn draw_seed<S: ByteSource>(source: &mut S) -> Result<[u8; 32], NoRandomBytes>
    ensures { IfOk result (λ seed. IsTrue S.tells →
        S.drawn source.new ≡ S.drawn source.old ++ seed) }
{
    // The size of a key of ChaCha20, from which the session ids are drawn.
    let mut seed = [0; 32];
    match source.fill(&mut seed) {
        Ok(()) => Ok(seed),
        Err(NoRandomBytes) => Err(NoRandomBytes),
    }
}

/// The random bytes of the system. It doesn't expose them to contracts.
#[derive(Drop)]
pub struct SystemBytes<'a, R: RandomSource> {
    rt: &'a R,
}

impl<'a, R: RandomSource> SystemBytes<'a, R> {
    /// Makes a source of the random bytes of this runtime's system.
    pub fn new(rt: &'a R) -> SystemBytes<'a, R> {
        SystemBytes { rt }
    }
}

impl<R: RandomSource> fmt::Debug for SystemBytes<'_, R> {
    fn fmt<W: fmt::Write>(&self, f: &mut fmt::Formatter<W>) -> fmt::Result {
        f.debug_struct("SystemBytes").finish_non_exhaustive()
    }
}

impl<R: RandomSource> ByteSource for SystemBytes<'_, R> {
    ghost tells = { false };

    ghost drawn = { λ _. [] };

    fn fill(&mut self, into: &mut [u8]) -> Result<(), NoRandomBytes> {
        self.rt.fill_bytes(into).map_err(|_| NoRandomBytes)
    }
}

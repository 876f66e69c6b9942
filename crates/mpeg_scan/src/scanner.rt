//! Scans a film whose bytes come in chunks.

ghost use Rattle.std.specs.Prelude.{◌≡◌, None};
ghost use Rattle.mpeg_scan.specs.declared.faults.FilmFault.{FilmFault};
ghost use Rattle.mpeg_scan.specs.ScanBounds.{IsAhead};

use crate::faults::ScanRefused;
use crate::progress::Progress;
use crate::units::MAX_FILM_BYTES;
use crate::visitor::{Found, tell_unit};

/// A scan of a film in chunks, from its first byte on, that keeps none of it: it reports each part
/// to a [`Found`] when that part has ended.
#[derive(Debug, Drop)]
pub struct Scanner {
    /// How far the film was read, unless it is refused.
    progress: Progress,
    /// The refusal, once there was one: it stays.
    refused: Option<ScanRefused>,
    ghost room: { refused ≡ None → IsAhead progress },
}

impl Scanner {
    ghost use Rattle.std.specs.Prelude.{◌+◌, ◌≤◌, ◌++◌, ℕ, List, [], Some, Err, IfOk, OnOk, length};
    ghost use Rattle.mpeg_scan.specs.Calls.{Call, all_calls, calls_of};
    ghost use Rattle.mpeg_scan.specs.StartCodes.{codes_of, read_after};
    ghost use Rattle.mpeg_scan.specs.UnitNumbering.{AreNumbered};
    ghost use Rattle.mpeg_scan.specs.FilmFaults.{first_fault, refusal_of};
    ghost use Rattle.mpeg_scan.specs.Grammar.{IsGrammatical};
    ghost use Rattle.mpeg_scan.specs.ScannerState.{HasScannedBytes, IsSliceReady, IsRefusedInChunk};
    ghost use Rattle.mpeg_scan.specs.ScannerState.{bytes_fed, open_slices, refused_by};
    ghost use Rattle.mpeg_scan.specs.PartTiling.{Tiles};
    ghost use Rattle.mpeg_scan.specs.CodeFacts.{rate_of};

    /// Returns a scanner before the first byte of a film.
    pub fn new() -> Scanner
        ensures fed { HasScannedBytes result [] }
        ensures slices { open_slices result ≡ 0 }
    {
        Scanner {
            progress: Progress::new(),
            refused: None,
        }
    }

    /// Processes the next bytes of the film, and reports what has ended in them.
    ///
    /// # Errors
    ///
    /// [`ScanRefused::Fault`] where a code is refused, once all that ends before that code was
    /// reported; [`ScanRefused::NoMemory`] where `found` runs out of memory. Once it has answered
    /// either, it returns the same again.
    pub fn feed<F: Found>(&mut self, chunk: &[u8], found: &mut F) -> Result<(), ScanRefused>
        // needs: at most 2^40 bytes in all, and a `found` that awaits the next slice
        requires short { bytes_fed self.old + length chunk.now ≤ MAX_FILM_BYTES }
        requires ready { IsSliceReady (F.ready_at found.old) self.old }
        // leaves: the bytes are read, and all that ended in them is reported
        ensures kept { OnOk result ((r : List ℕ) → HasScannedBytes self.old r →
            HasScannedBytes self.new (read_after r chunk.now)) }
        ensures heard { OnOk result ((r : List ℕ) (calls : List Call) → HasScannedBytes self.old r →
            F.heard found.old (calls ++ calls_of (codes_of r))
            → F.heard found.new (calls ++ calls_of (codes_of (read_after r chunk.now)))) }
        // answers: the first fault of the bytes so far; what ended before it was reported
        ensures fault { (f : FilmFault) → result ≡ Err (ScanRefused.Fault f) → (r : List ℕ) →
            HasScannedBytes self.old r
            → first_fault (codes_of (read_after r chunk.now)) ≡ Some f }
        ensures heard_before { (f : FilmFault) → result ≡ Err (ScanRefused.Fault f) →
            (r : List ℕ) (calls : List Call)
            → HasScannedBytes self.old r → F.heard found.old (calls ++ calls_of (codes_of r))
            → IsRefusedInChunk (F.heard found.new) r chunk.now calls f }
        // leaves: a refusal stays, and later calls change nothing
        ensures refused { (e : ScanRefused) → result ≡ Err e → refused_by self.new ≡ Some e }
        ensures again { (e : ScanRefused) → refused_by self.old ≡ Some e
            → (result ≡ Err e) × (self.new ≡ self.old) × (found.new ≡ found.old) }
        // leaves, in any case: `found` awaits the next slice, and no more bytes count than came
        ensures ready { IsSliceReady (F.ready_at found.new) self.new }
        ensures fed { bytes_fed self.new ≤ bytes_fed self.old + length chunk.now }
    {
        // A refusal stands whatever follows (`law_early_refusal_is_final`), so it stays.
        if let Some(refused) = self.refused {
            return Err(refused);
        }
        match self.progress.take_bytes(chunk, found) {
            Ok(()) => Ok(()),
            Err(refused) => {
                self.refused = Some(refused);
                Err(refused)
            }
        }
    }

    /// Ends the film, and reports its last slice and unit.
    ///
    /// # Errors
    ///
    /// What `feed` has answered before; else [`ScanRefused::Fault`] with the refusal of the film's
    /// end, where nothing is reported, or [`ScanRefused::NoMemory`] where `found` runs out of
    /// memory.
    pub fn finish<F: Found>(self, found: &mut F) -> Result<Ending, ScanRefused>
        // needs: a `found` that awaits the next slice
        requires { IsSliceReady (F.ready_at found.old) self }
        // answers: the film's rate and size; no fault stands in its bytes
        ensures ended { IfOk result (λ e. (r : List ℕ) → HasScannedBytes self r
            → (refusal_of r ≡ None) × (e.rate ≡ rate_of (codes_of r)) × (e.bytes ≡ length r)) }
        // answers: its units lie as the standard has them
        ensures tiled { OnOk result ((r : List ℕ) → HasScannedBytes self r →
            Tiles r (all_calls r)) }
        ensures grammatical { OnOk result ((r : List ℕ) → HasScannedBytes self r →
            IsGrammatical r) }
        ensures numbered { OnOk result ((r : List ℕ) → HasScannedBytes self r →
            AreNumbered (all_calls r)) }
        // leaves: all parts of the film are reported
        ensures heard { OnOk result ((r : List ℕ) (calls : List Call) → HasScannedBytes self r →
            F.heard found.old (calls ++ calls_of (codes_of r))
            → F.heard found.new (calls ++ all_calls r)) }
        // answers: the film's fault, with nothing reported by this call; or what `feed` answered
        ensures fault { (f : FilmFault) → result ≡ Err (ScanRefused.Fault f) → (r : List ℕ) →
            HasScannedBytes self r → refusal_of r ≡ Some f }
        ensures unheard { (f : FilmFault) → result ≡ Err (ScanRefused.Fault f) →
            found.new ≡ found.old }
        ensures again { (e : ScanRefused) → refused_by self ≡ Some e → (result ≡ Err e)
            × (found.new ≡ found.old) }
    {
        if let Some(refused) = self.refused {
            return Err(refused);
        }
        // Judged before anything is reported: of a film that is refused at its end no last unit is.
        let tally = self.progress.judge_film()?;
        tell_unit(&tally, self.progress.fed, found)?;
        Ok(Ending {
            rate: tally.rate.unwrap(),
            bytes: self.progress.fed,
        })
    }
}

/// What a complete film has in addition to its units.
#[derive(Clone, Copy, Debug, PartialEq, Eq)]
pub struct Ending {
    /// The rate code of its first sequence header, from 1 to 8.
    pub rate: u8,
    /// How many bytes it has.
    pub bytes: u64,
}

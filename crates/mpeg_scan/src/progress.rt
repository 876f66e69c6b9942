//! How far a film was read, and what a further byte does.

ghost use Rattle.std.specs.Prelude.{◌≡◌, ℕ, ◌+◌, ◌<◌, ◌≤◌, List, [], ◌∷◌, ◌++◌, Some, None};
ghost use Rattle.std.specs.Prelude.{length, take, slice_index, IsSome, IsTrue, true, IfOk, IfErr};
ghost use Rattle.std.specs.Prelude.{MatchResult, OnOk, ◌≢◌};
ghost use Rattle.std.specs.Option.{ForSome};
ghost use Rattle.mpeg_scan.specs.Calls.{Call, calls_at, calls_of};
ghost use Rattle.mpeg_scan.specs.StartCodes.{codes_of, read_after};
ghost use Rattle.mpeg_scan.specs.FilmFaults.{refusal_of};
ghost use Rattle.mpeg_scan.specs.ScanBounds.{AwaitsSlice, AwaitsSliceAfter, HasCounts, HasRoomWith};
ghost use Rattle.mpeg_scan.specs.ScanBounds.{IsAhead};
ghost use Rattle.mpeg_scan.specs.CodeSteps.{judgement, last_judgement, latest_header_fault};
ghost use Rattle.mpeg_scan.specs.CodeSteps.{tally_now};
ghost use Rattle.mpeg_scan.specs.CodeFacts.{tally_of};
ghost use Rattle.mpeg_scan.specs.ScannerState.{HasReadBytes, HasSkipped, IsFaultWith};
ghost use Rattle.mpeg_scan.specs.ScannerState.{IsRefusedInChunk, ReadsBytes, scan_with_byte};
ghost use Rattle.mpeg_scan.specs.ScannerState.{scan_with_code, with_header_bytes};

use crate::codes::{Code, Prefix};
use crate::faults::{FilmFault, ScanRefused, code_fault, header_fault, last_fault};
use crate::header_bytes::HeaderBytes;
use crate::tallies::{Tally, is_slice};
use crate::units::{MAX_COUNTED_BYTES, MAX_FILM_BYTES};
use crate::visitor::{Found, tell};
use memchr::memchr;

/// How far a film was read: what is kept of its bytes.
#[derive(Debug, Drop)]
pub(crate) struct Progress {
    /// How many bytes were read.
    pub(crate) fed: u64,
    /// How much of the next prefix stands at the end.
    prefix: Prefix,
    /// The latest code, with what was read of its header. It isn't in the tally yet: only the next
    /// code shows whether its header is complete.
    latest: Option<Code>,
    /// Of the codes before the latest.
    tally: Tally,
}

impl Progress {
    /// Before the first byte.
    pub(crate) fn new() -> Progress
        ensures read { HasReadBytes result [] }
        ensures room { IsAhead result }
        ensures slices { (tally_now result).slices ≡ 0 }
    {
        Progress {
            fed: 0,
            prefix: Prefix::Nothing,
            latest: None,
            tally: Tally::new(),
        }
    }

    /// A byte that isn't the value of a code.
    fn note(&mut self, byte: u8)
        requires { self.old.fed < MAX_COUNTED_BYTES }
        ensures { self.new ≡ scan_with_byte self.old byte }
    {
        if let Some(code) = &mut self.latest {
            code.header.note(byte);
        }
        self.prefix = self.prefix.next(byte);
        self.fed += 1;
    }

    /// The refusal of the latest code's header, where the next code, or the end, stands at `end`.
    fn header_fault(&self, end: u64) -> Option<FilmFault>
        requires { ForSome self.now.latest (λ code. code.place ≤ end) }
        ensures { result ≡ latest_header_fault self.now.latest self.now.tally.rate end }
    {
        let code = self.latest.as_ref()?;
        header_fault(self.tally.rate, code, end)
    }

    /// The tally with the latest code.
    fn tally_now(&self) -> Tally
        requires { HasCounts self.now.tally MAX_COUNTED_BYTES }
        ensures { result ≡ tally_now self.now }
    {
        let mut tally = self.tally;
        if let Some(code) = &self.latest {
            tally.add(code);
        }
        tally
    }

    /// Adds the latest code to the tally of those before it.
    fn add_latest(&mut self)
        requires { HasCounts self.old.tally MAX_COUNTED_BYTES }
        ensures tally { self.new.tally ≡ tally_now self.old }
        ensures fed { self.new.fed ≡ self.old.fed }
        ensures prefix { self.new.prefix ≡ self.old.prefix }
    {
        if let Some(code) = &self.latest {
            self.tally.add(code);
        }
    }

    /// Judges a code, and adds the latest code to the tally of those before it. Inlined, since for
    /// most codes little of it is done.
    #[inline(always)]
    #[tactic(auto, unfolding(crate::specs::CodeSteps::code_judgement))]
    fn judge(&mut self, place: u64, value: u8) -> Result<(), FilmFault>
        requires room { HasRoomWith self.old.latest self.old.tally place }
        requires within { place ≤ MAX_FILM_BYTES }
        ensures judged { MatchResult result
            (λ _. (judgement self.old place value ≡ None)
            × (self.new.tally ≡ tally_now self.old))
            (λ f. judgement self.old place value ≡ Some f) }
        ensures fed { self.new.fed ≡ self.old.fed }
        ensures prefix { self.new.prefix ≡ self.old.prefix }
    {
        // Most codes are slices that follow a slice. None of them is refused: a slice has no header
        // to judge, and its unit was judged at the first slice.
        if let Some(code) = &self.latest {
            if is_slice(code.value) && is_slice(value) {
                self.tally.add(code);
                return Ok(());
            }
        }
        self.judge_other(place, value)
    }

    /// The same for any code.
    #[tactic(auto, unfolding(crate::specs::CodeSteps::code_judgement))]
    fn judge_other(&mut self, place: u64, value: u8) -> Result<(), FilmFault>
        requires room { HasRoomWith self.old.latest self.old.tally place }
        requires within { place ≤ MAX_FILM_BYTES }
        ensures judged { MatchResult result
            (λ _. (judgement self.old place value ≡ None)
            × (self.new.tally ≡ tally_now self.old))
            (λ f. judgement self.old place value ≡ Some f) }
        ensures fed { self.new.fed ≡ self.old.fed }
        ensures prefix { self.new.prefix ≡ self.old.prefix }
    {
        // Only the next code shows whether the header before it is complete.
        if let Some(fault) = self.header_fault(place) {
            return Err(fault);
        }
        self.add_latest();
        match code_fault(&self.tally, place, value) {
            None => Ok(()),
            Some(fault) => Err(fault),
        }
    }

    /// Processes a code, and reports what ends at it.
    fn take_code<F: Found>(
        &mut self,
        place: u64,
        value: u8,
        found: &mut F,
    ) -> Result<(), ScanRefused>
        // needs: room for the code, and a visitor that awaits what may come
        requires room { HasRoomWith self.old.latest self.old.tally place }
        requires within { place ≤ MAX_FILM_BYTES }
        requires ready { AwaitsSlice (F.ready_at found.old) (tally_now self.old) }
        // answers: the code is allowed here, and what ends at it was reported
        ensures taken { OnOk result ((judgement self.old place value ≡ None)
            × (self.new ≡ scan_with_code self.old place value)) }
        ensures heard { OnOk result ((calls : List Call) → F.heard found.old calls
            → F.heard found.new (calls ++ calls_at (tally_now self.old) place value)) }
        // answers: else the fault of the code; then nothing was reported
        ensures fault { (f : FilmFault) → result ≡ Err (ScanRefused.Fault f) →
            judgement self.old place value ≡ Some f }
        ensures unheard { (f : FilmFault) → result ≡ Err (ScanRefused.Fault f) →
            found.new ≡ found.old }
        // leaves: the number of bytes, and a visitor that awaits what may come
        ensures fed { self.new.fed ≡ self.old.fed }
        ensures ready { OnOk result
            (AwaitsSliceAfter (F.ready_at found.new) (tally_now self.old) place value) }
    {
        // Judged first: what would end at a refused code is not reported.
        self.judge(place, value)?;
        tell(&self.tally, place, value, found)?;
        self.latest = Some(Code {
            place,
            value,
            header: HeaderBytes::new(),
        });
        Ok(())
    }

    /// Takes a byte.
    fn take_byte<F: Found>(&mut self, byte: u8, found: &mut F) -> Result<(), ScanRefused>
        // needs: room for a byte, and a visitor that awaits what may come
        requires short { self.old.fed < MAX_FILM_BYTES }
        requires room { IsAhead self.old }
        requires ready { AwaitsSlice (F.ready_at found.old) (tally_now self.old) }
        // answers: the byte was read behind those before it, and what ends at it was reported
        ensures kept { OnOk result (ReadsBytes self.old self.new (byte ∷ [])) }
        ensures heard { OnOk result ((r : List ℕ) (calls : List Call) → HasReadBytes self.old r →
            F.heard found.old (calls ++ calls_of (codes_of r))
            → F.heard found.new (calls ++ calls_of (codes_of (byte ∷ r)))) }
        // answers: else the first fault of these bytes; then nothing was reported
        ensures fault { (f : FilmFault) → result ≡ Err (ScanRefused.Fault f) →
            IsFaultWith self.old (byte ∷ []) f }
        ensures unheard { (f : FilmFault) → result ≡ Err (ScanRefused.Fault f) →
            found.new ≡ found.old }
        // leaves: one byte more, and room as before
        ensures fed { self.new.fed ≡ self.old.fed + 1 }
        ensures room { OnOk result
            (IsAhead self.new) }
        ensures ready { OnOk result
            (AwaitsSlice (F.ready_at found.new) (tally_now self.new)) }
    {
        if !self.prefix.is_whole() {
            self.note(byte);
            return Ok(());
        }
        // The prefix 00 00 01 ends before this byte, which is the code's value.
        let place = self.fed - 3;
        self.note(byte);
        self.take_code(place, byte, found)
    }

    /// Adds bytes to the header of the latest code, as far as they are read.
    fn note_header(&mut self, bytes: &[u8])
        ensures { self.new ≡ with_header_bytes self.old bytes.now }
    {
        if let Some(code) = &mut self.latest {
            code.header.note_all(bytes);
        }
    }

    /// Reads the prefix 00 00 01, if `rest` begins with it. Returns how many bytes were read: 3 or
    /// none.
    fn take_prefix(&mut self, rest: &[u8]) -> usize
        requires few { self.old.fed + length rest.now < MAX_COUNTED_BYTES }
        requires none { self.old.prefix ≡ Prefix.Nothing }
        ensures bound { result ≤ length rest.now }
        ensures skipped { HasSkipped self.old self.new rest.now result }
        ensures fed { self.new.fed ≡ self.old.fed + result }
    {
        // A prefix that lies in one chunk is read at once, in place of three steps of `take_byte`.
        if rest.len() < 3 || rest[0] != 0 || rest[1] != 0 || rest[2] != 1 {
            return 0;
        }
        // The latest header may be so short that this prefix is among the bytes kept of it.
        self.note_header(&rest[..3]);
        self.prefix = Prefix::Whole;
        self.fed += 3;
        3
    }

    /// Reads the first bytes of `rest`: those before its first zero byte, and a prefix that begins
    /// there. Returns how many: none where a part of a prefix stands at the end. No code ends in
    /// them, so they are of the latest header or are passed over.
    fn skip(&mut self, rest: &[u8]) -> usize
        requires { self.old.fed + length rest.now < MAX_COUNTED_BYTES }
        ensures bound { result ≤ length rest.now }
        ensures skipped { HasSkipped self.old self.new rest.now result }
        ensures fed { self.new.fed ≡ self.old.fed + result }
    {
        // Within a prefix each byte counts: `take_byte` reads it.
        let Prefix::Nothing = self.prefix else {
            return 0;
        };
        // A code's prefix begins with a zero byte, so no code can begin before one.
        let count = run_before_zero(rest);
        self.note_header(&rest[..count]);
        self.fed += count as u64;
        count + self.take_prefix(&rest[count..])
    }

    /// Takes bytes, until one is refused.
    pub(crate) fn take_bytes<F: Found>(
        &mut self,
        chunk: &[u8],
        found: &mut F,
    ) -> Result<(), ScanRefused>
        requires short { self.old.fed + length chunk.now ≤ MAX_FILM_BYTES }
        requires room { IsAhead self.old }
        requires ready { AwaitsSlice (F.ready_at found.old) (tally_now self.old) }
        ensures kept { OnOk result (ReadsBytes self.old self.new chunk.now) }
        ensures heard { OnOk result ((r : List ℕ) (calls : List Call) → HasReadBytes self.old r →
            F.heard found.old (calls ++ calls_of (codes_of r))
            → F.heard found.new (calls ++ calls_of (codes_of (read_after r chunk.now)))) }
        ensures fault { (f : FilmFault) → result ≡ Err (ScanRefused.Fault f) →
            IsFaultWith self.old chunk.now f }
        ensures heard_before { (f : FilmFault) → result ≡ Err (ScanRefused.Fault f) →
            (r : List ℕ) (calls : List Call)
            → HasReadBytes self.old r → F.heard found.old (calls ++ calls_of (codes_of r))
            → IsRefusedInChunk (F.heard found.new) r chunk.now calls f }
        ensures fed { self.new.fed ≤ self.old.fed + length chunk.now }
        ensures room { OnOk result
            (IsAhead self.new) }
        ensures ready { OnOk result
            (AwaitsSlice (F.ready_at found.new) (tally_now self.new)) }
    {
        let mut at = 0;
        while at < chunk.len() {
            at += self.skip(&chunk[at..]);
            // `skip` may pass over nothing. A byte that is taken here brings the loop to its end.
            if at < chunk.len() {
                self.take_byte(chunk[at], found)?;
                at += 1;
            }
        }
        Ok(())
    }

    /// Judges the film's end.
    #[tactic(auto, unfolding(crate::specs::CodeSteps::end_judgement))]
    fn judge_end(&self) -> Result<Tally, FilmFault>
        requires room { HasRoomWith self.now.latest self.now.tally self.now.fed }
        requires within { self.now.fed ≤ MAX_FILM_BYTES }
        ensures { MatchResult result
            (λ t. (last_judgement self.now ≡ None) × (t ≡ tally_now self.now))
            (λ f. last_judgement self.now ≡ Some f) }
    {
        if let Some(fault) = self.header_fault(self.fed) {
            return Err(fault);
        }
        let tally = self.tally_now();
        match last_fault(&tally) {
            None => Ok(tally),
            Some(fault) => Err(fault),
        }
    }

    /// Judges the complete film.
    pub(crate) fn judge_film(&self) -> Result<Tally, FilmFault>
        requires { IsAhead self.now }
        ensures tally { IfOk result (λ t. t ≡ tally_now self.now) }
        ensures sliced { IfOk result (λ t. 0 < t.slices) }
        ensures rated { IfOk result (λ t. IsSome t.rate) }
        ensures short { OnOk result (self.now.fed ≤ MAX_FILM_BYTES) }
        ensures accepted { IfOk result (λ t. (r : List ℕ) → HasReadBytes self.now r →
            (refusal_of r ≡ None) × (t ≡ tally_of (codes_of r))) }
        ensures fault { IfErr result (λ f. (r : List ℕ) → HasReadBytes self.now r →
            refusal_of r ≡ Some f) }
    {
        // The size of a film is judged before its codes, so these two come first.
        if self.fed == 0 {
            Err(FilmFault::Empty)
        } else if MAX_FILM_BYTES < self.fed {
            Err(FilmFault::TooLong)
        } else {
            self.judge_end()
        }
    }
}

/// How many bytes stand before the first zero byte.
fn run_before_zero(bytes: &[u8]) -> usize
    ensures bound { result ≤ length bytes.now }
    ensures run { (k : ℕ) → k < result → slice_index bytes.now k ≢ 0 }
{
    // Nearly all bytes of a film are neither zero nor in a header: they are passed over at once.
    memchr(0, bytes).unwrap_or(bytes.len())
}

//! Reports a film's heads, slices and units as they end.

ghost use Rattle.std.specs.Prelude.{◌≡◌, ◌+◌, ◌<◌, ◌≤◌, ◌++◌, ◌∷◌, ℕ, [], List, IsSome, OnOk, true};
ghost use Rattle.mpeg_scan.specs.ScanBounds.{AwaitsSlice, AwaitsSliceAfter, HasRoom};
ghost use Rattle.mpeg_scan.specs.CodeFacts.{is_slice};
ghost use Rattle.mpeg_scan.specs.Calls.{Call, calls_at, head_call, slice_call, unit_at, unit_call};
ghost use Rattle.mpeg_scan.specs.Calls.{unit_end};

use crate::tallies::{Tally, is_head, is_slice};
use crate::units::{MAX_FILM_BYTES, MAX_UNIT_HEAD_BYTES, Unit};
use vod_base::NoMemory;

/// A receiver of a film's parts while the film is scanned: of each unit its head, its slices in
/// order, and then the unit itself, each when it has ended. Places are in bytes from the film's
/// first.
///
/// # Errors
///
/// [`NoMemory`] ends the scan, which returns [`ScanRefused::NoMemory`](crate::ScanRefused).
pub trait Found {
    ghost heard: { Self → List Call → Type 0 };

    /// That the next slice may begin at a place.
    ghost ready_at: { Self → ℕ → Type 0 } = { λ _ _. Unit {0} };

    /// Receives a head, from its unit's first start code to its first slice: 1 to 1,380 bytes.
    ///
    /// # Errors
    ///
    /// [`NoMemory`] where there is none to keep it.
    fn head(&mut self, from: u64, to: u64) -> Result<(), NoMemory>
        // needs: 1 to 1,380 bytes, within the longest film
        requires some { from < to }
        requires most { to ≤ from + MAX_UNIT_HEAD_BYTES }
        requires within { to ≤ MAX_FILM_BYTES }
        // leaves: the head is noted, and the first slice may begin where it ends
        ensures heard { OnOk result ((calls : List Call) → heard self.old calls →
            heard self.new (calls ++ head_call from to ∷ [])) }
        ensures ready { OnOk result (ready_at self.new to) };

    /// Receives a slice, from its start code to the next slice of its unit or to its unit's end: at
    /// least 4 bytes, from where the head or the slice before it ended.
    ///
    /// # Errors
    ///
    /// [`NoMemory`] where there is none to keep it.
    fn slice(&mut self, from: u64, to: u64) -> Result<(), NoMemory>
        // needs: a start code at least, from where the part before it ended
        requires least { from + 4 ≤ to }
        requires within { to ≤ MAX_FILM_BYTES }
        requires ready { ready_at self.old from }
        // leaves: the slice is noted, and the next one may begin where it ends
        ensures heard { OnOk result ((calls : List Call) → heard self.old calls →
            heard self.new (calls ++ slice_call from to ∷ [])) }
        ensures ready { OnOk result (ready_at self.new to) };

    /// Receives a unit, which ends where its last slice does.
    ///
    /// # Errors
    ///
    /// [`NoMemory`] where there is none to keep it.
    fn unit(&mut self, unit: Unit) -> Result<(), NoMemory>
        requires { ready_at self.old unit.to }
        ensures { OnOk result ((calls : List Call) → heard self.old calls →
            heard self.new (calls ++ unit_call unit ∷ [])) };
}

/// Reports the latest unit's last slice and the unit, which end at `to`.
#[tactic(auto, using(std::proofs::lemmas::List::append_assoc))]
pub(crate) fn tell_unit<F: Found>(tally: &Tally, to: u64, found: &mut F) -> Result<(), NoMemory>
    requires some { 0 < tally.now.slices }
    requires room { HasRoom tally.now to }
    requires within { to ≤ MAX_FILM_BYTES }
    requires ready { F.ready_at found.old tally.now.slice }
    ensures { OnOk result ((calls : List Call) → F.heard found.old calls →
        F.heard found.new (calls ++ unit_end tally.now to)) }
{
    let unit = tally.unit.unwrap();
    let slices = unit.slices.unwrap();
    // No slice follows in the unit, so its last slice ends where the unit does.
    found.slice(slices.last, to)?;
    found.unit(unit_at(tally, to))
}

/// Reports what ends at a code after those of `tally`.
#[tactic(auto, unfolding(crate::specs::Calls::calls_at))]
pub(crate) fn tell<F: Found>(
    tally: &Tally,
    place: u64,
    value: u8,
    found: &mut F,
) -> Result<(), NoMemory>
    requires begun { is_slice value ≡ true → tally.now.begun ≡ true }
    requires head { is_slice value ≡ true → tally.now.slices ≡ 0 → tally.now.unit < place }
    requires short { is_slice value ≡ true → tally.now.slices ≡ 0 →
        place ≤ tally.now.unit + MAX_UNIT_HEAD_BYTES }
    requires room { HasRoom tally.now place }
    requires within { place ≤ MAX_FILM_BYTES }
    requires ready { AwaitsSlice (F.ready_at found.old) tally.now }
    ensures ready { OnOk result (AwaitsSliceAfter (F.ready_at found.new) tally.now place value) }
    ensures heard { OnOk result ((calls : List Call) → F.heard found.old calls →
        F.heard found.new (calls ++ calls_at tally.now place value)) }
{
    // Before the first code of a film there is nothing that could end.
    let Some(unit) = tally.unit else {
        return Ok(());
    };
    match unit.slices {
        None if is_slice(value) => found.head(unit.from, place),
        Some(slices) if is_slice(value) => found.slice(slices.last, place),
        Some(_) if is_head(value) => tell_unit(tally, place, found),
        // User data, further headers of a head and the end of a sequence are bytes of their part.
        _ => Ok(()),
    }
}

/// The latest unit, where it ends at `to`.
fn unit_at(tally: &Tally, to: u64) -> Unit
    requires picture { IsSome tally.now.picture }
    requires some { 0 < tally.now.slices }
    requires slices { tally.now.slices ≤ tally.now.all_slices }
    ensures { result ≡ unit_at tally.now to }
{
    let unit = tally.unit.unwrap();
    let picture = unit.picture.unwrap();
    let slices = unit.slices.unwrap();
    Unit {
        from: unit.from,
        head_end: slices.first,
        to,
        // The slices of this unit are among all so far.
        first_slice: tally.all_slices - slices.count,
        slices: slices.count,
        temporal: picture.temporal,
        // temporal_reference counts anew in each group (ISO/IEC 11172-2, 2.4.3.4).
        presentation: u64::from(tally.before_group) + u64::from(picture.temporal),
        kind: picture.kind,
        vectors: picture.vectors,
        has_sequence: unit.has_sequence,
        starts_group: unit.starts_group,
    }
}

//! Keeps the units of a film and the places of its slices.

ghost use Rattle.std.specs.Prelude.{◌≡◌, [], List};
ghost use Rattle.mpeg_scan.specs.Calls.{Call};
ghost use Rattle.mpeg_scan.specs.Films.{slices_in, units_in};

use crate::units::Unit;
use crate::visitor::Found;
use std::alloc::Global;
use vod_base::NoMemory;

/// Keeps a film's units and the places of its slices.
#[derive(Drop)]
pub(crate) struct Collector {
    /// The units, in order.
    pub(crate) units: Vec<Unit>,
    /// The places of the slices, in order.
    pub(crate) slices: Vec<u64>,
}

impl Collector {
    /// Without any.
    pub(crate) fn new(alloc: Global) -> Collector
        ensures units { result.units.items ≡ [] }
        ensures slices { result.slices.items ≡ [] }
    {
        Collector {
            units: Vec::new(alloc),
            slices: Vec::new(alloc),
        }
    }
}

impl Found for Collector {
    ghost heard = { λ c calls. (c.units.items ≡ units_in calls)
        × (c.slices.items ≡ slices_in calls) };

    fn head(&mut self, _from: u64, _to: u64) -> Result<(), NoMemory> {
        // The unit has both places of its head.
        Ok(())
    }

    fn slice(&mut self, from: u64, _to: u64) -> Result<(), NoMemory> {
        // The next slice or the unit says where this one ends, so one place is enough.
        self.slices.push(from)?;
        Ok(())
    }

    fn unit(&mut self, unit: Unit) -> Result<(), NoMemory> {
        self.units.push(unit)?;
        Ok(())
    }
}

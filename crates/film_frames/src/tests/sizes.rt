//! The sizes of units on the wire, collected while a film is scanned in pieces.

ghost use Rattle.std.specs.Prelude.{⊤, ◌≤◌};
ghost use Rattle.rtp_pack.specs.Sizes.{bytes_of};

use mpeg_scan::{Found, Scanner, Unit};
use rtp_pack::UnitSize;
use vod_base::NoMemory;

/// The bytes of a report before a group.
const REPORT: u64 = 52;

/// Adds up the bytes of a unit as its parts come, and keeps those of the units that have ended.
#[derive(Drop)]
struct Sizes {
    unit: UnitSize,
    all: Vec<u64>,
}

impl Found for Sizes {
    ghost heard = { λ _ _. ⊤ };

    ghost ready_at = { λ s place. bytes_of s.unit ≤ place };

    fn head(&mut self, from: u64, to: u64) -> Result<(), NoMemory> {
        self.unit = UnitSize::begin(to - from);
        Ok(())
    }

    fn slice(&mut self, from: u64, to: u64) -> Result<(), NoMemory> {
        self.unit.slice(to - from);
        Ok(())
    }

    fn unit(&mut self, unit: Unit) -> Result<(), NoMemory> {
        let whole = std::mem::replace(&mut self.unit, UnitSize::begin(1));
        let report = if unit.starts_group { REPORT } else { 0 };
        self.all.push(whole.end() + report)?;
        Ok(())
    }
}

#[test]
fn collects_sizes_in_pieces(rt: HostRuntime) {
    let front = b"\0\0\x01\xb3\x16\x01\x20\x13\xff\xff\xe0\xa0\
        \0\0\x01\xb8\0\x08\0\x40\0\0\x01\0\0\x0f\xff\xf8\0\0\x01";
    let rest = b"\x01\x12\x34\0\0\x01\0\0\x57\xff\xf8\x80\0\0\x01\x01\x12\x34";
    let mut found = Sizes {
        unit: UnitSize::begin(1),
        all: Vec::new(rt.alloc()),
    };
    let mut scanner = Scanner::new();
    scanner.feed(front, &mut found).expect(&rt, "the front");
    scanner.feed(rest, &mut found).expect(&rt, "the rest");
    scanner.finish(&mut found).expect(&rt, "the end");
    assert!(rt; found.all.as_slice() == [106, 35].as_slice());
}

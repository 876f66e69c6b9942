//! A gate in memory.

ghost use Rattle.std.specs.Prelude.{◌≡◌, ◌||◌, true, false, Some, None, [], if◌then◌else◌, nat_lt};
ghost use Rattle.std.specs.Prelude.{map, drop, slice_get, option_map, IfSome, IfOk, OnOk, OnErr};
ghost use Rattle.std.specs.Prelude.{is_err, vec_len};
ghost use Rattle.vod_base.specs.IoState.{one_more};
ghost use Rattle.vod_base.specs.Gates.{NoMore, Failed, MaySplit, IsPartOut, HasConnOut, after_open};
ghost use Rattle.vod_base.specs.Gates.{split_off, after_take, after_empty_take, after_return};
ghost use Rattle.vod_base.specs.Gates.{after_rejoin, fresh_part};
ghost use Rattle.vod_base.specs.Memory.{call_fails};
ghost use Rattle.vod_base.specs.MemoryGates.{returned_conn_of, part_of, back_of, script_of};
ghost use Rattle.vod_base.specs.MemoryGates.{first_script, part_split_off, gate_called};
ghost use Rattle.vod_base.specs.MemoryGates.{gate_failed};
ghost use Rattle.vod_base.specs.MemoryLinks.{link_begun};

use crate::errors::{GateFault, NoMemory};
use crate::fault_injection::counted_call;
use crate::gates::{Gate, Opening};
use crate::memory_links::MemoryLink;
use crate::part_links::{PartLinks, TakeResult};
use std::alloc::Global;
use std::fmt::{self, Formatter, Write};
use std::marker::Model;

/// The links that one part of a gate in memory gives. Each begins anew when it is given. Its calls
/// of `take` fail at the given numbers, from 1.
#[derive(Drop)]
pub struct MemoryPart {
    /// The links, in order.
    pub links: Vec<MemoryLink>,
    /// The numbers of the calls that fail.
    pub failing: Vec<u64>,
}

impl fmt::Debug for MemoryPart {
    fn fmt<W: Write>(&self, f: &mut Formatter<W>) -> fmt::Result {
        f.write_str("MemoryPart { .. }")
    }
}

/// The most parts: as many as a server has workers at most.
const MAX_PARTS: usize = 256;

/// A gate in memory, whose parts give links in memory.
///
/// A gate's calls of `open` and `split` fail at given numbers, a part's calls of `take` at its own.
/// Only the gate that `new` makes can be opened; at a part `open` fails.
#[derive(Drop)]
pub struct MemoryGate {
    alloc: Global,
    /// How often `open` was called.
    openings: u64,
    opening: Option<Opening>,
    is_part: bool,
    parts: Vec<Option<PartLinks>>,
    own: PartLinks,
    scripts: Vec<MemoryPart>,
    failing: Vec<u64>,
    calls: u64,
    faults: u64,
}

impl Model for MemoryGate {
    ghost use Rattle.std.specs.Prelude.{◌≡◌, ◌+◌, ◌≤◌, true, false, None, map, option_map, take};
    ghost use Rattle.std.specs.Prelude.{vec_len, vec_capacity};
    ghost use Rattle.vod_base.specs.MemoryGates.{GateState, part_of, script_of};

    ghost Value = { GateState };

    ghost view = { λ g.
        record {
          content = record {
            openings = g.openings;
            opening = g.opening;
            parts = map (option_map part_of) g.parts.items;
            own = part_of g.own;
          };
          scripts = map script_of g.scripts.items;
          waiting = take g.own.waiting g.own.links.items;
          is_part = g.is_part;
          failing = g.failing.items;
          calls = g.calls;
          faults = g.faults;
        } };

    ghost invariant = { λ g. (g.is_part ≡ false → 256 ≤ vec_capacity g.parts)
        × (g.is_part ≡ true → g.opening ≡ None) × (g.own.waiting ≤ vec_len g.own.links)
        × (vec_len g.own.links ≤ g.own.waiting + g.own.given)
        × (g.own.waiting + g.own.given ≤ vec_capacity g.own.links) };
}

impl fmt::Debug for MemoryGate {
    fn fmt<W: Write>(&self, f: &mut Formatter<W>) -> fmt::Result {
        f.write_str("MemoryGate { .. }")
    }
}

impl MemoryGate {
    /// Returns a gate that isn't open, from what each of its parts gives, in the order of the
    /// splits. A part past the last of them gives no link. `failing` has the numbers, from 1, of
    /// the calls of `open` and `split` that fail. Room for 256 parts is reserved here.
    ///
    /// # Errors
    ///
    /// [`NoMemory`] where there is none for the 256 parts.
    pub fn new(
        alloc: Global,
        parts: Vec<MemoryPart>,
        failing: Vec<u64>,
    ) -> Result<MemoryGate, NoMemory>
        ensures { IfOk result (λ gate. gate ≡
            record {
              content = record { openings = 0; opening = None; parts = []; own = fresh_part 0 };
              scripts = map script_of parts.items;
              waiting = [];
              is_part = false;
              failing = failing.items;
              calls = 0;
              faults = 0;
            }) }
    {
        // Reserved here, so that a split can't run out of memory: its only faults are the given
        // ones.
        let room = Vec::with_capacity(alloc, MAX_PARTS)?;
        Ok(MemoryGate {
            alloc,
            openings: 0,
            opening: None,
            is_part: false,
            parts: room,
            own: new_part_links(0, Vec::new(alloc)),
            scripts: parts,
            failing,
            calls: 0,
            faults: 0,
        })
    }

    /// Returns a part, which gives what its script has.
    fn part(alloc: Global, number: usize, script: MemoryPart) -> MemoryGate
        ensures { result ≡ record {
          content = record { openings = 0; opening = None; parts = []; own = fresh_part number };
          scripts = [];
          waiting = script.links.items;
          is_part = true;
          failing = script.failing.items;
          calls = 0;
          faults = 0;
        } }
    {
        MemoryGate {
            alloc,
            openings: 0,
            opening: None,
            is_part: true,
            parts: Vec::new(alloc),
            own: new_part_links(number, script.links),
            scripts: Vec::new(alloc),
            failing: script.failing,
            calls: 0,
            faults: 0,
        }
    }

    /// Returns the links that the part of that number, from 0, got back, in order; none while the
    /// part is split off.
    pub fn given_back(&self, part: usize) -> &[MemoryLink]
        ensures { map returned_conn_of result.now ≡ back_of self.now.content part }
    {
        match self.parts.get(part) {
            Some(Some(share)) => &share.links[share.waiting..],
            _ => &[],
        }
    }

    /// Counts a call, and returns whether it fails.
    fn call(&mut self) -> bool
        ensures fails { result ≡ call_fails self.old.failing self.old.calls }
        ensures called { self.new ≡
            (if result then gate_failed self.old else gate_called self.old) }
    {
        let failed = counted_call(&mut self.calls, &self.failing);
        if failed {
            self.faults = self.faults.saturating_add(1);
        }
        failed
    }
}

impl Gate for MemoryGate {
    ghost use Rattle.std.specs.Prelude.{Some};

    type Conn = MemoryLink;

    ghost faults = { λ g. g.faults };

    ghost told = { λ g. Some g.content };

    fn open(&mut self, how: &Opening) -> Result<(), GateFault>
        ensures fails { is_err result ≡
            (self.old.is_part || call_fails self.old.failing self.old.calls) }
        ensures open { OnOk result (self.new ≡
            record (gate_called self.old) {
              content = after_open (Some how.now) self.old.content;
            }) }
        ensures lost { OnErr result (self.new ≡
            record (gate_failed self.old) { content = after_open None self.old.content }) }
    {
        // Counted, and the earlier parts forgotten, before it may fail: `Gate::open` asks for both
        // even then.
        self.openings = self.openings.saturating_add(1);
        self.opening = None;
        self.parts.clear();
        if self.is_part {
            // A part isn't opened again. The call counts as a fault, since an error without one
            // isn't allowed.
            self.calls = self.calls.saturating_add(1);
            self.faults = self.faults.saturating_add(1);
            return Err(GateFault);
        }
        if self.call() {
            return Err(GateFault);
        }
        self.opening = Some(*how);
        Ok(())
    }

    fn split(&mut self) -> Result<MemoryGate, GateFault>
        requires may { MaySplit self.old.content }
        // answers: an error exactly in a call that is to fail
        ensures fails { is_err result ≡ call_fails self.old.failing self.old.calls }
        // leaves: one part more, with the next script; after an error, the call and its fault
        ensures split { OnOk result (self.new ≡
            record (gate_called self.old) {
              content = split_off self.old.content;
              scripts = drop 1 self.old.scripts;
            }) }
        ensures part { IfOk result (λ part. part ≡ part_split_off self.old) }
        ensures lost { OnErr result (self.new ≡ gate_failed self.old) }
    {
        if self.call() {
            return Err(GateFault);
        }
        let number = self.parts.len();
        // An empty place: what the part gets back stands here after `rejoin`.
        self.parts.push_reserved(None);
        let script = next_script(self.alloc, &mut self.scripts);
        Ok(MemoryGate::part(self.alloc, number, script))
    }

    #[tactic(auto, using(crate::proofs::PartLinkLemmas::back_stays))]
    fn take(&mut self) -> Result<Option<MemoryLink>, GateFault>
        // answers: an error exactly in a call that is to fail
        ensures fails { is_err result ≡ call_fails self.old.failing self.old.calls }
        // answers: the first link that waits, begun anew
        ensures gave { IfOk result (λ taken.
            IfSome taken (λ link. self.new ≡
            record (gate_called self.old) {
              content = after_take self.old.content;
              waiting = drop 1 self.old.waiting;
            })) }
        ensures first { IfOk result (λ taken.
            taken ≡ option_map link_begun (slice_get self.old.waiting 0)) }
        // leaves: where none is given, why: there are no more, or it failed
        ensures none { IfOk result (λ taken. taken ≡ None →
            self.new ≡ record
            (gate_called self.old) { content = after_empty_take NoMore self.old.content }) }
        ensures lost { OnErr result (self.new ≡
            record (gate_failed self.old) { content = after_empty_take Failed self.old.content }) }
    {
        if self.call() {
            self.own.last = TakeResult::Fault;
            return Err(GateFault);
        }
        if self.own.waiting == 0 {
            self.own.last = TakeResult::NoLink;
            return Ok(None);
        }
        self.own.waiting -= 1;
        // The links that wait are before those that came back, so the first one is the next.
        let mut link = self.own.links.remove(0);
        // `Gate::take` promises a connection that did nothing yet.
        link.begin();
        self.own.given += 1;
        self.own.last = TakeResult::Link;
        Ok(Some(link))
    }

    fn give_back(&mut self, conn: MemoryLink)
        requires out { HasConnOut self.old.content }
        ensures { self.new ≡
            record self.old { content = after_return (returned_conn_of conn) self.old.content } }
    {
        // The link left its room in the list when it was given, so nothing is allocated.
        self.own.links.push_reserved(conn);
    }

    fn rejoin(&mut self, part: MemoryGate)
        requires out { IsPartOut part.content.own.number self.old.content }
        ensures { self.new ≡
            record self.old {
              faults = if nat_lt 0 part.faults
                  then one_more self.old.faults else self.old.faults;
              content = after_rejoin part.content.own self.old.content;
            } }
    {
        let MemoryGate { own, faults, .. } = part;
        // A worker's faults are seen at its own part. The gate must show them, too, once the part
        // is gone.
        self.faults = count_with(self.faults, faults);
        let number = own.number;
        self.parts[number] = Some(own);
    }
}

/// Returns what the next part gives: the first script that is left, or no link.
fn next_script(alloc: Global, scripts: &mut Vec<MemoryPart>) -> MemoryPart
    ensures first { script_of result ≡ first_script (map script_of scripts.old.items) }
    ensures rest { map script_of scripts.new.items ≡ drop 1 (map script_of scripts.old.items) }
{
    if scripts.is_empty() {
        MemoryPart {
            links: Vec::new(alloc),
            failing: Vec::new(alloc),
        }
    } else {
        scripts.remove(0)
    }
}

/// Returns a part's links, of which none was given yet.
fn new_part_links(number: usize, links: Vec<MemoryLink>) -> PartLinks
    ensures part { part_of result ≡ fresh_part number }
    ensures links { result.links ≡ links }
    ensures waiting { result.waiting ≡ vec_len links }
    ensures given { result.given ≡ 0 }
{
    PartLinks {
        number,
        waiting: links.len(),
        links,
        given: 0,
        last: TakeResult::Nothing,
    }
}

/// Returns a count of faults, raised if a part's count had risen.
fn count_with(count: u64, part: u64) -> u64
    ensures { result ≡ (if nat_lt 0 part then one_more count else count) }
{
    if part > 0 {
        // Once, however many faults the part had: `Gate::rejoin` asks for a rise and for no sum.
        count.saturating_add(1)
    } else {
        count
    }
}

//! The capacity of a link, as an argument gives it.

ghost use Rattle.std.specs.Prelude.{◌≡◌, ◌≤◌, [], true, false, IfOk, IfSome};
ghost use Rattle.slot_calendar.specs.Profiles.{IsProfile};
ghost use Rattle.cli_args.specs.Settings.{texts, values_of};
ghost use Rattle.cli_args.specs.Capacities.{IsStepPrefix, capacity_of, flat_steps, may_follow};
ghost use Rattle.cli_args.specs.Capacities.{one_capacity, is_later_step, step_of, steps_of};
ghost use Rattle.cli_args.specs.Capacities.{add_step};

use crate::capacity_steps::Steps;
use crate::settings::{Given, find_given};
use slot_calendar::{CapStep, MAX_CAPACITY, MAX_STEPS, Profile};
use std::alloc::Global;
use vod_base::{LATEST_SLOT, NoMemory, number_within, read_number};

/// The capacity of each slot in bytes, where no argument gives one: 10 Mbit/s in slots of 40 ms.
pub(crate) const DEFAULT_CAPACITY: u64 = 50_000;

/// Reads the steps of the capacity that the arguments give.
pub(crate) fn one_capacity(words: &[String], key: &str) -> Option<Steps>
    ensures steps { result ≡ one_capacity (values_of key.now (texts words.now)) }
    ensures profile { IfSome result IsProfile }
{
    match find_given(words, key) {
        Given::Absent => Some(flat_steps(DEFAULT_CAPACITY)),
        Given::Once(text) => read_capacity(text),
        Given::Again => None,
    }
}

/// Makes the capacity of these steps, each from its slot on, in bytes a slot.
///
/// # Errors
///
/// [`NoMemory`] alone.
pub fn profile_of(alloc: Global, steps: &[CapStep]) -> Result<Profile, NoMemory>
    requires { IsProfile steps.now }
    ensures { IfOk result (λ profile. profile ≡ steps.now) }
{
    Ok(Profile::new(Vec::from_slice(alloc, steps)?))
}

/// The step that a text SLOT:BYTES writes.
fn read_step(text: &str) -> Option<CapStep>
    ensures { result ≡ step_of text.now }
{
    let (slot, bytes) = text.split_once(':')?;
    let from = read_number(slot.as_bytes()).ok()?;
    let bytes = read_number(bytes.as_bytes()).ok()?;
    Some(CapStep { from, bytes })
}

/// Whether a step at the slot may follow these.
fn is_later_step(steps: &[CapStep], slot: u64) -> bool
    ensures { result ≡ is_later_step steps.now slot }
{
    match steps.last() {
        Some(last) => last.from < slot,
        // From slot 0 on, so that each slot has a capacity.
        None => slot == 0,
    }
}

/// Whether the step may follow these.
fn may_follow(steps: &[CapStep], step: CapStep) -> bool
    ensures { result ≡ may_follow steps.now step }
{
    steps.len() < MAX_STEPS
        && is_later_step(steps, step.from)
        && step.from <= LATEST_SLOT
        && step.bytes <= MAX_CAPACITY
}

/// Appends the step that a part writes to these, and returns whether it may follow them.
fn push_step_text(steps: &mut Steps, part: &str) -> bool
    requires { IsStepPrefix steps.old }
    ensures put { result ≡ true → add_step steps.old (step_of part.now) ≡ Some steps.new }
    ensures refused { result ≡ false → add_step steps.old (step_of part.now) ≡ None }
    ensures front { IsStepPrefix steps.new }
{
    let Some(step) = read_step(part) else {
        return false;
    };
    if !may_follow(steps.as_slice(), step) {
        return false;
    }
    steps.push(step);
    true
}

/// The steps that a text writes, joined by commas.
fn read_steps(text: &str) -> Option<Steps>
    ensures steps { result ≡ steps_of text.now }
    ensures profile { IfSome result IsProfile }
{
    let mut steps = Steps::new();
    let mut rest = text;
    while let Some((part, after)) = rest.split_once(',') {
        if !push_step_text(&mut steps, part) {
            return None;
        }
        rest = after;
    }
    if push_step_text(&mut steps, rest) {
        Some(steps)
    } else {
        None
    }
}

/// The steps of one capacity in all slots.
fn flat_steps(bytes: u64) -> Steps
    requires { bytes ≤ MAX_CAPACITY }
    ensures steps { result ≡ flat_steps bytes }
    ensures profile { IsProfile result }
{
    let mut steps = Steps::new();
    steps.push(CapStep { from: 0, bytes });
    steps
}

/// The steps of a capacity's text.
fn read_capacity(text: &str) -> Option<Steps>
    ensures steps { result ≡ capacity_of text.now }
    ensures profile { IfSome result IsProfile }
{
    // A colon tells the forms apart: BYTES for all slots, or SLOT:BYTES joined by commas.
    if text.split_once(':').is_some() {
        return read_steps(text);
    }
    let bytes = number_within(text.as_bytes(), 1, MAX_CAPACITY)?;
    Some(flat_steps(bytes))
}

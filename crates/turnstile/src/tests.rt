//! Threads that take the lock of a list of entries, and what each of them has seen of it.

ghost use Rattle.std.specs.Prelude.{◌≡◌, ◌++◌, [], ◌∷◌, false};
ghost use Rattle.turnstile.specs.Passes.{first_pass};
ghost use Rattle.admission.specs.declared.entries.Answer.{Answer};
ghost use Rattle.admission.specs.declared.entries.Command.{Command};

use super::*;
use admission::{Answer, Command, Entry};
use std::alloc::Global;
use std::marker::Model;
use std::process::Abort;
use std::sync::Wait;
use std::test::Fail;
use std::thread::{Threads, join};

/// A list of entries, each a look.
#[derive(Drop)]
struct Log {
    entries: Vec<Entry>,
}

impl Model for Log {
    ghost use Rattle.std.specs.Prelude.{List};
    ghost use Rattle.admission.specs.declared.entries.Entry.{Entry};

    ghost Value = { List Entry };

    ghost view = { λ l. l.entries.items };
}

impl Kept for Log {
    ghost entries = { λ l. l };

    ghost terms = { λ _. record { steps = []; limit = 0 } };

    fn count(&self) -> u64 {
        self.entries.len() as u64
    }
}

impl Log {
    /// Appends a look by this maker.
    fn add<R: Abort>(&mut self, rt: &R, maker: u32)
        ensures { self.new ≡ self.old ++ record {
          maker = maker;
          command = Command.Look 0;
          answer = Answer.Halted;
        } ∷ [] }
    {
        let entry = Entry {
            maker,
            command: Command::Look { slot: 0 },
            answer: Answer::Halted,
        };
        self.entries.push(entry).expect(rt, "memory");
    }
}

/// Takes the lock once and adds an entry.
fn take_turn<R: Wait + Abort>(rt: &R, turnstile: &Turnstile<Log>, pass: &mut Pass)
    requires own { pass.old.id ≡ turnstile.now.id }
    requires free { pass.old.has_turn ≡ false }
    ensures { pass.new ≡ record pass.old { seen = pass.new.seen; mine = pass.new.mine } }
{
    let mut turn = turnstile.enter(rt, pass);
    let maker = pass.number();
    turn.value().add(rt, maker);
    turnstile.leave(pass, turn);
}

/// Takes the lock once, adds nothing, and returns how the guard is printed.
fn turn_text<R: Wait + Abort>(
    rt: &R,
    alloc: Global,
    turnstile: &Turnstile<Log>,
    pass: &mut Pass,
) -> String
    requires own { pass.old.id ≡ turnstile.now.id }
    requires free { pass.old.has_turn ≡ false }
    ensures { pass.new ≡ record pass.old { seen = pass.new.seen; mine = pass.new.mine } }
{
    let turn = turnstile.enter(rt, pass);
    let text = format!(in alloc; "{turn:?}").expect(rt, "memory");
    turnstile.leave(pass, turn);
    text
}

/// Takes the lock 50 times.
fn take_turns<R: Wait + Abort>(rt: &R, turnstile: &Turnstile<Log>, mut pass: Pass) -> Pass
    requires own { pass.id ≡ turnstile.now.id }
    requires free { pass.has_turn ≡ false }
    ensures { result ≡ record pass { seen = result.seen; mine = result.mine } }
{
    for _ in 0..50 {
        take_turn(rt, turnstile, &mut pass);
    }
    pass
}

/// How many entries of a maker a list has.
fn count_of(log: &Log, maker: u32) -> usize {
    log.entries
        .iter()
        .filter(|entry| entry.maker == maker)
        .count()
}

/// Two passes side by side take the lock 50 times each, after the first pass took it once.
fn run_two_passes<R: Threads + Wait + Abort + Sync>(
    rt: &R,
    alloc: Global,
    turnstile: Turnstile<Log>,
    mut first: Pass,
)
    requires { first ≡ first_pass turnstile }
{
    take_turn(rt, &turnstile, &mut first);
    let text = turn_text(rt, alloc, &turnstile, &mut first);
    assert_eq!(rt; text.as_str(), "Turn { .. }");
    let one = turnstile.split(&mut first);
    let two = turnstile.split(&mut first);
    assert_eq!(rt; (first.number(), one.number(), two.number()), (0, 1, 2));
    let shared = &turnstile;
    let (one, two) = join(
        rt,
        || -> Pass
            requires own { one.id ≡ shared.now.id }
            requires free { one.has_turn ≡ false }
            ensures { result ≡ record one { seen = result.seen; mine = result.mine } }
        { take_turns(rt, shared, one) },
        || -> Pass
            requires own { two.id ≡ shared.now.id }
            requires free { two.has_turn ≡ false }
            ensures { result ≡ record two { seen = result.seen; mine = result.mine } }
        { take_turns(rt, shared, two) },
    );
    turnstile.join(&mut first, two);
    turnstile.join(&mut first, one);
    let log = turnstile.close(first);
    assert_eq!(rt;
        (count_of(&log, 0), count_of(&log, 1), count_of(&log, 2)),
        (1, 50, 50)
    );
    assert_eq!(rt;
        (log.count(), log.entries.first().map(|entry| entry.maker)),
        (101, Some(0))
    );
}

#[test]
fn threads_take_turns(rt: HostRuntime) -> Result<(), Fail> {
    let alloc = rt.alloc();
    let log = Log {
        entries: Vec::new(alloc),
    };
    let (turnstile, first) = Turnstile::new(alloc, log)?;
    let text = format!(in alloc; "{turnstile:?} {first:?}")?;
    assert_eq!(rt; text.as_str(), "Turnstile { .. } Pass { number: 0, .. }");
    run_two_passes(&rt, alloc, turnstile, first);
    Ok(())
}

//! What all clients of a day do: they come to a slot, and plays are halted.

ghost use Rattle.std.specs.Prelude.{◌≡◌, ◌≤◌, ◌++◌, ℕ, List, length, map, IfOk};
ghost use Rattle.admission.specs.declared.entries.Entry.{Entry};
ghost use Rattle.day_run.specs.Clients.{AreBooked, AreGoing, AreIdle, AreSteps, AreTimed};
ghost use Rattle.day_run.specs.Clients.{AreOnBook, AreUndone, IsSameBook};
ghost use Rattle.day_run.specs.Clients.{halt_for, state_for, state_of};
ghost use Rattle.day_run.specs.Days.{halt_entries};

use crate::clients::{Client, HaltedPlays};
use admission::Book;
use day_script::CLIENTS;
use std::alloc::Global;
use vod_base::NoMemory;

/// Clients that play nothing.
pub(crate) fn idle_clients<'r>(alloc: Global) -> Result<Vec<Client<'r>>, NoMemory>
    ensures count { IfOk result (λ clients. length clients.items ≡ 256) }
    ensures idle { IfOk result (λ clients. AreIdle clients.items) }
{
    let mut clients = Vec::with_capacity(alloc, CLIENTS)?;
    for client in 0..CLIENTS {
        clients.push(Client::Idle)?;
    }
    Ok(clients)
}

/// Comes to a slot with each client, and returns how many bytes were sent.
pub(crate) fn step_clients(clients: &mut [Client<'_>], slot: u64) -> u64
    requires few { length clients.old ≤ 256 }
    requires going { AreGoing clients.old }
    ensures going { AreGoing clients.new }
    ensures booked { (entries : List Entry) → AreBooked entries clients.old →
        AreBooked entries clients.new }
    ensures steps { (heard : ℕ) → heard ≤ slot → AreTimed heard clients.old →
        AreSteps heard slot clients.old clients.new result }
{
    let mut sent = 0;
    for client in clients.iter_mut() {
        // Can't overflow: at most 256 clients, and at most `MAX_BYTES` for each.
        sent += client.step(slot);
    }
    sent
}

/// Halts the plays that are done, or all that are open.
pub(crate) fn halt_plays(book: &mut Book, clients: &mut [Client<'_>], which: HaltedPlays)
    // needs: clients whose open plays are those of the book
    requires few { length clients.old ≤ 256 }
    requires sound { AreOnBook book.old.entries clients.old }
    // leaves: clients and book that still agree; no play that is done
    ensures sound { AreOnBook book.new.entries clients.new }
    ensures kept { IsSameBook book.old book.new }
    ensures undone { AreUndone (length clients.new) clients.new }
    // answers: a halt in the journal for each play that was halted, in the order of the clients
    ensures timed { (slot : ℕ) → AreTimed slot clients.old → AreTimed slot clients.new }
    ensures entries { (slot : ℕ) → AreTimed slot clients.old → book.new.entries
        ≡ book.old.entries ++ halt_entries (halt_for which slot) 0 (map state_of clients.old) }
    ensures states { (slot : ℕ) → AreTimed slot clients.old →
        map state_of clients.new ≡ map (state_for which slot) (map state_of clients.old) }
{
    for (maker, client) in clients.iter_mut().enumerate() {
        if let Some(halt) = client.halt_of(which) {
            *client = Client::Idle;
            // Can't fail: the journal keeps a place for the halt of each open play.
            let _noted = book.halt(maker as u32, halt.number, halt.keep);
        }
    }
}

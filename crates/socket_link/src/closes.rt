//! The end of a connection: what waits is written out, and what the peer still sends is read on.

ghost use Rattle.std.specs.Prelude.{◌≡◌, ◌≤◌, ◌++◌, ◌∷◌, ◌⊎◌, [], IsTrue, length, OnOk, OnErr};
ghost use Rattle.vod_base.specs.MemoryLinks.{sent_of};
ghost use Rattle.socket_link.specs.Calls.{ShutDown};
ghost use Rattle.socket_link.specs.Histories.{IsCause};
ghost use Rattle.socket_link.specs.LinkCalls.{CallsSocket, LeavesHistory, MakesCall};
ghost use Rattle.socket_link.specs.Steps.{HasServed, HasLasted, HasFoundEnd, HasClosed};

use crate::limits::{LINGER, RETRY, STUCK_LIMIT};
use crate::links::SocketLink;
use crate::sockets::{Purpose, Socket};
use vod_base::{Heard, LinkFault};

impl<S: Socket> SocketLink<S> {
    /// Writes all waiting bytes, for as long as a peer has for them: 60 s.
    fn write_everything(&mut self) -> Result<(), LinkFault>
        ensures calls { CallsSocket result self.old self.new }
        ensures history { LeavesHistory self.old self.new }
        ensures written { OnOk result (IsTrue S.tells → (length self.new.buffer ≡ 0)
            ⊎ HasLasted STUCK_LIMIT (S.did self.old.socket) (S.did self.new.socket)) }
    {
        // A reading from before the writes, so that the time they take counts.
        self.check(Purpose::End)?;
        let begun = self.watch.latest;
        for _ in 0..u64::MAX {
            self.write_out()?;
            self.check(Purpose::End)?;
            let waited = self.watch.latest.saturating_sub(begun);
            if self.buffer.waiting_bytes().is_empty() {
                return Ok(());
            }
            // The bytes that are left are given up: a peer can't hold the worker for longer.
            if waited >= STUCK_LIMIT {
                return Ok(());
            }
            // No longer than between two other writes: a peer that makes a little room doesn't wake
            // the link, and a single long wait would hold the worker for it.
            self.wait(RETRY.min(STUCK_LIMIT - waited))?;
        }
        Err(LinkFault)
    }

    /// Shuts the sending half down.
    fn shut_down(&mut self) -> Result<(), LinkFault>
        ensures calls { CallsSocket result self.old self.new }
        ensures history { LeavesHistory self.old self.new }
        ensures longer { OnOk result (MakesCall self.old self.new) }
        ensures shut { OnOk result (IsTrue S.tells →
            S.did self.new.socket ≡ S.did self.old.socket ++ ShutDown ∷ []) }
    {
        match self.socket.shut_down() {
            Ok(()) => {
                // what came meanwhile is read
                self.readable = true;
                Ok(())
            }
            Err(_) => Err(LinkFault),
        }
    }

    /// Reads and drops what the peer still sends, until it ends, for 1 s at most.
    fn linger(&mut self) -> Result<(), LinkFault>
        ensures calls { CallsSocket result self.old self.new }
        ensures ended { OnOk result (IsTrue S.tells → HasFoundEnd (S.did self.new.socket)
            ⊎ HasLasted LINGER (S.did self.old.socket) (S.did self.new.socket)) }
    {
        self.check(Purpose::End)?;
        let begun = self.watch.latest;
        // Nobody reads these bytes. But a socket that is closed with unread bytes sends a reset
        // (RFC 1122 section 4.2.2.13), and the peer would lose the last reply.
        let mut dropped = [0; 1024];
        for _ in 0..u64::MAX {
            self.check(Purpose::End)?;
            let waited = self.watch.latest.saturating_sub(begun);
            if waited >= LINGER {
                return Ok(());
            }
            if let Some(Heard::End) = self.read_or_wait(&mut dropped, LINGER - waited)? {
                return Ok(());
            }
        }
        Err(LinkFault)
    }

    /// Closes the connection: what waits is written out, for 60 s at most; the sending half is shut
    /// down; and what the peer still sends is read and dropped until it ends, for 1 s at most. A
    /// socket that is closed with bytes unread is reset, and a last reply that is on its way is
    /// lost.
    ///
    /// # Errors
    ///
    /// [`LinkFault`] where a call of the socket failed, or a reading of the clock shows that a
    /// limit is reached.
    pub fn close(&mut self) -> Result<(), LinkFault>
        ensures count { S.faults self.old.socket ≤ S.faults self.new.socket }
        ensures served { OnOk result (IsTrue S.tells →
            HasServed self.old.slot_units (S.did self.old.socket) (S.did self.new.socket)) }
        ensures closed { OnOk result (IsTrue S.tells → HasClosed
            (sent_of self.old.history.doings) (S.did self.old.socket) (S.did self.new.socket)) }
        ensures cause { OnErr result (IsTrue S.tells → IsCause
            (S.faults self.old.socket) (S.faults self.new.socket) (S.did self.new.socket)) }
    {
        // The end of the stream stands after the last reply, so all is written first.
        self.write_everything()?;
        self.shut_down()?;
        self.linger()
    }
}

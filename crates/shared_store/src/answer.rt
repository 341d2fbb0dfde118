//! A command is executed and its replies are written: one, or the rows of a dump and its end.

ghost use Rattle.std.specs.Prelude.{◌≡◌, ◌≢◌, ◌≤◌, None, IsTrue, true, false, length};
ghost use Rattle.sd_base.specs.Disk.{DiskState, Rose};
ghost use Rattle.script_text.specs.Command.{InRange};
ghost use Rattle.record_machine.specs.Rows.{dumped_by};
ghost use Rattle.shared_store.specs.Answering.{Sends, SendsPart, end_of_dump};
ghost use Rattle.shared_store.specs.Devices.{GoesOn, both};
ghost use Rattle.shared_store.specs.Store.{CanServe, IsQuietStore, KeepsPorts, Shows};
ghost use Rattle.shared_store.specs.StoreState.{StoreState};

use crate::output::say;
use crate::store::Store;
use script_text::{Command, Reply};
use sd_base::{Arm, NodeId, Sink};
use std::alloc::Global;

/// The last reply to a dump with so many rows, where this one was given to the question for a further
/// row.
fn end_of_dump(reply: Reply, count: u64) -> Reply
    ensures { result ≡ end_of_dump reply count }
{
    match reply {
        Reply::NoMore => Reply::EndDump(count),
        why => why,
    }
}

impl Store {
    /// Answers a command. False where the sink failed; then it has taken a part of the replies.
    pub(crate) fn answer<K: Sink, D: Arm, V: Arm>(
        &mut self,
        alloc: Global,
        sink: &mut K,
        disk: &mut D,
        vault: &mut V,
        command: &Command,
    ) -> bool
        requires range { InRange command.now }
        requires ready { CanServe self.old (D.state disk.old) (V.state vault.old) }
        requires quiet { IsTrue D.told → IsQuietStore self.old (D.state disk.old).block }
        ensures ready { CanServe self.new (D.state disk.new) (V.state vault.new) }
        ensures quiet { IsTrue D.told → IsQuietStore self.new (D.state disk.new).block }
        ensures disk { GoesOn (D.state disk.old) (D.state disk.new) }
        ensures vault { GoesOn (V.state vault.old) (V.state vault.new) }
        ensures ports { (first : DiskState) → KeepsPorts self.old first (D.state disk.old) → KeepsPorts self.new first (D.state disk.new) }
        ensures vault_ports { (first : DiskState) → KeepsPorts self.old first (V.state vault.old) → KeepsPorts self.new first (V.state vault.new) }
        ensures faults { (K.state sink.old).faults ≤ (K.state sink.new).faults }
        ensures cause { result ≡ false → Rose (K.state sink.old).faults (K.state sink.new).faults }
        ensures flushed { result ≡ true → IsTrue K.told → (K.state sink.new).flushed ≡ length (K.state sink.new).taken }
        ensures sends { result ≡ true → IsTrue K.told → IsTrue D.told → Sends command.now self.old self.new (both (D.state disk.old) (V.state vault.old)) (both (D.state disk.new) (V.state vault.new)) (K.state sink.old).taken (K.state sink.new).taken }
        ensures part { result ≡ false → IsTrue K.told → IsTrue D.told → (state : StoreState) → Shows self.old (D.state disk.old) state
            → SendsPart state command.now self.new (both (D.state disk.old) (V.state vault.old)) (both (D.state disk.new) (V.state vault.new)) (K.state sink.old).taken (K.state sink.new).taken }
    {
        match *command {
            Command::Dump(n) => self.dump(sink, disk, vault, n),
            _ => self.answer_once(alloc, sink, disk, vault, command),
        }
    }

    /// Answers a command that gets one reply.
    fn answer_once<K: Sink, D: Arm, V: Arm>(
        &mut self,
        alloc: Global,
        sink: &mut K,
        disk: &mut D,
        vault: &mut V,
        command: &Command,
    ) -> bool
        requires range { InRange command.now }
        requires one { dumped_by command.now ≡ None }
        requires ready { CanServe self.old (D.state disk.old) (V.state vault.old) }
        requires quiet { IsTrue D.told → IsQuietStore self.old (D.state disk.old).block }
        ensures ready { CanServe self.new (D.state disk.new) (V.state vault.new) }
        ensures quiet { IsTrue D.told → IsQuietStore self.new (D.state disk.new).block }
        ensures disk { GoesOn (D.state disk.old) (D.state disk.new) }
        ensures vault { GoesOn (V.state vault.old) (V.state vault.new) }
        ensures ports { (first : DiskState) → KeepsPorts self.old first (D.state disk.old) → KeepsPorts self.new first (D.state disk.new) }
        ensures vault_ports { (first : DiskState) → KeepsPorts self.old first (V.state vault.old) → KeepsPorts self.new first (V.state vault.new) }
        ensures faults { (K.state sink.old).faults ≤ (K.state sink.new).faults }
        ensures cause { result ≡ false → Rose (K.state sink.old).faults (K.state sink.new).faults }
        ensures flushed { result ≡ true → IsTrue K.told → (K.state sink.new).flushed ≡ length (K.state sink.new).taken }
        ensures sends { result ≡ true → IsTrue K.told → IsTrue D.told → Sends command.now self.old self.new (both (D.state disk.old) (V.state vault.old)) (both (D.state disk.new) (V.state vault.new)) (K.state sink.old).taken (K.state sink.new).taken }
        ensures part { result ≡ false → IsTrue K.told → IsTrue D.told → (state : StoreState) → Shows self.old (D.state disk.old) state
            → SendsPart state command.now self.new (both (D.state disk.old) (V.state vault.old)) (both (D.state disk.new) (V.state vault.new)) (K.state sink.old).taken (K.state sink.new).taken }
    {
        let reply = self.exec(alloc, disk, vault, command);
        say(sink, &reply)
    }

    /// Answers a dump. Each row is written and flushed before the next record is asked for.
    fn dump<K: Sink, D: Arm, V: Arm>(
        &mut self,
        sink: &mut K,
        disk: &mut D,
        vault: &mut V,
        n: NodeId,
    ) -> bool
        requires range { InRange (Command.Dump n) }
        requires ready { CanServe self.old (D.state disk.old) (V.state vault.old) }
        requires quiet { IsTrue D.told → IsQuietStore self.old (D.state disk.old).block }
        ensures ready { CanServe self.new (D.state disk.new) (V.state vault.new) }
        ensures quiet { IsTrue D.told → IsQuietStore self.new (D.state disk.new).block }
        ensures disk { GoesOn (D.state disk.old) (D.state disk.new) }
        ensures vault { GoesOn (V.state vault.old) (V.state vault.new) }
        ensures ports { (first : DiskState) → KeepsPorts self.old first (D.state disk.old) → KeepsPorts self.new first (D.state disk.new) }
        ensures vault_ports { (first : DiskState) → KeepsPorts self.old first (V.state vault.old) → KeepsPorts self.new first (V.state vault.new) }
        ensures faults { (K.state sink.old).faults ≤ (K.state sink.new).faults }
        ensures cause { result ≡ false → Rose (K.state sink.old).faults (K.state sink.new).faults }
        ensures flushed { result ≡ true → IsTrue K.told → (K.state sink.new).flushed ≡ length (K.state sink.new).taken }
        ensures sends { result ≡ true → IsTrue K.told → IsTrue D.told → Sends (Command.Dump n) self.old self.new (both (D.state disk.old) (V.state vault.old)) (both (D.state disk.new) (V.state vault.new)) (K.state sink.old).taken (K.state sink.new).taken }
        ensures part { result ≡ false → IsTrue K.told → IsTrue D.told → (state : StoreState) → Shows self.old (D.state disk.old) state
            → SendsPart state (Command.Dump n) self.new (both (D.state disk.old) (V.state vault.old)) (both (D.state disk.new) (V.state vault.new)) (K.state sink.old).taken (K.state sink.new).taken }
    {
        let mut reply = self.next_record(disk, vault, n, None);
        let mut count: u64 = 0;
        while let Reply::Row(key, _) = reply {
            if !say(sink, &reply) {
                return false;
            }
            count += 1;
            reply = self.next_record(disk, vault, n, Some(key));
        }
        say(sink, &end_of_dump(reply, count))
    }
}

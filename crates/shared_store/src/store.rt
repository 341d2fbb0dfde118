//! The store of a session: none is open at first, and `format` opens one.

ghost use Rattle.std.specs.Prelude.{◌≡◌, ◌≢◌, None, IsTrue};
ghost use Rattle.sd_base.specs.Disk.{DiskState};
ghost use Rattle.sd_base.specs.Shape.{IsShape};
ghost use Rattle.script_text.specs.Command.{InRange};
ghost use Rattle.record_machine.specs.Rows.{dumped_by, next_key};
ghost use Rattle.shared_store.specs.Answering.{IsRowFrom, NextAnswered};
ghost use Rattle.shared_store.specs.Causes.{HasCause};
ghost use Rattle.shared_store.specs.Devices.{GoesOn, OpensNoPort, both};
ghost use Rattle.shared_store.specs.Store.{CanServe, IsAnsweredAlone, IsQuietStore, KeepsPorts, Leaves, Shows, ShowsSeal};
ghost use Rattle.shared_store.specs.StoreState.{AnsweredOnce, Seal, StoreState, shut};

use cluster_core::Cluster;
use script_text::{Command, Reply};
use sd_base::{Arm, Key, NodeId, Shape};
use std::alloc::Global;
use std::mem;

/// The store of a session.
///
/// An open one can be neither copied nor let go: `close` ends it.
pub(crate) enum Store {
    /// No store is open.
    Closed,
    /// A store is open.
    Open(Cluster),
}

impl Store {
    /// Executes a command that gets one reply: `next_record` answers a dump. A `format` that is done
    /// opens the store.
    pub(crate) fn exec<D: Arm, V: Arm>(
        &mut self,
        alloc: Global,
        disk: &mut D,
        vault: &mut V,
        command: &Command,
    ) -> Reply
        requires range { InRange command.now }
        requires one { dumped_by command.now ≡ None }
        requires ready { CanServe self.old (D.state disk.old) (V.state vault.old) }
        requires quiet { IsTrue D.told → IsQuietStore self.old (D.state disk.old).block }
        ensures ready { CanServe self.new (D.state disk.new) (V.state vault.new) }
        ensures quiet { IsTrue D.told → IsQuietStore self.new (D.state disk.new).block }
        ensures disk { GoesOn (D.state disk.old) (D.state disk.new) }
        ensures vault { GoesOn (V.state vault.old) (V.state vault.new) }
        ensures cause { HasCause result (both (D.state disk.old) (V.state vault.old)) (both (D.state disk.new) (V.state vault.new)) }
        ensures untouched { IsAnsweredAlone self.old command.now → (disk.new ≡ disk.old) × (vault.new ≡ vault.old) }
        ensures printed { result ≢ Reply.NoMore }
        ensures ports { (first : DiskState) → KeepsPorts self.old first (D.state disk.old) → KeepsPorts self.new first (D.state disk.new) }
        ensures vault_ports { (first : DiskState) → KeepsPorts self.old first (V.state vault.old) → KeepsPorts self.new first (V.state vault.new) }
        ensures answered { IsTrue D.told → (state : StoreState) → Shows self.old (D.state disk.old) state
            → AnsweredOnce (D.state disk.old).size (V.state vault.old).size state command.now result (Shows self.new (D.state disk.new)) }
    {
        match self {
            Store::Open(cluster) => cluster.exec(disk, vault, command),
            Store::Closed => self.exec_closed(alloc, disk, vault, command),
        }
    }

    /// Answers a dump, one record at a time: the record with the least key behind this one, or the least
    /// of all.
    pub(crate) fn next_record<D: Arm, V: Arm>(
        &mut self,
        disk: &mut D,
        vault: &mut V,
        n: NodeId,
        after: Option<Key>,
    ) -> Reply
        requires range { InRange (Command.Dump n) }
        requires ready { CanServe self.old (D.state disk.old) (V.state vault.old) }
        requires quiet { IsTrue D.told → IsQuietStore self.old (D.state disk.old).block }
        ensures ready { CanServe self.new (D.state disk.new) (V.state vault.new) }
        ensures quiet { IsTrue D.told → IsQuietStore self.new (D.state disk.new).block }
        ensures disk { GoesOn (D.state disk.old) (D.state disk.new) }
        ensures vault { GoesOn (V.state vault.old) (V.state vault.new) }
        ensures cause { HasCause result (both (D.state disk.old) (V.state vault.old)) (both (D.state disk.new) (V.state vault.new)) }
        ensures untouched { IsAnsweredAlone self.old (Command.Dump n) → (disk.new ≡ disk.old) × (vault.new ≡ vault.old) }
        ensures ports { (first : DiskState) → KeepsPorts self.old first (D.state disk.old) → KeepsPorts self.new first (D.state disk.new) }
        ensures vault_ports { (first : DiskState) → KeepsPorts self.old first (V.state vault.old) → KeepsPorts self.new first (V.state vault.new) }
        ensures rising { IsRowFrom (next_key after) result }
        ensures answered { IsTrue D.told → (state : StoreState) → Shows self.old (D.state disk.old) state
            → NextAnswered state n (next_key after) result (Shows self.new (D.state disk.new)) }
    {
        match self {
            Store::Open(cluster) => cluster.next_record(disk, vault, n, after),
            Store::Closed => Reply::Closed,
        }
    }

    /// Executes a command while no store is open.
    fn exec_closed<D: Arm, V: Arm>(
        &mut self,
        alloc: Global,
        disk: &mut D,
        vault: &mut V,
        command: &Command,
    ) -> Reply
        requires range { InRange command.now }
        requires one { dumped_by command.now ≡ None }
        requires closed { self.old ≡ Store.Closed }
        ensures ready { CanServe self.new (D.state disk.new) (V.state vault.new) }
        ensures quiet { IsTrue D.told → IsQuietStore self.new (D.state disk.new).block }
        ensures disk { GoesOn (D.state disk.old) (D.state disk.new) }
        ensures vault { GoesOn (V.state vault.old) (V.state vault.new) }
        ensures cause { HasCause result (both (D.state disk.old) (V.state vault.old)) (both (D.state disk.new) (V.state vault.new)) }
        ensures untouched { IsAnsweredAlone self.old command.now → (disk.new ≡ disk.old) × (vault.new ≡ vault.old) }
        ensures printed { result ≢ Reply.NoMore }
        ensures ports { KeepsPorts self.new (D.state disk.old) (D.state disk.new) }
        ensures vault_ports { KeepsPorts self.new (V.state vault.old) (V.state vault.new) }
        ensures answered { IsTrue D.told → (seal : Seal) → ShowsSeal (D.state disk.old) seal
            → AnsweredOnce (D.state disk.old).size (V.state vault.old).size (shut seal) command.now result (Shows self.new (D.state disk.new)) }
    {
        match *command {
            Command::Format(shape) => self.format(alloc, disk, vault, shape),
            Command::Start(_)
            | Command::Begin(_)
            | Command::Get(..)
            | Command::Put(..)
            | Command::Append(..)
            | Command::Del(..)
            | Command::Commit(_)
            | Command::Abort(_)
            | Command::Flush(_)
            | Command::Stat(_) => Reply::Closed,
            Command::Bad => Reply::Bad,
            Command::Dump(_) => unreachable!(),
        }
    }

    /// Writes an empty store of this shape, and opens it.
    fn format<D: Arm, V: Arm>(
        &mut self,
        alloc: Global,
        disk: &mut D,
        vault: &mut V,
        shape: Shape,
    ) -> Reply
        requires shape { IsShape shape }
        requires closed { self.old ≡ Store.Closed }
        ensures ready { CanServe self.new (D.state disk.new) (V.state vault.new) }
        ensures quiet { IsTrue D.told → IsQuietStore self.new (D.state disk.new).block }
        ensures disk { GoesOn (D.state disk.old) (D.state disk.new) }
        ensures vault { GoesOn (V.state vault.old) (V.state vault.new) }
        ensures cause { HasCause result (both (D.state disk.old) (V.state vault.old)) (both (D.state disk.new) (V.state vault.new)) }
        ensures printed { result ≢ Reply.NoMore }
        ensures ports { KeepsPorts self.new (D.state disk.old) (D.state disk.new) }
        ensures vault_ports { KeepsPorts self.new (V.state vault.old) (V.state vault.new) }
        ensures answered { IsTrue D.told → (seal : Seal) → ShowsSeal (D.state disk.old) seal
            → AnsweredOnce (D.state disk.old).size (V.state vault.old).size (shut seal) (Command.Format shape) result (Shows self.new (D.state disk.new)) }
    {
        match Cluster::format(alloc, disk, vault, shape) {
            Ok(cluster) => {
                self.open(cluster);
                Reply::Fine
            }
            Err(why) => why,
        }
    }

    /// Opens a store where none is open.
    fn open(&mut self, cluster: Cluster)
        requires { self.old ≡ Store.Closed }
        ensures { self.new ≡ Store.Open cluster }
    {
        match mem::replace(self, Store::Open(cluster)) {
            Store::Closed => (),
            Store::Open(_cluster) => unreachable!(),
        }
    }

    /// Ends the store that is open, if one is: all ports of both devices stop.
    pub(crate) fn close<D: Arm, V: Arm>(self, disk: &mut D, vault: &mut V)
        requires ready { CanServe self (D.state disk.old) (V.state vault.old) }
        ensures disk { GoesOn (D.state disk.old) (D.state disk.new) }
        ensures vault { GoesOn (V.state vault.old) (V.state vault.new) }
        ensures ports { (first : DiskState) → KeepsPorts self first (D.state disk.old) → OpensNoPort first (D.state disk.new) }
        ensures vault_ports { (first : DiskState) → KeepsPorts self first (V.state vault.old) → OpensNoPort first (V.state vault.new) }
        ensures leaves { IsTrue D.told → (state : StoreState) → Shows self (D.state disk.old) state → Leaves (D.state disk.new) state }
    {
        match self {
            Store::Open(cluster) => cluster.close(disk, vault),
            Store::Closed => (),
        }
    }
}

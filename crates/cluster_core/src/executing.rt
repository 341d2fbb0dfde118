//! A command is refused or executed here, and what came of it becomes its reply.

ghost use Rattle.std.specs.Prelude.{◌≡◌, true, false, ℕ, List, Some, None, IsTrue};
ghost use Rattle.sd_base.specs.Calls.{Narrows};
ghost use Rattle.script_text.specs.Command.{InRange};
ghost use Rattle.script_text.specs.declared.reply.Reply.{Reply};
ghost use Rattle.script_text.specs.declared.reply.Reply.TheVariants as says;
ghost use Rattle.record_machine.specs.Machine.{Machine};
ghost use Rattle.record_machine.specs.Rows.{dumped_by};
ghost use Rattle.record_machine.specs.Steps.{StepOrStop, worker};
ghost use Rattle.store_nodes.specs.declared.node.Node.TheVariants.{Down};
ghost use Rattle.store_nodes.specs.Endures.{Endures};
ghost use Rattle.store_nodes.specs.Footprint.{KeepsAllButLog, NarrowsToRing};
ghost use Rattle.store_nodes.specs.Known.{known};
ghost use Rattle.store_nodes.specs.Nodes.{OnUp, node_at};
ghost use Rattle.store_nodes.specs.Pages.{KeepsWork, WritesBack};
ghost use Rattle.store_nodes.specs.Ports.{HasCause, IsQuiet, IsReady, IsStopReply, WorksWith, WritesWith, says_stop};
ghost use Rattle.store_nodes.specs.Shows.{IsShown};
ghost use Rattle.store_commands.specs.Aborts.{RefusesHeld};
ghost use Rattle.store_commands.specs.AtHand.{HasBoth, IsAtHand, IsAtHandToDelete, MakesRoomWith};
ghost use Rattle.cluster_core.specs.Answers.{IsAnswer, IsToldIn, LeavesOpen};
ghost use Rattle.cluster_core.specs.Records.{AreAllThere, is_refusal, key_of, page_then, says_done, takes_pages};

use crate::cluster::Cluster;
use crate::replies::{reply_deleted, reply_flushed, reply_found, reply_of};
use script_text::{Command, Reply};
use sd_base::{Arm, Key, NodeId, TxnId};
use store_commands::{abort, delete, get, write_record};
use store_nodes::Store;
use store_pages::flush;
use txn_core::{Change, Ending};

/// Executes a command over a store: it is refused for what is in memory, or done.
fn execute<D: Arm, V: Arm>(
    store: &mut Store,
    disk: &mut D,
    vault: &mut V,
    command: &Command,
) -> Reply
    requires range { InRange command.now }
    requires one { dumped_by command.now ≡ None }
    requires ready { IsReady store.old (D.state disk.old) (V.state vault.old) }
    requires quiet { IsTrue D.told → IsQuiet store.old (D.state disk.old).block }
    ensures works { WorksWith (worker command.now) (λ h. IsStopReply h result) store.old store.new (D.state disk.old) (D.state disk.new) (V.state vault.old) (V.state vault.new) }
    ensures writes { IsTrue D.told → WritesWith (worker command.now) store.old store.new (D.state disk.old).block (D.state disk.new).block }
    ensures vault_outcomes { IsTrue V.told → Narrows (V.state vault.old).block (V.state vault.new).block }
    ensures cause { HasCause result (D.state disk.old) (D.state disk.new) }
    ensures down { (h : ℕ) → IsStopReply h result → node_at store.new.nodes h ≡ Down }
    ensures known { (why : Reply) → known store.old command.now ≡ Some why → (result ≡ why) × (store.new ≡ store.old) × (disk.new ≡ disk.old) × (vault.new ≡ vault.old) }
    ensures answer { known store.old command.now ≡ None → IsAnswer store.old store.new command.now result }
    ensures told { IsTrue D.told → known store.old command.now ≡ None → IsToldIn store.new (D.state disk.new).block command.now result }
    ensures refused { is_refusal result ≡ true → LeavesOpen command.now store.old store.new }
    ensures refused_shown { IsTrue D.told → is_refusal result ≡ true → (m : Machine) → IsShown store.old (D.state disk.old).block m → KeepsWork (worker command.now) store.old store.new }
    ensures commit_contents { IsTrue D.told → says_stop result ≡ false → (t : TxnId) → command.now ≡ Command.Commit t → KeepsAllButLog t.node.0 store.old.shape (D.state disk.old).block (D.state disk.new).block }
    ensures commit_ring { IsTrue D.told → (t : TxnId) → command.now ≡ Command.Commit t → NarrowsToRing t.node.0 store.old.shape (D.state disk.old).block (D.state disk.new).block }
    ensures append_memory { (t : TxnId) (key : Key) (bytes : List ℕ) → command.now ≡ Command.Append t key bytes → IsAtHand store.old t.node.0 key.0 → (disk.new ≡ disk.old) × (vault.new ≡ vault.old) }
    ensures put_memory { (t : TxnId) (key : Key) (value : List ℕ) → command.now ≡ Command.Put t key value → IsAtHand store.old t.node.0 key.0 → (disk.new ≡ disk.old) × (vault.new ≡ vault.old) }
    ensures del_memory { (t : TxnId) (key : Key) → command.now ≡ Command.Del t key → IsAtHandToDelete store.old t.node.0 key.0 → (disk.new ≡ disk.old) × (vault.new ≡ vault.old) }
    ensures taken { IsTrue D.told → known store.old command.now ≡ None → says_done result ≡ true → (key : Key) → key_of command.now ≡ Some key → (m : Machine) → IsShown store.old (D.state disk.old).block m → HasBoth store.new (worker command.now) m key.0 (page_then m command.now) }
    ensures room { IsTrue D.told → says_done result ≡ true → (key : Key) → key_of command.now ≡ Some key → MakesRoomWith (record { 0 = worker command.now }) key store.old store.new (D.state disk.old).block (D.state disk.new).block }
    ensures flushed { (n : NodeId) → command.now ≡ Command.Flush n → known store.old command.now ≡ None → says_stop result ≡ false → (count : ℕ) × (result ≡ says.Flushed count) × OnUp (node_at store.old.nodes n.0) (λ c old. OnUp (node_at store.new.nodes n.0) (λ d new. WritesBack c d count)) }
    ensures stat { (n : NodeId) → command.now ≡ Command.Stat n → (store.new ≡ store.old) × (disk.new ≡ disk.old) × (vault.new ≡ vault.old) }
    ensures held { IsTrue D.told → known store.old command.now ≡ None → (t : TxnId) → command.now ≡ Command.Abort t → RefusesHeld store.old store.new (D.state disk.old).block (D.state disk.new).block t result }
    ensures step { IsTrue D.told → says_stop result ≡ false → (m : Machine) → IsShown store.old (D.state disk.old).block m → StepOrStop m command.now result (IsShown store.new (D.state disk.new).block) }
    ensures led { IsTrue D.told → takes_pages command.now ≡ false → (m : Machine) → m.reopening ≡ false → AreAllThere m → Endures store.old (D.state disk.old).block m → StepOrStop m command.now result (Endures store.new (D.state disk.new).block) }
{
    if let Err(why) = store.check(command) {
        return why;
    }
    match *command {
        Command::Start(n) => reply_of(store.start(disk, vault, n)),
        Command::Begin(t) => reply_of(store.begin(disk, vault, t)),
        Command::Get(t, key) => reply_found(get(store, disk, vault, t, key)),
        Command::Put(t, key, value) => {
            reply_of(write_record(store, disk, vault, t, key, &Change::Put(value)))
        }
        Command::Append(t, key, bytes) => {
            reply_of(write_record(store, disk, vault, t, key, &Change::Append(bytes)))
        }
        Command::Del(t, key) => reply_deleted(delete(store, disk, vault, t, key)),
        Command::Commit(t) => reply_of(store.end(disk, vault, t, Ending::Commit)),
        Command::Abort(t) => reply_of(abort(store, disk, vault, t)),
        Command::Flush(n) => reply_flushed(flush(store, disk, vault, n)),
        Command::Stat(n) => store.stat(n),
        Command::Format(_) | Command::Bad | Command::Dump(_) => unreachable!(),
    }
}

impl Cluster {
    /// Executes a command that gets one reply: `next_record` answers a dump.
    ///
    /// What is refused for what is in memory is refused before anything is done. Where a device call stops
    /// a node, be it the command's own or one that had to give up a page, that node goes down, and the
    /// command ends at once.
    pub fn exec<D: Arm, V: Arm>(&mut self, disk: &mut D, vault: &mut V, command: &Command) -> Reply
        requires range { InRange command.now }
        requires one { dumped_by command.now ≡ None }
        requires ready { IsReady self.old (D.state disk.old) (V.state vault.old) }
        requires quiet { IsTrue D.told → IsQuiet self.old (D.state disk.old).block }
        ensures works { WorksWith (worker command.now) (λ h. IsStopReply h result) self.old self.new (D.state disk.old) (D.state disk.new) (V.state vault.old) (V.state vault.new) }
        ensures writes { IsTrue D.told → WritesWith (worker command.now) self.old self.new (D.state disk.old).block (D.state disk.new).block }
        ensures vault_outcomes { IsTrue V.told → Narrows (V.state vault.old).block (V.state vault.new).block }
        ensures cause { HasCause result (D.state disk.old) (D.state disk.new) }
        ensures down { (h : ℕ) → IsStopReply h result → node_at self.new.nodes h ≡ Down }
        ensures known { (why : Reply) → known self.old command.now ≡ Some why → (result ≡ why) × (self.new ≡ self.old) × (disk.new ≡ disk.old) × (vault.new ≡ vault.old) }
        ensures answer { known self.old command.now ≡ None → IsAnswer self.old self.new command.now result }
        ensures told { IsTrue D.told → known self.old command.now ≡ None → IsToldIn self.new (D.state disk.new).block command.now result }
        ensures refused { is_refusal result ≡ true → LeavesOpen command.now self.old self.new }
        ensures refused_shown { IsTrue D.told → is_refusal result ≡ true → (m : Machine) → IsShown self.old (D.state disk.old).block m → KeepsWork (worker command.now) self.old self.new }
        ensures commit_contents { IsTrue D.told → says_stop result ≡ false → (t : TxnId) → command.now ≡ Command.Commit t → KeepsAllButLog t.node.0 self.old.shape (D.state disk.old).block (D.state disk.new).block }
        ensures commit_ring { IsTrue D.told → (t : TxnId) → command.now ≡ Command.Commit t → NarrowsToRing t.node.0 self.old.shape (D.state disk.old).block (D.state disk.new).block }
        ensures append_memory { (t : TxnId) (key : Key) (bytes : List ℕ) → command.now ≡ Command.Append t key bytes → IsAtHand self.old t.node.0 key.0 → (disk.new ≡ disk.old) × (vault.new ≡ vault.old) }
        ensures put_memory { (t : TxnId) (key : Key) (value : List ℕ) → command.now ≡ Command.Put t key value → IsAtHand self.old t.node.0 key.0 → (disk.new ≡ disk.old) × (vault.new ≡ vault.old) }
        ensures del_memory { (t : TxnId) (key : Key) → command.now ≡ Command.Del t key → IsAtHandToDelete self.old t.node.0 key.0 → (disk.new ≡ disk.old) × (vault.new ≡ vault.old) }
        ensures taken { IsTrue D.told → known self.old command.now ≡ None → says_done result ≡ true → (key : Key) → key_of command.now ≡ Some key → (m : Machine) → IsShown self.old (D.state disk.old).block m → HasBoth self.new (worker command.now) m key.0 (page_then m command.now) }
        ensures room { IsTrue D.told → says_done result ≡ true → (key : Key) → key_of command.now ≡ Some key → MakesRoomWith (record { 0 = worker command.now }) key self.old self.new (D.state disk.old).block (D.state disk.new).block }
        ensures flushed { (n : NodeId) → command.now ≡ Command.Flush n → known self.old command.now ≡ None → says_stop result ≡ false → (count : ℕ) × (result ≡ says.Flushed count) × OnUp (node_at self.old.nodes n.0) (λ c old. OnUp (node_at self.new.nodes n.0) (λ d new. WritesBack c d count)) }
        ensures stat { (n : NodeId) → command.now ≡ Command.Stat n → (self.new ≡ self.old) × (disk.new ≡ disk.old) × (vault.new ≡ vault.old) }
        ensures held { IsTrue D.told → known self.old command.now ≡ None → (t : TxnId) → command.now ≡ Command.Abort t → RefusesHeld self.old self.new (D.state disk.old).block (D.state disk.new).block t result }
        ensures step { IsTrue D.told → says_stop result ≡ false → (m : Machine) → IsShown self.old (D.state disk.old).block m → StepOrStop m command.now result (IsShown self.new (D.state disk.new).block) }
        ensures led { IsTrue D.told → takes_pages command.now ≡ false → (m : Machine) → m.reopening ≡ false → AreAllThere m → Endures self.old (D.state disk.old).block m → StepOrStop m command.now result (Endures self.new (D.state disk.new).block) }
    {
        execute(&mut self.store, disk, vault, command)
    }
}

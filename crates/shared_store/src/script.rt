//! The script is read piece by piece to its end, and the store is closed then.

ghost use Rattle.std.specs.Prelude.{◌≡◌, ◌≢◌, ◌≤◌, ◌<◌, ◌^◌, ◌↔◌, [], IsTrue, vec_len};
ghost use Rattle.sd_base.specs.Disk.{DiskState, Rose};
ghost use Rattle.sd_base.specs.Stream.{GivesCount, GivesBytes};
ghost use Rattle.shared_store.specs.Devices.{GoesOn, OpensNoPort, both};
ghost use Rattle.shared_store.specs.Job.{IsBounded, TellsJob, beginning, status_number};
ghost use Rattle.shared_store.specs.Output.{StaysFlushed};
ghost use Rattle.shared_store.specs.Serving.{Served};
ghost use Rattle.shared_store.specs.Statement.{TellsRun};
ghost use Rattle.shared_store.specs.Store.{CanServe, IsQuietStore, KeepsPorts, Leaves, Shows, ShowsSeal};
ghost use Rattle.shared_store.specs.StoreState.{Seal};
ghost use Rattle.shared_store.specs.Transcript.{Beginning};

use crate::line::LineBuffer;
use crate::session::Session;
use crate::store::Store;
use sd_base::{Arm, Sink, Source, Took};
use std::alloc::Global;

/// How a run ended.
#[derive(Clone, Copy, Debug, PartialEq, Eq)]
pub enum Status {
    /// The script was read to its end, and every line was answered.
    Done,
    /// The words of the command line aren't allowed.
    Usage,
    /// The source failed.
    ReadFault,
    /// The sink failed.
    WriteFault,
    /// The script is too long: 2^40 bytes were read.
    TooLong,
}

impl Status {
    /// The number that the program ends with.
    pub fn number(&self) -> u8
        ensures { result ≡ status_number self.now }
    {
        match self {
            Status::Done => 0,
            Status::Usage => 2,
            Status::ReadFault => 3,
            Status::WriteFault => 4,
            Status::TooLong => 6,
        }
    }
}

/// How many bytes of a script are read at most.
const MAX_SCRIPT: u64 = 1 << 40;

/// How many bytes are asked for at once.
const PIECE: usize = 4096;

/// Executes the script that the source gives, over the disk and the vault, and writes the transcript
/// to the sink.
///
/// The first word is the program's name; any further word is a usage fault. A store that is open at
/// the end is closed.
pub fn run<S: Source, K: Sink, D: Arm, V: Arm>(
    alloc: Global,
    words: &Vec<String>,
    source: &mut S,
    sink: &mut K,
    disk: &mut D,
    vault: &mut V,
) -> Status
    requires { (S.state source.old).given ≤ 2 ^ 63 }

    ensures usage { result ≡ Status.Usage ↔ (vec_len words.now ≢ 1) }
    ensures unused { result ≡ Status.Usage → (source.new ≡ source.old) × (sink.new ≡ sink.old) × (disk.new ≡ disk.old) × (vault.new ≡ vault.old) }
    ensures orders { (D.state disk.new).orders ≡ (D.state disk.old).orders }
    ensures vault_orders { (V.state vault.new).orders ≡ (V.state vault.old).orders }
    ensures ports { OpensNoPort (D.state disk.old) (D.state disk.new) }
    ensures vault_ports { OpensNoPort (V.state vault.old) (V.state vault.new) }

    ensures read_fault { result ≡ Status.ReadFault → Rose (S.state source.old).faults (S.state source.new).faults }
    ensures write_fault { result ≡ Status.WriteFault → Rose (K.state sink.old).faults (K.state sink.new).faults }
    ensures bounded { result ≢ Status.Usage → IsBounded result (S.state source.old) (S.state source.new) }

    ensures done { result ≡ Status.Done → IsTrue S.told → (S.state source.new).left ≡ [] }
    ensures flushed { result ≡ Status.Done → IsTrue K.told → StaysFlushed (K.state sink.old) (K.state sink.new) }
    ensures transcript { IsTrue S.told → IsTrue K.told → IsTrue D.told → (seal : Seal) → ShowsSeal (D.state disk.old) seal
        → TellsRun result (beginning seal (both (D.state disk.old) (V.state vault.old)) (K.state sink.old)) (S.state source.old) (S.state source.new) (Leaves (D.state disk.new)) (both (D.state disk.new) (V.state vault.new)) (K.state sink.new) }
{
    if words.len() != 1 {
        return Status::Usage;
    }
    run_script(alloc, source, sink, disk, vault)
}

/// The script job: it begins with no store open, and closes the one that is open at its end.
fn run_script<S: Source, K: Sink, D: Arm, V: Arm>(
    alloc: Global,
    source: &mut S,
    sink: &mut K,
    disk: &mut D,
    vault: &mut V,
) -> Status
    requires { (S.state source.old).given ≤ 2 ^ 63 }
    ensures usage { result ≢ Status.Usage }
    ensures disk { GoesOn (D.state disk.old) (D.state disk.new) }
    ensures vault { GoesOn (V.state vault.old) (V.state vault.new) }
    ensures ports { OpensNoPort (D.state disk.old) (D.state disk.new) }
    ensures vault_ports { OpensNoPort (V.state vault.old) (V.state vault.new) }
    ensures read_fault { result ≡ Status.ReadFault → Rose (S.state source.old).faults (S.state source.new).faults }
    ensures write_fault { result ≡ Status.WriteFault → Rose (K.state sink.old).faults (K.state sink.new).faults }
    ensures bounded { IsBounded result (S.state source.old) (S.state source.new) }
    ensures done { result ≡ Status.Done → IsTrue S.told → (S.state source.new).left ≡ [] }
    ensures flushed { result ≡ Status.Done → IsTrue K.told → StaysFlushed (K.state sink.old) (K.state sink.new) }
    ensures transcript { IsTrue S.told → IsTrue K.told → IsTrue D.told → (seal : Seal) → ShowsSeal (D.state disk.old) seal
        → TellsJob result (beginning seal (both (D.state disk.old) (V.state vault.old)) (K.state sink.old)) (S.state source.old) (S.state source.new) (Leaves (D.state disk.new)) (both (D.state disk.new) (V.state vault.new)) (K.state sink.new) }
{
    let mut session = Session {
        store: Store::Closed,
        line: LineBuffer::new(),
    };
    let status = read_script(&mut session, alloc, source, sink, disk, vault);
    let Session { store, line: _line } = session;
    store.close(disk, vault);
    status
}

/// Reads the script to its end, and answers its lines.
fn read_script<S: Source, K: Sink, D: Arm, V: Arm>(
    session: &mut Session,
    alloc: Global,
    source: &mut S,
    sink: &mut K,
    disk: &mut D,
    vault: &mut V,
) -> Status
    requires given { (S.state source.old).given ≤ 2 ^ 63 }
    requires ready { CanServe session.old.store (D.state disk.old) (V.state vault.old) }
    requires quiet { IsTrue D.told → IsQuietStore session.old.store (D.state disk.old).block }
    ensures usage { result ≢ Status.Usage }
    ensures ready { CanServe session.new.store (D.state disk.new) (V.state vault.new) }
    ensures disk { GoesOn (D.state disk.old) (D.state disk.new) }
    ensures vault { GoesOn (V.state vault.old) (V.state vault.new) }
    ensures ports { (first : DiskState) → KeepsPorts session.old.store first (D.state disk.old) → KeepsPorts session.new.store first (D.state disk.new) }
    ensures vault_ports { (first : DiskState) → KeepsPorts session.old.store first (V.state vault.old) → KeepsPorts session.new.store first (V.state vault.new) }
    ensures read_fault { result ≡ Status.ReadFault → Rose (S.state source.old).faults (S.state source.new).faults }
    ensures write_fault { result ≡ Status.WriteFault → Rose (K.state sink.old).faults (K.state sink.new).faults }
    ensures bounded { IsBounded result (S.state source.old) (S.state source.new) }
    ensures done { result ≡ Status.Done → IsTrue S.told → (S.state source.new).left ≡ [] }
    ensures flushed { result ≡ Status.Done → IsTrue K.told → StaysFlushed (K.state sink.old) (K.state sink.new) }
    ensures transcript { IsTrue S.told → IsTrue K.told → IsTrue D.told → (from : Beginning)
        → Served from [] session.old.line session.old.store (both (D.state disk.old) (V.state vault.old)) (K.state sink.old)
        → TellsJob result from (S.state source.old) (S.state source.new) (Shows session.new.store (D.state disk.new)) (both (D.state disk.new) (V.state vault.new)) (K.state sink.new) }
{
    let mut piece = [0; PIECE];
    let mut given: u64 = 0;
    while given < MAX_SCRIPT {
        let room = (MAX_SCRIPT - given).min(PIECE as u64) as usize;
        match read_piece(source, &mut piece, room) {
            Took::End => {
                // A last line without a line feed counts too.
                let is_answered = session.answer_line(alloc, sink, disk, vault);
                return if is_answered {
                    Status::Done
                } else {
                    Status::WriteFault
                };
            }
            Took::Failed => return Status::ReadFault,
            Took::Got(n) => {
                given += n as u64;
                if !session.feed(alloc, sink, disk, vault, &piece[..n]) {
                    return Status::WriteFault;
                }
            }
        }
    }
    Status::TooLong
}

/// Reads at most `room` bytes to the front of the piece. No bytes are the end.
fn read_piece<S: Source>(source: &mut S, piece: &mut [u8; PIECE], room: usize) -> Took
    requires some { 0 < room }
    requires within { room ≤ 4096 }
    requires counted { (S.state source.old).given < 2 ^ 64 }
    ensures faults { (S.state source.old).faults ≤ (S.state source.new).faults }
    ensures count { GivesCount result room (S.state source.old) (S.state source.new) }
    ensures bytes { IsTrue S.told → GivesBytes result piece.new (S.state source.old) (S.state source.new) }
    ensures some { result ≢ Took.Got 0 }
{
    match source.read(&mut piece[..room]) {
        Took::Got(0) => Took::End,
        answer => answer,
    }
}

//! A script that is being executed: its bytes come in, and each line is answered at its end.

ghost use Rattle.std.specs.Prelude.{◌≡◌, ◌≤◌, ◌++◌, ◌∷◌, [], ℕ, List, true, false, IsTrue};
ghost use Rattle.sd_base.specs.Disk.{DiskState, Rose};
ghost use Rattle.script_text.specs.Lines.{EndsLine};
ghost use Rattle.shared_store.specs.Devices.{GoesOn, both};
ghost use Rattle.shared_store.specs.Output.{StaysFlushed};
ghost use Rattle.shared_store.specs.Serving.{Served};
ghost use Rattle.shared_store.specs.Store.{CanServe, IsQuietStore, KeepsPorts, Shows};
ghost use Rattle.shared_store.specs.Transcript.{Beginning, Transcribes, TranscribesPart};

use crate::line::LineBuffer;
use crate::store::Store;
use sd_base::{Arm, Sink};
use std::alloc::Global;

/// A script that is being executed: the store, and the line that has begun.
pub(crate) struct Session {
    pub(crate) store: Store,
    pub(crate) line: LineBuffer,
}

impl Session {
    /// Reads the next bytes of the script, and answers each line that they end. False where the
    /// sink failed; then no further line is executed.
    pub(crate) fn feed<K: Sink, D: Arm, V: Arm>(
        &mut self,
        alloc: Global,
        sink: &mut K,
        disk: &mut D,
        vault: &mut V,
        piece: &[u8],
    ) -> bool
        requires ready { CanServe self.old.store (D.state disk.old) (V.state vault.old) }
        requires quiet { IsTrue D.told → IsQuietStore self.old.store (D.state disk.old).block }
        ensures ready { CanServe self.new.store (D.state disk.new) (V.state vault.new) }
        ensures quiet { IsTrue D.told → IsQuietStore self.new.store (D.state disk.new).block }
        ensures disk { GoesOn (D.state disk.old) (D.state disk.new) }
        ensures vault { GoesOn (V.state vault.old) (V.state vault.new) }
        ensures ports { (first : DiskState) → KeepsPorts self.old.store first (D.state disk.old) → KeepsPorts self.new.store first (D.state disk.new) }
        ensures vault_ports { (first : DiskState) → KeepsPorts self.old.store first (V.state vault.old) → KeepsPorts self.new.store first (V.state vault.new) }
        ensures faults { (K.state sink.old).faults ≤ (K.state sink.new).faults }
        ensures cause { result ≡ false → Rose (K.state sink.old).faults (K.state sink.new).faults }
        ensures flushed { result ≡ true → IsTrue K.told → StaysFlushed (K.state sink.old) (K.state sink.new) }
        ensures served { result ≡ true → IsTrue K.told → IsTrue D.told → (from : Beginning) (bytes : List ℕ)
            → Served from bytes self.old.line self.old.store (both (D.state disk.old) (V.state vault.old)) (K.state sink.old)
            → Served from (bytes ++ piece.now) self.new.line self.new.store (both (D.state disk.new) (V.state vault.new)) (K.state sink.new) }
        ensures cut { result ≡ false → IsTrue K.told → IsTrue D.told → (from : Beginning) (bytes : List ℕ)
            → Served from bytes self.old.line self.old.store (both (D.state disk.old) (V.state vault.old)) (K.state sink.old)
            → (more : List ℕ) → TranscribesPart from ((bytes ++ piece.now) ++ more) (Shows self.new.store (D.state disk.new)) (both (D.state disk.new) (V.state vault.new)) (K.state sink.new).taken }
    {
        for b in piece {
            if !self.take_byte(alloc, sink, disk, vault, *b) {
                return false;
            }
        }
        true
    }

    /// Reads the next byte of the script.
    fn take_byte<K: Sink, D: Arm, V: Arm>(
        &mut self,
        alloc: Global,
        sink: &mut K,
        disk: &mut D,
        vault: &mut V,
        b: u8,
    ) -> bool
        requires ready { CanServe self.old.store (D.state disk.old) (V.state vault.old) }
        requires quiet { IsTrue D.told → IsQuietStore self.old.store (D.state disk.old).block }
        ensures ready { CanServe self.new.store (D.state disk.new) (V.state vault.new) }
        ensures quiet { IsTrue D.told → IsQuietStore self.new.store (D.state disk.new).block }
        ensures disk { GoesOn (D.state disk.old) (D.state disk.new) }
        ensures vault { GoesOn (V.state vault.old) (V.state vault.new) }
        ensures ports { (first : DiskState) → KeepsPorts self.old.store first (D.state disk.old) → KeepsPorts self.new.store first (D.state disk.new) }
        ensures vault_ports { (first : DiskState) → KeepsPorts self.old.store first (V.state vault.old) → KeepsPorts self.new.store first (V.state vault.new) }
        ensures faults { (K.state sink.old).faults ≤ (K.state sink.new).faults }
        ensures cause { result ≡ false → Rose (K.state sink.old).faults (K.state sink.new).faults }
        ensures flushed { result ≡ true → IsTrue K.told → StaysFlushed (K.state sink.old) (K.state sink.new) }
        ensures served { result ≡ true → IsTrue K.told → IsTrue D.told → (from : Beginning) (bytes : List ℕ)
            → Served from bytes self.old.line self.old.store (both (D.state disk.old) (V.state vault.old)) (K.state sink.old)
            → Served from (bytes ++ b ∷ []) self.new.line self.new.store (both (D.state disk.new) (V.state vault.new)) (K.state sink.new) }
        ensures cut { result ≡ false → IsTrue K.told → IsTrue D.told → (from : Beginning) (bytes : List ℕ)
            → Served from bytes self.old.line self.old.store (both (D.state disk.old) (V.state vault.old)) (K.state sink.old)
            → (more : List ℕ) → TranscribesPart from ((bytes ++ b ∷ []) ++ more) (Shows self.new.store (D.state disk.new)) (both (D.state disk.new) (V.state vault.new)) (K.state sink.new).taken }
    {
        if b == b'\n' {
            self.answer_line(alloc, sink, disk, vault)
        } else {
            self.line.push(b);
            true
        }
    }

    /// Answers the line that is held, whether a line feed or the end of the script stands behind it.
    /// Its replies are written and flushed before the next line is read.
    pub(crate) fn answer_line<K: Sink, D: Arm, V: Arm>(
        &mut self,
        alloc: Global,
        sink: &mut K,
        disk: &mut D,
        vault: &mut V,
    ) -> bool
        requires ready { CanServe self.old.store (D.state disk.old) (V.state vault.old) }
        requires quiet { IsTrue D.told → IsQuietStore self.old.store (D.state disk.old).block }
        ensures ready { CanServe self.new.store (D.state disk.new) (V.state vault.new) }
        ensures quiet { IsTrue D.told → IsQuietStore self.new.store (D.state disk.new).block }
        ensures disk { GoesOn (D.state disk.old) (D.state disk.new) }
        ensures vault { GoesOn (V.state vault.old) (V.state vault.new) }
        ensures ports { (first : DiskState) → KeepsPorts self.old.store first (D.state disk.old) → KeepsPorts self.new.store first (D.state disk.new) }
        ensures vault_ports { (first : DiskState) → KeepsPorts self.old.store first (V.state vault.old) → KeepsPorts self.new.store first (V.state vault.new) }
        ensures faults { (K.state sink.old).faults ≤ (K.state sink.new).faults }
        ensures cause { result ≡ false → Rose (K.state sink.old).faults (K.state sink.new).faults }
        ensures flushed { result ≡ true → IsTrue K.told → StaysFlushed (K.state sink.old) (K.state sink.new) }
        ensures served { result ≡ true → IsTrue K.told → IsTrue D.told → (from : Beginning) (bytes : List ℕ)
            → Served from bytes self.old.line self.old.store (both (D.state disk.old) (V.state vault.old)) (K.state sink.old)
            → Served from (bytes ++ 10 ∷ []) self.new.line self.new.store (both (D.state disk.new) (V.state vault.new)) (K.state sink.new) }
        ensures ended { result ≡ true → IsTrue K.told → IsTrue D.told → (from : Beginning) (bytes : List ℕ)
            → Served from bytes self.old.line self.old.store (both (D.state disk.old) (V.state vault.old)) (K.state sink.old)
            → Transcribes true from bytes (Shows self.new.store (D.state disk.new)) (both (D.state disk.new) (V.state vault.new)) (K.state sink.new).taken }
        ensures cut { result ≡ false → IsTrue K.told → IsTrue D.told → (from : Beginning) (bytes : List ℕ)
            → Served from bytes self.old.line self.old.store (both (D.state disk.old) (V.state vault.old)) (K.state sink.old)
            → (more : List ℕ) → EndsLine more → TranscribesPart from (bytes ++ more) (Shows self.new.store (D.state disk.new)) (both (D.state disk.new) (V.state vault.new)) (K.state sink.new).taken }
    {
        if self.line.is_silent() {
            self.line.clear();
            return true;
        }
        let command = self.line.command();
        self.line.clear();
        self.store.answer(alloc, sink, disk, vault, &command)
    }
}

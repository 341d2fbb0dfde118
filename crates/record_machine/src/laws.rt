//! The laws about the record machine, by which the commands of the store are proved.

ghost use Rattle.std.specs.Prelude.{true, drop, ◌≡◌, ◌≢◌, ◌+◌, ◌*◌, ◌^◌, ◌≤◌, ◌<◌, ◌++◌, ◌∷◌, [], ℕ, false, List, Option, Some, None, IfSome, IsSome, IsTrue, length, replicate, take};
ghost use Rattle.std.specs.FinMap.{empty};
ghost use Rattle.std.specs.List.{list_any};
ghost use Rattle.sd_base.specs.Shape.{IsShape};
ghost use Rattle.sd_base.specs.declared.names.Key.{Key};
ghost use Rattle.sd_base.specs.declared.names.TxnId.{TxnId};
ghost use Rattle.sd_base.specs.declared.shape.Shape.{Shape};
ghost use Rattle.sd_base.specs.Places.{group_of, map_of_key, slot_of_key};
ghost use Rattle.page_image.specs.declared.page_view.PageView.{PageView};
ghost use Rattle.space_map.specs.Image.{MapImage};
ghost use Rattle.log_record.specs.declared.record.LogRecord.{LogRecord};
ghost use Rattle.log_record.specs.declared.record.LogRecord.TheVariants.{Begin};
ghost use Rattle.compensation.specs.Inverse.{content};
ghost use Rattle.compensation.specs.Finding.{record_at};
ghost use Rattle.record_locks.specs.declared.mode.Mode.{Mode};
ghost use Rattle.record_locks.specs.declared.mode.Mode.TheVariants as locks;
ghost use Rattle.record_locks.specs.Answer.{lock_answer, may_take};
ghost use Rattle.record_locks.specs.Held.{least_where, mode_of};
ghost use Rattle.script_text.specs.declared.command.Command.{Command};
ghost use Rattle.script_text.specs.declared.command.Command.TheVariants as asks;
ghost use Rattle.record_machine.specs.Commands.{parts, takes};
ghost use Rattle.record_machine.specs.Machine.{Deed, Down, LooseChange, Machine, Up, Write, deeds_of, formatted, free_place, home, is_up, newest_of, owed, seen, writes_of};
ghost use Rattle.record_machine.specs.Parts as part;
ghost use Rattle.record_machine.specs.Parts.{dos, is_of_page, one};
ghost use Rattle.record_machine.specs.Rows.{AreRows, HasNone, IsNext, Row};
ghost use Rattle.record_machine.specs.Steps.{held, refused_for};
ghost use Rattle.record_machine.specs.Stops.{any_up, stop, stop_in_undo};
ghost use Rattle.record_machine.specs.Meaning.{IsChangedAt, IsUsed, Means, Plain, Tells, born, first_record, has_written, logged, with_map, with_page};

/// A store means the machine's first state when it is formatted.
pub fn law_of_formatted_stores()
    ensures { (s : Shape) → IsShape s → Means (born s) (formatted s) }
{}

/// A transaction that has a lock on a key finds its record, as the machine says that it sees it, in the
/// slot of the page of the key's group. Where the group has no page, it sees none. Where no transaction
/// has a lock, the slot has the committed record.
pub fn law_of_present_records()
    ensures there { (p : Plain) (m : Machine) (key : Key) (x : ℕ) (t : TxnId) (mode : Mode) → Means p m → home m key.0 ≡ Some x → mode_of m.locks key t ≡ Some mode → content (p.pages x) (slot_of_key key.0) ≡ seen m t key.0 }
    ensures absent { (p : Plain) (m : Machine) (key : ℕ) (t : TxnId) → Means p m → home m key ≡ None → seen m t key ≡ None }
    ensures committed { (p : Plain) (m : Machine) (key : Key) (x : ℕ) → Means p m → least_where (λ l mode. true) m.locks ≡ None → home m key.0 ≡ Some x → content (p.pages x) (slot_of_key key.0) ≡ m.records key.0 }
{}

/// A command that is refused has taken some of its pages and has done no more: records, locks and open
/// transactions are as they were.
pub fn law_of_refusals()
    ensures { (m : Machine) (c : Command) (count : ℕ) → (hold : ℕ → Option ℕ) × (loose : ℕ → List LooseChange) × (dos (take count (takes m c)) m ≡ record m { hold = hold; loose = loose }) }
{}

/// The rows of a dump, one after the other: none at first, then one more where the next record is found,
/// until there is no further one. At each point there are rows that would complete them.
pub fn law_of_rows()
    ensures none { (m : Machine) → AreRows m 0 [] }
    ensures more { (m : Machine) (first : ℕ) (key : Key) (value : List ℕ) (rows : List Row) → AreRows m first rows → IsNext m first key value → AreRows m (key.0 + 1) (rows ++ record { key = key; value = value } ∷ []) }
    ensures all { (m : Machine) (first : ℕ) (rows : List Row) → first ≤ 2 ^ 32 → AreRows m first rows → HasNone m first → AreRows m (2 ^ 32) rows }
    ensures rest { (m : Machine) (first : ℕ) (rows : List Row) → first ≤ 2 ^ 32 → AreRows m first rows → (more : List Row) × AreRows m (2 ^ 32) (rows ++ more) }
{}

/// What each part of a command needs, and what it leaves. A node that starts, and a page that is taken,
/// change nothing that the logs, the pages and the locks mean.
pub fn law_of_parts()
    ensures start { (p : Plain) (m : Machine) (n : ℕ) → Means p m → Means p (one (part.Start n) m) }
    ensures take { (p : Plain) (m : Machine) (x n : ℕ) → Means p m → Means p (one (part.Take x n) m) }
    ensures begun { (p : Plain) (m : Machine) (t : TxnId) → Means p m → Means (logged t.node.0 Begin p) (one (part.Begin t) m) }
    ensures used { (p : Plain) (m : Machine) (n place key : ℕ) (rec : LogRecord) (map : MapImage) → home m key ≡ None → free_place m key ≡ Some place → IsUsed m (map_of_key m.shape key) place (group_of key) (p.maps (map_of_key m.shape key)) map
        → Means p m → Means (logged n rec (with_map (map_of_key m.shape key) map p)) (one (part.Use n (map_of_key m.shape key) place (group_of key)) m) }
    ensures lock { (p : Plain) (m : Machine) (key : Key) (t : TxnId) (mode : Mode) → IsTrue (may_take (lock_answer m.locks key t mode)) → Means p m → Means p (one (part.Lock key t mode) m) }
    ensures change { (p : Plain) (m : Machine) (t : TxnId) (w : Write) (rec : LogRecord) (v : PageView) → home m w.key ≡ Some w.page → mode_of m.locks (record { 0 = w.key }) t ≡ Some locks.Write → Tells rec w (seen m t w.key) → IsChangedAt (slot_of_key w.key) w.value (p.pages w.page) v
        → m.ident w.page < 2 ^ 63 → ((n : ℕ) → 1 ≤ n → n ≤ m.shape.nodes → owed m n ≤ 6 * m.shape.ring)
        → Means p m → Means (logged t.node.0 rec (with_page w.page v p)) (one (part.Change t w) m) }
    ensures back { (p : Plain) (m : Machine) (t : TxnId) (d : Deed) (w : Write) (rec : LogRecord) (v : PageView) → newest_of m t ≡ Some d → d.write ≡ Some w → 1 ≤ t.node.0 → t.node.0 ≤ m.shape.nodes → IsChangedAt (slot_of_key w.key) (seen (one (part.Back t) m) t w.key) (p.pages w.page) v
        → Means p m → Means (logged t.node.0 rec (with_page w.page v p)) (one (part.Back t) m) }
    ensures seal { (p : Plain) (m : Machine) (t : TxnId) (rec : LogRecord) → Means p m → Means (logged t.node.0 rec p) (one (part.Seal t) m) }
    ensures sealed { (m : Machine) (t : TxnId) (key : ℕ) → has_written (one (part.Seal t) m) t key ≡ false }
    ensures drop { (p : Plain) (m : Machine) (x : ℕ) → Means p m → Means p (one (part.Drop x) m) }
    ensures sure { (p : Plain) (m : Machine) (n : ℕ) → Means p m → Means p (one (part.Sure n) m) }
    ensures unlock { (p : Plain) (m : Machine) (t : TxnId) → ((key : ℕ) → has_written m t key ≡ false) → Means p m → Means p (one (part.Unlock t) m) }
{}

/// What an abort takes back, one write after the other and the newest first: where its record stands,
/// that its page has room for one change more, what the log tells of it, and what is left. Where all are
/// taken back, nothing is left.
pub fn law_of_aborts()
    ensures written { (m : Machine) (t : TxnId) (d : Deed) → newest_of m t ≡ Some d → IsSome d.write }
    ensures home { (p : Plain) (m : Machine) (t : TxnId) (d : Deed) (w : Write) → newest_of m t ≡ Some d → d.write ≡ Some w → Means p m → home m w.key ≡ Some w.page }
    ensures room { (p : Plain) (m : Machine) (t : TxnId) (d : Deed) (w : Write) → newest_of m t ≡ Some d → d.write ≡ Some w → 1 ≤ t.node.0 → t.node.0 ≤ m.shape.nodes → Means p m → m.ident w.page < 2 ^ 63 + 2 ^ 40 }
    ensures backs_seen { (p : Plain) (m : Machine) (t : TxnId) (d : Deed) (w : Write) → newest_of m t ≡ Some d → d.write ≡ Some w → Means p m → (rec : LogRecord) × (record_at (first_record m t.node.0) (p.live t.node.0) d.number ≡ Some rec) × Tells rec w (seen (one (part.Back t) m) t w.key) }
    ensures length { (m : Machine) (t : TxnId) (d : Deed) → newest_of m t ≡ Some d → owed m t.node.0 ≡ owed (one (part.Back t) m) t.node.0 + 1 }
    ensures left { (m : Machine) (t : TxnId) (d : Deed) → newest_of m t ≡ Some d → writes_of m t ≡ writes_of (one (part.Back t) m) t ++ d ∷ [] }
    ensures others { (m : Machine) (t u : TxnId) → u ≢ t → deeds_of (one (part.Back t) m) u ≡ deeds_of m u }
    ensures no_more { (m : Machine) (t : TxnId) (key : ℕ) → newest_of m t ≡ None → has_written m t key ≡ false }
    ensures all_back { (m : Machine) (t : TxnId) (key : ℕ) → has_written (dos (replicate (length (writes_of m t)) (part.Back t)) m) t key ≡ false }
    // So a whole abort, which takes its pages first and releases its locks at last, changes no record.
    ensures whole { (m : Machine) (t : TxnId) (key : ℕ) → (dos (parts m (asks.Abort t)) m).records key ≡ m.records key }
    ensures undone { (m : Machine) (t : TxnId) (key : ℕ) → (one (part.Seal t) (dos (replicate (length (writes_of m t)) (part.Back t)) m)).records key ≡ m.records key }
{}

/// What a stop of a node changes, and what it keeps. It changes no committed record. It touches no other
/// node, no lock of another node and no page that its loose changes haven't changed. While another node is
/// up, all holds stay, and of the node's own locks those to write. Where none is, the tables are lost.
pub fn law_of_stops()
    ensures records { (m : Machine) (h kept : ℕ) → (stop h kept m).records ≡ m.records }
    ensures store { (m : Machine) (h kept : ℕ) → ((stop h kept m).shape ≡ m.shape) × ((stop h kept m).start ≡ m.start) × ((stop h kept m).first ≡ m.first) × ((stop h kept m).gone ≡ m.gone) }
    ensures down { (m : Machine) (h kept : ℕ) → ((stop h kept m).mode h ≡ Down) × ((stop h kept m).loose h ≡ []) }
    // So is the node whose transactions it took back, where it stops as it does so.
    ensures in_undo { (m : Machine) (u h kept : ℕ) → ((stop_in_undo u h kept m).mode u ≡ Down) × ((stop_in_undo u h kept m).mode h ≡ Down) }
    ensures others { (m : Machine) (h kept n : ℕ) → n ≢ h → ((stop h kept m).mode n ≡ m.mode n) × ((stop h kept m).pending n ≡ m.pending n) × ((stop h kept m).tail n ≡ m.tail n) × ((stop h kept m).loose n ≡ m.loose n) }
    // Its log ends before the first change that is taken back, and so it is with its open transactions.
    ensures back { (m : Machine) (h kept : ℕ) (c : LooseChange) (cs : List LooseChange) → drop kept (m.loose h) ≡ c ∷ cs → ((stop h kept m).tail h ≡ c.number) × ((stop h kept m).pending h ≡ c.pending) }
    // A page that none of these changes has changed is as it was.
    ensures pages { (m : Machine) (h kept x : ℕ) → list_any (is_of_page x) (drop kept (m.loose h)) ≡ false → (stop h kept m).ident x ≡ m.ident x }
    // Where all is sure, nothing is taken back.
    ensures sure { (m : Machine) (h kept : ℕ) → m.loose h ≡ [] → ((stop h kept m).tail ≡ m.tail) × ((stop h kept m).pending ≡ m.pending) × ((stop h kept m).ident ≡ m.ident) × ((stop h kept m).entries ≡ m.entries) }
    ensures holds { (m : Machine) (h kept x : ℕ) → any_up (stop h kept m) ≡ true → (stop h kept m).hold x ≡ m.hold x }
    ensures write_locks { (m : Machine) (h kept : ℕ) (key : Key) (t : TxnId) → any_up (stop h kept m) ≡ true → mode_of m.locks key t ≡ Some locks.Write → mode_of (stop h kept m).locks key t ≡ Some locks.Write }
    ensures read_locks { (m : Machine) (h kept : ℕ) (key : Key) (t : TxnId) → t.node.0 ≡ h → mode_of m.locks key t ≡ Some locks.Read → mode_of (stop h kept m).locks key t ≡ None }
    ensures other_locks { (m : Machine) (h kept : ℕ) (key : Key) (t : TxnId) → any_up (stop h kept m) ≡ true → t.node.0 ≢ h → mode_of (stop h kept m).locks key t ≡ mode_of m.locks key t }
    ensures no_new_locks { (m : Machine) (h kept : ℕ) (key : Key) (t : TxnId) (mode : Mode) → mode_of (stop h kept m).locks key t ≡ Some mode → mode_of m.locks key t ≡ Some mode }
    ensures flag { (m : Machine) (h kept : ℕ) → any_up (stop h kept m) ≡ true → (stop h kept m).reopening ≡ m.reopening }
    ensures tables { (m : Machine) (h kept : ℕ) → any_up (stop h kept m) ≡ false → ((stop h kept m).locks ≡ empty) × ((x : ℕ) → (stop h kept m).hold x ≡ None) × ((stop h kept m).reopening ≡ true) }
{}

/// What a stop can't take away: all that was made sure, what a transaction had done when one of its node
/// was sealed, and all changes of a page that another node has taken, or that the node has given up, since.
pub fn law_of_sure_changes()
    ensures made { (m : Machine) (n : ℕ) → (one (part.Sure n) m).loose n ≡ [] }
    ensures sealed { (m : Machine) (t : TxnId) → (one (part.Seal t) m).loose t.node.0 ≡ [] }
    ensures started { (m : Machine) (n : ℕ) → (one (part.Start n) m).loose n ≡ [] }
    ensures taken { (m : Machine) (x n h : ℕ) → m.hold x ≡ Some h → h ≢ n → m.mode h ≡ Up → list_any (is_of_page x) ((one (part.Take x n) m).loose h) ≡ false }
    ensures dropped { (m : Machine) (x h : ℕ) → m.hold x ≡ Some h → m.mode h ≡ Up → list_any (is_of_page x) ((one (part.Drop x) m).loose h) ≡ false }
    // Whatever a node has still to lose then, it had before.
    ensures left { (m : Machine) (x n h : ℕ) → (count : ℕ) × ((one (part.Take x n) m).loose h ≡ drop count (m.loose h)) }
    ensures left_by_drop { (m : Machine) (x h : ℕ) → (count : ℕ) × ((one (part.Drop x) m).loose h ≡ drop count (m.loose h)) }
{}

/// A page passes from a node to another one: given up and then taken, it is as if it were taken at once, and
/// what both nodes may lose is. A page that its holder takes again changes nothing.
pub fn law_of_passed_pages()
    ensures holds { (m : Machine) (x n y : ℕ) → (one (part.Take x n) (one (part.Drop x) m)).hold y ≡ (one (part.Take x n) m).hold y }
    // But a node that is up and gives up a page has made sure its changes of it, also where it takes it again itself.
    ensures loose { (m : Machine) (x n j : ℕ) → (m.hold x ≡ Some n → is_up (m.mode n) ≡ false) → (one (part.Take x n) (one (part.Drop x) m)).loose j ≡ (one (part.Take x n) m).loose j }
    ensures again { (m : Machine) (x n y : ℕ) → m.hold x ≡ Some n → (one (part.Take x n) m).hold y ≡ m.hold y }
    ensures again_loose { (m : Machine) (x n j : ℕ) → m.hold x ≡ Some n → (one (part.Take x n) m).loose j ≡ m.loose j }
{}

/// Where a command isn't refused, no page that it takes is held by a node that is down.
pub fn law_of_holds()
    ensures takes { (m : Machine) (c : Command) → refused_for m c ≡ None → held m (takes m c) ≡ None }
    ensures apart { (m : Machine) (ps qs : List part.Part) (x n h : ℕ) → held m (ps ++ part.Take x n ∷ qs) ≡ None → m.hold x ≡ Some h → m.mode h ≢ Down }
{}

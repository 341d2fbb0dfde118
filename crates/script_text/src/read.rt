//! A line is read as the command that it spells.

ghost use Rattle.std.specs.Prelude.{◌≡◌, ◌≤◌, ℕ, List, [], ◌∷◌, length, Some, IfSome, IsTrue, ◌↔◌};
ghost use Rattle.sd_base.specs.Shape.{IsShape};
ghost use Rattle.sd_base.specs.declared.names.Key.{Key};
ghost use Rattle.sd_base.specs.declared.names.TxnId.{TxnId};
ghost use Rattle.sd_base.specs.declared.shape.Shape.{Shape};
ghost use Rattle.script_text.specs.Spelling.{spelled, IsValue};
ghost use Rattle.script_text.specs.Words.{spaced, IsTxn, txn_word, IsKey, key_word, shape_words};
ghost use Rattle.script_text.specs.Command.{Spells, Means, InRange};
ghost use Rattle.script_text.specs.Reading.{SpellsBehind};
ghost use Rattle.script_text.specs.declared.command.Command.{Command};

use crate::command::Command;
use crate::numbers::read_number;
use crate::spelling::read_value;
use crate::words::{cut, read_key, read_node, read_txn};
use sd_base::{Key, Shape, TxnId, Value};

/// No line spells two commands.
pub fn law_of_one_reading()
    ensures { (line : List ℕ) (c d : Command) → Spells line c → Spells line d → c ≡ d }
{}

/// No command's line is longer than 1,015 bytes.
pub fn law_of_short_lines()
    ensures { (line : List ℕ) (c : Command) → Spells line c → length line ≤ 1015 }
{}

/// Reads a line without its line feed. `Bad` exactly where the line spells no command.
pub fn read_line(line: &[u8]) -> Command
    ensures means { Means line.now result }
    ensures range { InRange result }
{
    match read_form(line) {
        Some(command) => command,
        None => Command::Bad,
    }
}

/// The command that a line spells. Its first word is the name of the form.
fn read_form(line: &[u8]) -> Option<Command>
    ensures found { IfSome result (Spells line.now) }
    ensures only { (c : Command) → Spells line.now c → result ≡ Some c }
{
    let (name, rest) = cut(line, b' ')?;
    read_arguments(name, rest)
}

/// Whether a text is this word.
fn is_word(text: &[u8], word: &[u8]) -> bool
    ensures { IsTrue result ↔ (text.now ≡ word.now) }
{
    text == word
}

/// The command of the form with this name that the rest of the line spells.
fn read_arguments(name: &[u8], rest: &[u8]) -> Option<Command>
    ensures found { IfSome result (SpellsBehind name.now rest.now) }
    ensures only { (c : Command) → SpellsBehind name.now rest.now c → result ≡ Some c }
{
    if is_word(name, b"format") {
        read_shape(rest).map(Command::Format)
    } else if is_word(name, b"start") {
        read_node(rest).map(Command::Start)
    } else if is_word(name, b"begin") {
        read_txn(rest).map(Command::Begin)
    } else if is_word(name, b"get") {
        read_record(rest).map(|(txn, key)| Command::Get(txn, key))
    } else if is_word(name, b"put") {
        read_change(rest).map(|(txn, key, value)| Command::Put(txn, key, value))
    } else if is_word(name, b"append") {
        read_change(rest).map(|(txn, key, value)| Command::Append(txn, key, value))
    } else if is_word(name, b"del") {
        read_record(rest).map(|(txn, key)| Command::Del(txn, key))
    } else if is_word(name, b"commit") {
        read_txn(rest).map(Command::Commit)
    } else if is_word(name, b"abort") {
        read_txn(rest).map(Command::Abort)
    } else if is_word(name, b"flush") {
        read_node(rest).map(Command::Flush)
    } else if is_word(name, b"dump") {
        read_node(rest).map(Command::Dump)
    } else if is_word(name, b"stat") {
        read_node(rest).map(Command::Stat)
    } else {
        None
    }
}

/// A transaction and a key.
fn read_record(rest: &[u8]) -> Option<(TxnId, Key)>
    ensures found { IfSome result (λ r. IsTxn r.0 × IsKey r.1 × (rest.now ≡ spaced (txn_word r.0 ∷ key_word r.1 ∷ []))) }
    ensures only { (t : TxnId) (k : Key) → IsTxn t → IsKey k → rest.now ≡ spaced (txn_word t ∷ key_word k ∷ []) → result ≡ Some (t, k) }
{
    let (txn, key) = cut(rest, b' ')?;
    Some((read_txn(txn)?, read_key(key)?))
}

/// A transaction, a key and a value.
fn read_change(rest: &[u8]) -> Option<(TxnId, Key, Value)>
    ensures found { IfSome result (λ r. IsTxn r.0 × IsKey r.1 × IsValue r.2 × (rest.now ≡ spaced (txn_word r.0 ∷ key_word r.1 ∷ spelled r.2 ∷ []))) }
    ensures only { (t : TxnId) (k : Key) (v : List ℕ) → IsTxn t → IsKey k → IsValue v
        → rest.now ≡ spaced (txn_word t ∷ key_word k ∷ spelled v ∷ []) → result ≡ Some (t, k, v) }
{
    let (txn, rest) = cut(rest, b' ')?;
    let (key, value) = cut(rest, b' ')?;
    Some((read_txn(txn)?, read_key(key)?, read_value(value)?))
}

/// The numbers of a store.
fn read_shape(rest: &[u8]) -> Option<Shape>
    ensures found { IfSome result (λ s. IsShape s × (rest.now ≡ spaced (shape_words s))) }
    ensures only { (s : Shape) → IsShape s → rest.now ≡ spaced (shape_words s) → result ≡ Some s }
{
    let (nodes, rest) = cut(rest, b' ')?;
    let (ring, rest) = cut(rest, b' ')?;
    let (maps, rest) = cut(rest, b' ')?;
    let (keep, birth) = cut(rest, b' ')?;
    Some(Shape {
        nodes: read_number(nodes, 1, 8)? as u8,
        ring: read_number(ring, 4, 4096)? as u32,
        maps: read_number(maps, 1, 256)? as u32,
        keep: read_number(keep, 1, 65536)? as u32,
        birth: read_number(birth, 0, 1 << 63)?,
    })
}

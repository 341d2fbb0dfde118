//! A line is cut into words, and a word is read as a node, a transaction or a key.

ghost use Rattle.std.specs.Prelude.{◌≡◌, ℕ, List, Some, IfSome, IfNone, IsSomeAnd};
ghost use Rattle.sd_base.specs.declared.device.NodeId.{NodeId};
ghost use Rattle.sd_base.specs.declared.names.Key.{Key};
ghost use Rattle.sd_base.specs.declared.names.TxnId.{TxnId};
ghost use Rattle.script_text.specs.Lines.{Lacks};
ghost use Rattle.script_text.specs.Reading.{IsCut, IsFirst};
ghost use Rattle.script_text.specs.Words.{IsNode, node_word, IsTxn, txn_word, IsKey, key_word};

use crate::numbers::read_number;
use sd_base::{Key, NodeId, TxnId};

/// The place of the first such byte of a text.
fn first_place(text: &[u8], mark: u8) -> Option<usize>
    ensures found { IfSome result (IsFirst mark text.now) }
    ensures none { IfNone result (Lacks mark text.now) }
{
    text.iter().position(|b| *b == mark)
}

/// What stands in front of the first such byte of a text, and behind it. `None` exactly where the text
/// has none.
pub fn cut(text: &[u8], mark: u8) -> Option<(&[u8], &[u8])>
    ensures found { IfSome result (λ parts. IsCut mark text.now parts.0.now parts.1.now) }
    ensures only { (front back : List ℕ) → IsCut mark text.now front back
        → IsSomeAnd result (λ parts. (parts.0.now ≡ front) × (parts.1.now ≡ back)) }
{
    let place = first_place(text, mark)?;
    Some((&text[..place], &text[place + 1..]))
}

/// The node that a word names, from 1 to 16.
pub(crate) fn read_node(word: &[u8]) -> Option<NodeId>
    ensures found { IfSome result (λ n. IsNode n × (word.now ≡ node_word n)) }
    ensures only { (n : NodeId) → IsNode n → word.now ≡ node_word n → result ≡ Some n }
{
    let number = read_number(word, 1, 16)?;
    Some(NodeId(number as u8))
}

/// The transaction that a word names: a node, a point, and a seat from 0 to 7.
pub(crate) fn read_txn(word: &[u8]) -> Option<TxnId>
    ensures found { IfSome result (λ t. IsTxn t × (word.now ≡ txn_word t)) }
    ensures only { (t : TxnId) → IsTxn t → word.now ≡ txn_word t → result ≡ Some t }
{
    let (node, seat) = cut(word, b'.')?;
    let node = read_node(node)?;
    let seat = read_number(seat, 0, 7)? as u8;
    Some(TxnId { node, seat })
}

/// The key that a word names.
pub(crate) fn read_key(word: &[u8]) -> Option<Key>
    ensures found { IfSome result (λ k. IsKey k × (word.now ≡ key_word k)) }
    ensures only { (k : Key) → IsKey k → word.now ≡ key_word k → result ≡ Some k }
{
    let number = read_number(word, 0, u64::from(u32::MAX))?;
    Some(Key(number as u32))
}

//! The line that each reply is written as.

ghost use Rattle.std.specs.Prelude.{◌≡◌, ◌≢◌, ◌≤◌, ◌++◌, ◌∷◌, [], length, map, decimal};
ghost use Rattle.arrayvec.specs.ArrayVec.{array_vec_len};
ghost use Rattle.script_text.specs.Reply.{reply_words, reply_text};
ghost use Rattle.script_text.specs.Spelling.{spelled};
ghost use Rattle.script_text.specs.Words.{spaced, txn_word};

use crate::reply::Reply;
use crate::text::{ReplyText, put_number, put_spelled, put_text};
use sd_base::{TxnId, Value};

/// Writes the reply's line, with its line feed. `NoMore` has none.
pub fn write_reply(r: &Reply, out: &mut ReplyText)
    requires empty { out.old.items ≡ [] }
    requires printed { r.now ≢ Reply.NoMore }
    ensures { out.new.items ≡ reply_text r.now }
{
    put_words(r, out);
    put_text(out, b"\n");
}

/// Writes the words of a reply.
fn put_words(r: &Reply, out: &mut ReplyText)
    requires empty { out.old.items ≡ [] }
    requires printed { r.now ≢ Reply.NoMore }
    ensures items { out.new.items ≡ spaced (reply_words r.now) }
    ensures len { array_vec_len out.new ≤ 1099 }
{
    match *r {
        Reply::Fine => put_text(out, b"ok"),
        Reply::Found(value) => put_value(out, b"value", &[], &value),
        Reply::Absent => put_text(out, b"absent"),
        Reply::Flushed(count) => put_numbers(out, b"flushed", &[u64::from(count)]),
        Reply::Row(key, value) => put_value(out, b"record", &[u64::from(key.0)], &value),
        Reply::NoMore => unreachable!(),
        Reply::EndDump(count) => put_numbers(out, b"end", &[count]),
        Reply::StatUp(used, owed, room) => put_numbers(out, b"stat up", &[used, owed, room]),
        Reply::StatIdle => put_text(out, b"stat idle"),
        Reply::StatDown => put_text(out, b"stat down"),
        Reply::Bad => put_text(out, b"bad"),
        Reply::Closed => put_text(out, b"closed"),
        Reply::Formatted => put_text(out, b"formatted"),
        Reply::SmallDisk(need, have) => put_numbers(out, b"small disk", &[need, u64::from(have)]),
        Reply::SmallVault(need, have) => put_numbers(out, b"small vault", &[need, u64::from(have)]),
        Reply::NoMem => put_text(out, b"nomem"),
        Reply::NoNode(node) => put_numbers(out, b"nonode", &[u64::from(node.0)]),
        Reply::NotUp(node) => put_numbers(out, b"notup", &[u64::from(node.0)]),
        Reply::NotIdle(node) => put_numbers(out, b"notidle", &[u64::from(node.0)]),
        Reply::Busy(txn) => put_txn(out, b"busy", txn),
        Reply::Reopening(node) => put_numbers(out, b"reopening", &[u64::from(node.0)]),
        Reply::NotTxn(txn) => put_txn(out, b"notxn", txn),
        Reply::Locked(txn) => put_txn(out, b"locked", txn),
        Reply::LocksFull => put_text(out, b"locksfull"),
        Reply::Held(page, node) => put_numbers(
            out,
            b"held",
            &[u64::from(page.0), u64::from(node.0)],
        ),
        Reply::LostPage(page) => put_numbers(out, b"lost", &[u64::from(page.0)]),
        Reply::Limit(page) => put_numbers(out, b"limit", &[u64::from(page.0)]),
        Reply::NoSpace(page) => put_numbers(out, b"nospace", &[u64::from(page.0)]),
        Reply::TooLong(len) => put_numbers(out, b"toolong", &[u64::from(len)]),
        Reply::LogFull(need, room) => put_numbers(out, b"logfull", &[need, room]),
        Reply::Stopped(node) => put_numbers(out, b"stopped", &[u64::from(node.0)]),
        Reply::Fault(node) => put_numbers(out, b"fault", &[u64::from(node.0)]),
        Reply::DamagedDisk(block) => put_numbers(out, b"damaged disk", &[u64::from(block.0)]),
    }
}

/// Writes words and numbers, with a space before each number.
fn put_numbers(out: &mut ReplyText, words: &[u8], numbers: &[u64])
    requires empty { out.old.items ≡ [] }
    requires short { length words.now ≤ 20 }
    requires few { length numbers.now ≤ 3 }
    ensures items { out.new.items ≡ spaced (words.now ∷ map decimal numbers.now) }
    ensures len { array_vec_len out.new ≤ 83 }
{
    put_text(out, words);
    for number in numbers {
        put_text(out, b" ");
        put_number(out, *number);
    }
}

/// Writes a word, a space and a transaction.
fn put_txn(out: &mut ReplyText, word: &[u8], txn: TxnId)
    requires empty { out.old.items ≡ [] }
    requires short { length word.now ≤ 20 }
    ensures items { out.new.items ≡ spaced (word.now ∷ txn_word txn ∷ []) }
    ensures len { array_vec_len out.new ≤ 83 }
{
    put_text(out, word);
    put_text(out, b" ");
    put_number(out, u64::from(txn.node.0));
    put_text(out, b".");
    put_number(out, u64::from(txn.seat));
}

/// Writes a word, numbers and the spelling of a value, with a space before each.
fn put_value(out: &mut ReplyText, word: &[u8], numbers: &[u64], value: &Value)
    requires empty { out.old.items ≡ [] }
    requires short { length word.now ≤ 20 }
    requires few { length numbers.now ≤ 3 }
    ensures items { out.new.items ≡ spaced (word.now ∷ map decimal numbers.now ++ spelled value.now ∷ []) }
    ensures len { array_vec_len out.new ≤ 1099 }
{
    put_numbers(out, word, numbers);
    put_text(out, b" ");
    put_spelled(out, value.as_slice());
}

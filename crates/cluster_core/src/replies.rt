//! What came of a command becomes its reply.

ghost use Rattle.std.specs.Prelude.{◌≡◌};
ghost use Rattle.record_machine.specs.Rows.{next_key};
ghost use Rattle.store_commands.specs.Answering.{reply_deleted, reply_found, reply_of};
ghost use Rattle.cluster_core.specs.Answers.{reply_flushed};

use script_text::Reply;
use sd_base::{Key, Value};

/// The reply to a command of which nothing is asked but that it is done.
pub(crate) fn reply_of(done: Result<(), Reply>) -> Reply
    ensures { result ≡ reply_of done }
{
    match done {
        Ok(()) => Reply::Fine,
        Err(why) => why,
    }
}

/// The reply to a command that asks for a record.
pub(crate) fn reply_found(found: Result<Option<Value>, Reply>) -> Reply
    ensures { result ≡ reply_found found }
{
    match found {
        Ok(Some(value)) => Reply::Found(value),
        Ok(None) => Reply::Absent,
        Err(why) => why,
    }
}

/// The reply to a command that deletes a record, of which is told whether there was one.
pub(crate) fn reply_deleted(deleted: Result<bool, Reply>) -> Reply
    ensures { result ≡ reply_deleted deleted }
{
    match deleted {
        Ok(true) => Reply::Fine,
        Ok(false) => Reply::Absent,
        Err(why) => why,
    }
}

/// The reply to a command that writes the changed pages.
pub(crate) fn reply_flushed(written: Result<u32, Reply>) -> Reply
    ensures { result ≡ reply_flushed written }
{
    match written {
        Ok(count) => Reply::Flushed(count),
        Err(why) => why,
    }
}

/// The least key behind this one, or the least of all.
pub(crate) fn key_behind(after: Option<Key>) -> u64
    ensures { result ≡ next_key after }
{
    match after {
        Some(key) => u64::from(key.0) + 1,
        None => 0,
    }
}

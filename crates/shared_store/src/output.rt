//! The line of a reply is written to the sink and passed on at once.

ghost use Rattle.std.specs.Prelude.{◌≡◌, ◌≢◌, ◌≤◌, ◌++◌, ℕ, false, IsTrue, length, take, MatchBool};
ghost use Rattle.sd_base.specs.Disk.{Rose};
ghost use Rattle.script_text.specs.Reply.{reply_text};
ghost use Rattle.shared_store.specs.Output.{IsPart};

use script_text::{Reply, ReplyText, write_reply};
use sd_base::{Put, Sink};

/// Writes the line of a reply, and passes it on. False where the sink failed; then a part of the line,
/// perhaps all, is taken.
pub(crate) fn say<K: Sink>(sink: &mut K, reply: &Reply) -> bool
    requires printed { reply.now ≢ Reply.NoMore }
    ensures faults { (K.state sink.old).faults ≤ (K.state sink.new).faults }
    ensures cause { result ≡ false → Rose (K.state sink.old).faults (K.state sink.new).faults }
    ensures all { IsTrue K.told → IsTrue result → (K.state sink.new).taken ≡ (K.state sink.old).taken ++ reply_text reply.now }
    ensures flushed { IsTrue K.told → IsTrue result → (K.state sink.new).flushed ≡ length (K.state sink.new).taken }
    ensures part { IsTrue K.told → IsPart (K.state sink.old).taken (reply_text reply.now) (K.state sink.new).taken }
{
    let mut text = ReplyText::new();
    write_reply(reply, &mut text);
    send(sink, text.as_slice())
}

/// Writes all of the bytes, and passes them on. False where the sink failed; then a part of them,
/// perhaps all, is taken.
fn send<K: Sink>(sink: &mut K, bytes: &[u8]) -> bool
    ensures faults { (K.state sink.old).faults ≤ (K.state sink.new).faults }
    ensures cause { result ≡ false → Rose (K.state sink.old).faults (K.state sink.new).faults }
    ensures all { IsTrue K.told → IsTrue result → (K.state sink.new).taken ≡ (K.state sink.old).taken ++ bytes.now }
    ensures flushed { IsTrue K.told → IsTrue result → (K.state sink.new).flushed ≡ length (K.state sink.new).taken }
    ensures part { IsTrue K.told → IsPart (K.state sink.old).taken bytes.now (K.state sink.new).taken }
{
    write_all(sink, bytes) && sink.flush()
}

/// Writes all of the bytes.
fn write_all<K: Sink>(sink: &mut K, bytes: &[u8]) -> bool
    ensures faults { (K.state sink.old).faults ≤ (K.state sink.new).faults }
    ensures cause { result ≡ false → Rose (K.state sink.old).faults (K.state sink.new).faults }
    ensures all { IsTrue K.told → IsTrue result → (K.state sink.new).taken ≡ (K.state sink.old).taken ++ bytes.now }
    ensures part { IsTrue K.told → IsPart (K.state sink.old).taken bytes.now (K.state sink.new).taken }
{
    let mut sent = 0;
    while sent < bytes.len() {
        match sink.write(&bytes[sent..]) {
            Put::Took(0) | Put::Failed => return false,
            Put::Took(n) => sent += n,
        }
    }
    true
}

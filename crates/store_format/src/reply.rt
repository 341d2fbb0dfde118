//! What is answered where a device gives up.
ghost use Rattle.std.specs.Prelude.{◌≡◌};
ghost use Rattle.store_format.specs.FaultReply.{fault_reply};

use script_text::Reply;
use sd_base::DevFault;

/// What is answered where the disk gives up at a block that is no page.
pub fn fault_reply(fault: DevFault) -> Reply
    ensures { result ≡ fault_reply fault }
{
    match fault {
        DevFault::Stopped(n) => Reply::Stopped(n),
        DevFault::Failed(n) => Reply::Fault(n),
        DevFault::Lost(at) | DevFault::Damaged(at) => Reply::DamagedDisk(at),
    }
}

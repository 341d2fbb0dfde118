//! All ports of a device stop.
ghost use Rattle.std.specs.Prelude.{IsTrue};
ghost use Rattle.store_format.specs.Device.{IsIdle, TakesOver, ComesToRest};

use sd_base::{Disk, NodeId};

/// Stops all ports, so that no block has an uncovered write.
pub fn stop_all<D: Disk>(disk: &mut D)
    ensures idle { IsIdle (D.state disk.new) }
    ensures ports { TakesOver (D.state disk.old) (D.state disk.new) }
    ensures blocks { IsTrue D.told → ComesToRest (D.state disk.old).block (D.state disk.new).block }
{
    for n in 1..17 {
        disk.stop(NodeId(n), 0);
    }
}

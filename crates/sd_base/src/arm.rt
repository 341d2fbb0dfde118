//! Devices on which a stop or a failure can be ordered at a later call.
ghost use Rattle.std.specs.Prelude.{◌≡◌, ℕ, IsTrue};
ghost use Rattle.sd_base.specs.Disk.{IsPort};
ghost use Rattle.sd_base.specs.Calls.{IsOrdered};
ghost use Rattle.sd_base.specs.Arm.{Armed, ArmsCut, ArmsFault};

use crate::device::{Disk, NodeId};

/// A device whose ports can be armed: to be stopped in a write that is still to come, or to fail at a
/// call that is.
///
/// What is armed at a port is two counts and the picks that came with the first. What a count does
/// once it is due is for each device to say. Each of the two calls is an order: it changes what is
/// armed and the number of orders, and neither a block nor a port.
pub trait Arm: Disk {
    /// What is armed at each port.
    ghost armed: { Self → ℕ → Armed };

    /// Orders that the `writes`-th write of the port from now on is cut, and what its uncovered blocks
    /// are to hold then. 0 disarms.
    fn arm(&mut self, n: NodeId, writes: u32, picks: u64)
        requires { IsPort n.0 }
        ensures ports { IsOrdered (Self.state self.old) (Self.state self.new) }
        ensures blocks { IsTrue Self.told → (Self.state self.new).block ≡ (Self.state self.old).block }
        ensures armed { ArmsCut n.0 writes picks (armed self.old) (armed self.new) };

    /// Orders that the `calls`-th read, write or barrier of the port from now on fails. 0 disarms.
    fn fail(&mut self, n: NodeId, calls: u32)
        requires { IsPort n.0 }
        ensures ports { IsOrdered (Self.state self.old) (Self.state self.new) }
        ensures blocks { IsTrue Self.told → (Self.state self.new).block ≡ (Self.state self.old).block }
        ensures armed { ArmsFault n.0 calls (armed self.old) (armed self.new) };
}

//! Where parts of the runtime's code find each other.

ghost use Rattle.std.specs.Prelude.{◌≡◌, ◌+◌, ◌<◌, ℕ};
ghost use Rattle.runtime_code.specs.Addresses.{start_address};

/// Where an attempt starts, by the address of the boot: behind its first 10 bytes, which look at GATE; where there are events 6 stand in front
/// of them, which enable interrupts.
pub fn start_address(events: bool, boot: u16) -> u16
    requires { boot + 16 < 65536 }
    ensures { result ≡ start_address events boot }
{
    if events { boot + 16 } else { boot + 10 }
}

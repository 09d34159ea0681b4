// Sets of ports.
ghost use Rattle.std.specs.Prelude.{◌≡◌, ◌==◌};
ghost use Rattle.std.specs.Option.{option_map};
ghost use Rattle.frame.specs.Numbers.{port_number, set_bits, in_set, others, without, with_port, below};

use crate::numbers::{Port, PortSet};

impl PortSet {
    pub fn new(bits: u8) -> Option<PortSet>
        ensures { option_map set_bits result ≡ below 16 bits }
    {
        if bits > 15 {
            return None;
        }
        Some(PortSet { bits })
    }

    pub fn bits(self) -> u8
        ensures { result ≡ set_bits self }
    {
        self.bits
    }

    pub fn has(self, port: Port) -> bool
        ensures { result ≡ in_set (set_bits self) (port_number port) }
    {
        (self.bits >> port.number) % 2 == 1
    }

    pub fn is_empty(self) -> bool
        ensures { result ≡ (set_bits self == 0) }
    {
        matches!(self.bits, 0)
    }

    // All ports but this one.
    pub fn others(port: Port) -> PortSet
        ensures { set_bits result ≡ others (port_number port) }
    {
        PortSet {
            bits: 15 - port.weight(),
        }
    }

    pub fn without(self, port: Port) -> PortSet
        ensures { set_bits result ≡ without (set_bits self) (port_number port) }
    {
        if self.has(port) {
            PortSet {
                bits: self.bits - port.weight(),
            }
        } else {
            self
        }
    }

    pub fn with(self, port: Port) -> PortSet
        ensures { set_bits result ≡ with_port (set_bits self) (port_number port) }
    {
        if self.has(port) {
            return self;
        }
        PortSet {
            bits: self.bits + port.weight(),
        }
    }
}

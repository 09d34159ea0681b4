// Addresses.
ghost use Rattle.std.specs.Prelude.{◌≡◌, ◌^◌, ◌<◌};
ghost use Rattle.frame.specs.Numbers.{address_bits, number_at};

use crate::numbers::Address;

// The number whose bytes these are, the highest first.
pub fn six_bytes(bytes: [u8; 6]) -> u64
    ensures value { result ≡ number_at bytes 0 6 }
    ensures bound { result < 2 ^ 48 }
{
    let [a, b, c, d, e, f] = bytes;
    u64::from_be_bytes([0, 0, a, b, c, d, e, f])
}

// The address whose bytes these are, in the order of the line.
impl From<[u8; 6]> for Address {
    ghost from_gives = { λ bytes a. address_bits a ≡ number_at bytes 0 6 };

    fn from(bytes: [u8; 6]) -> Address
        ensures { address_bits result ≡ number_at bytes 0 6 }
    {
        Address {
            bits: six_bytes(bytes),
        }
    }
}

// The address of six zero bytes.
// By hand, since it cannot be derived on a struct with a ghost field.
impl Default for Address {
    ghost is_default = { λ a. address_bits a ≡ 0 };

    fn default() -> Address
        ensures { address_bits result ≡ 0 }
    {
        Address { bits: 0 }
    }
}

impl Address {
    // The address of every station: all ones.
    pub const BROADCAST: Address = Address {
        bits: (1 << 48) - 1,
    };

    pub fn bits(self) -> u64
        ensures { result ≡ address_bits self }
    {
        self.bits
    }
}

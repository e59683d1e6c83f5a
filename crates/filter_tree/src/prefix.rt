//! Network prefixes (RFC 4632, section 3.1).

ghost use Rattle.std.specs.Prelude.{◌≡◌, ◌↔◌, IfSome, IsSome};
ghost use Rattle.filter_tree.specs.Prefix.{IsPrefix, covers};

use std::marker::Model;

/// A network: the first bits of an address, whose other bits are 0.
#[derive(Clone, Copy, Debug, PartialEq, Eq)]
pub struct Prefix {
    address: u32,
    bits: u32,
}

impl Model for Prefix {
    ghost use Rattle.filter_tree.specs.Prefix.{IsPrefix, NetworkPrefix};

    ghost Value = { NetworkPrefix };

    ghost view = { λ p. record { address = p.address; bits = p.bits } };

    ghost invariant = { λ p. IsPrefix (record { address = p.address; bits = p.bits }) };

    ghost inverse = { λ p. record { address = p.address; bits = p.bits } };
}

impl Prefix {
    /// Makes a prefix from an address, in host order, and a number of bits. `None` if and only if that number is above
    /// 32 or a bit of the address past the prefix is set. Takes no memory.
    pub fn new(address: u32, length: u32) -> Option<Prefix>
        ensures prefix_exact { IsSome result ↔ IsPrefix (record { address = address; bits = length }) }
        ensures parts { IfSome result (λ prefix. prefix ≡ record { address = address; bits = length }) }
    {
        if length <= 32 && u64::from(address) % (1 << (32 - length)) == 0 {
            Some(Prefix {
                address,
                bits: length,
            })
        } else {
            None
        }
    }

    /// Returns the address, in host order.
    pub fn address(&self) -> u32
        ensures address { result ≡ self.now.address }
        ensures prefix { IsPrefix self.now }
    {
        self.address
    }

    /// Returns the number of bits, from 0 to 32.
    pub fn length(&self) -> u32
        ensures length { result ≡ self.now.bits }
        ensures prefix { IsPrefix self.now }
    {
        self.bits
    }

    /// Tests whether an address begins with the prefix.
    pub(crate) fn covers(&self, address: u32) -> bool
        ensures covers { result ≡ covers self.now address }
    {
        let other_bits = 32 - self.bits;
        u64::from(address) >> other_bits == u64::from(self.address) >> other_bits
    }
}

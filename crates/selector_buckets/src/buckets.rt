//! Tables of buckets.

ghost use Rattle.std.specs.Prelude.{◌≡◌, ◌*◌, ◌≤◌, ◌^◌, length};
ghost use Rattle.selector_buckets.specs.Buckets.{IsTable};
ghost use Rattle.selector_buckets.specs.Hash.{width_of};

use std::marker::Model;

/// A table of 1, 2, 4 .. 256 buckets: for each the index of a member.
#[derive(Drop)]
pub struct Buckets {
    depth: u32,
    members: Vec<u8>,
}

impl Model for Buckets {
    ghost use Rattle.selector_buckets.specs.Buckets.{BucketsValue, IsTable};

    ghost Value = { BucketsValue };

    ghost view = { λ b. record { depth = b.depth; members = b.members.items } };

    ghost invariant = { λ b. IsTable (record { depth = b.depth; members = b.members.items }) };
}

impl Buckets {
    /// Makes a table of its buckets, of which there are 2^depth.
    pub fn new(depth: u32, members: Vec<u8>) -> Buckets
        requires { IsTable (record { depth = depth; members = members.items }) }
        ensures { result ≡ record { depth = depth; members = members.items } }
    {
        Buckets { depth, members }
    }

    /// Returns the depth: there are 2^depth buckets.
    pub fn depth(&self) -> u32
        ensures depth { result ≡ self.now.depth }
        ensures table { IsTable self.now }
    {
        self.depth
    }

    /// Lends the index of the member of each bucket.
    pub fn members(&self) -> &[u8]
        ensures members { result.now ≡ self.now.members }
        ensures table { IsTable self.now }
    {
        self.members.as_slice()
    }

    /// Returns how many hashes fall into each bucket.
    pub fn width(&self) -> u64
        ensures width { result ≡ width_of (length self.now.members) }
        ensures whole { 2 ^ self.now.depth * result ≡ 2 ^ 32 }
    {
        (1 << 32) / self.members.len() as u64
    }
}

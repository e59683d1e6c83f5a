//! The protocols whose data the accessors on the two sides of a relation read.

ghost use Rattle.std.specs.Prelude.{◌≡◌, ◌+◌, ◌||◌, false, min};
ghost use Rattle.filter_tree.specs.declared.arithmetic.Protocol.TheVariants.{Icmp, Ip, Tcp, Udp};
ghost use Rattle.filter_tree.specs.Arithmetic.{accesses, is_same};
ghost use Rattle.filter_tree.specs.Measure.{weight_of_arith};
ghost use Rattle.filter_tree.specs.Truth.{accesses_of_both, any_accessor, any_transport, used_by};
ghost use Rattle.filter_tree.specs.View.{arith_tree_of};

use crate::arithmetic::{Arith, Protocol};
use std::alloc::Allocator;

/// The protocols whose data accessors read.
#[derive(Clone, Copy, Debug, PartialEq, Eq)]
pub struct Accesses {
    pub ip: bool,
    pub tcp: bool,
    pub udp: bool,
    pub icmp: bool,
}

impl Accesses {
    /// Returns those of a relation with these two sides. Visits each side once, and takes no memory.
    pub fn of_both<A: Allocator>(left: &Arith<A>, right: &Arith<A>) -> Accesses
        ensures ip { result.ip ≡ accesses_of_both (arith_tree_of left.now) (arith_tree_of right.now) Ip }
        ensures tcp { result.tcp ≡ accesses_of_both (arith_tree_of left.now) (arith_tree_of right.now) Tcp }
        ensures udp { result.udp ≡ accesses_of_both (arith_tree_of left.now) (arith_tree_of right.now) Udp }
        ensures icmp { result.icmp ≡ accesses_of_both (arith_tree_of left.now) (arith_tree_of right.now) Icmp }
    {
        Accesses::weigh_both(left, right).0
    }

    /// Returns the same, and the weight of both sides.
    #[inline(always)]
    pub(crate) fn weigh_both<A: Allocator>(left: &Arith<A>, right: &Arith<A>) -> (Accesses, u32)
        ensures ip { result.0.ip ≡ accesses_of_both (arith_tree_of left.now) (arith_tree_of right.now) Ip }
        ensures tcp { result.0.tcp ≡ accesses_of_both (arith_tree_of left.now) (arith_tree_of right.now) Tcp }
        ensures udp { result.0.udp ≡ accesses_of_both (arith_tree_of left.now) (arith_tree_of right.now) Udp }
        ensures icmp { result.0.icmp ≡ accesses_of_both (arith_tree_of left.now) (arith_tree_of right.now) Icmp }
        ensures weight { result.1 ≡ min (weight_of_arith (arith_tree_of left.now) + weight_of_arith (arith_tree_of right.now)) u32.MAX }
    {
        let mut used = Accesses::none();
        let right = used.weigh(right);
        let left = used.weigh(left);
        (used, left.saturating_add(right))
    }

    /// Tests whether any of them is a transport protocol: `tcp`, `udp` or `icmp`.
    pub fn any_transport(self) -> bool
        ensures any { result ≡ any_transport (used_by self) }
    {
        self.tcp || self.udp || self.icmp
    }

    /// Tests whether there is any.
    pub fn any(self) -> bool
        ensures any { result ≡ any_accessor (used_by self) }
    {
        self.ip || self.any_transport()
    }

    // Adds those of a side of a relation, and returns its weight. Usually a side is a number, which needs no call.
    #[inline(always)]
    fn weigh<A: Allocator>(&mut self, side: &Arith<A>) -> u32
        ensures ip { self.new.ip ≡ (accesses (arith_tree_of side.now) Ip || self.old.ip) }
        ensures tcp { self.new.tcp ≡ (accesses (arith_tree_of side.now) Tcp || self.old.tcp) }
        ensures udp { self.new.udp ≡ (accesses (arith_tree_of side.now) Udp || self.old.udp) }
        ensures icmp { self.new.icmp ≡ (accesses (arith_tree_of side.now) Icmp || self.old.icmp) }
        ensures weight { result ≡ min (weight_of_arith (arith_tree_of side.now)) u32.MAX }
    {
        match side {
            Arith::Number(_) => 1,
            _ => self.add(side),
        }
    }

    // Adds those of an arithmetic expression, and returns its weight. A part that is a number needs no call.
    fn add<A: Allocator>(&mut self, arith: &Arith<A>) -> u32
        ensures ip { self.new.ip ≡ (accesses (arith_tree_of arith.now) Ip || self.old.ip) }
        ensures tcp { self.new.tcp ≡ (accesses (arith_tree_of arith.now) Tcp || self.old.tcp) }
        ensures udp { self.new.udp ≡ (accesses (arith_tree_of arith.now) Udp || self.old.udp) }
        ensures icmp { self.new.icmp ≡ (accesses (arith_tree_of arith.now) Icmp || self.old.icmp) }
        ensures weight { result ≡ min (weight_of_arith (arith_tree_of arith.now)) u32.MAX }
    {
        match arith {
            Arith::Number(_) => 1,
            Arith::Length => 1,
            Arith::Accessor(Protocol::Ip, place, _) => {
                let weight = match place.as_ref() {
                    Arith::Number(_) => 1,
                    place => self.add(place),
                };
                self.ip = true;
                weight.saturating_add(2)
            }
            Arith::Accessor(own, index, _) => {
                let weight = match index.as_ref() {
                    Arith::Number(_) => 1,
                    index => self.add(index),
                };
                self.note(*own);
                weight.saturating_add(4)
            }
            Arith::Operation(left, _, right) => {
                let right = match right.as_ref() {
                    Arith::Number(_) => 1,
                    right => self.add(right),
                };
                let left = self.add(left);
                left.saturating_add(right).saturating_add(4)
            }
        }
    }

    fn note(&mut self, protocol: Protocol)
        ensures ip { self.new.ip ≡ (is_same protocol Ip || self.old.ip) }
        ensures tcp { self.new.tcp ≡ (is_same protocol Tcp || self.old.tcp) }
        ensures udp { self.new.udp ≡ (is_same protocol Udp || self.old.udp) }
        ensures icmp { self.new.icmp ≡ (is_same protocol Icmp || self.old.icmp) }
    {
        match protocol {
            Protocol::Ip => self.ip = true,
            Protocol::Tcp => self.tcp = true,
            Protocol::Udp => self.udp = true,
            Protocol::Icmp => self.icmp = true,
        }
    }

    fn none() -> Accesses
        ensures { result ≡ record { ip = false; tcp = false; udp = false; icmp = false } }
    {
        Accesses {
            ip: false,
            tcp: false,
            udp: false,
            icmp: false,
        }
    }
}

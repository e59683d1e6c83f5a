//! The primitives and relations that are known to be false before anything is tested.

ghost use Rattle.std.specs.Prelude.{◌≡◌, IsTrue, List, ℕ};
ghost use Rattle.filter_tree.specs.declared.truth.Truth.TheVariants.{No};
ghost use Rattle.filter_tree.specs.Primitive.{truth_of_primitive};
ghost use Rattle.filter_tree.specs.Truth.{guards, used_by};
ghost use Rattle.filter_facts.specs.Known.{Holds};
ghost use Rattle.filter_facts.specs.Told.{excludes_guards_of, excludes_of, has_no_ports, ip_of, is_no, protocol_of, transport_of};
ghost use Rattle.filter_facts.specs.body.Decided.{IsNotIp, IsNotProtocol, IsNotTransport, IsWithoutPorts};

use crate::known::Known;
use filter_tree::{Accesses, Primitive, Transport};

// A truth that may fail is never decided, so each test before the one that says no is known not to fail.
impl Known {
    fn is_not_ip(self) -> bool
        ensures exact { result ≡ is_no (ip_of self) }
        ensures known { IsTrue result → (packet : List ℕ) (a x : ℕ) → Holds self packet a x → IsNotIp packet }
    {
        matches!(self.ip(), Some(false))
    }

    fn is_not_protocol(self, n: u8) -> bool
        ensures exact { result ≡ is_no (protocol_of self n) }
        ensures known { IsTrue result → (packet : List ℕ) (a x : ℕ) → Holds self packet a x → IsNotProtocol n packet }
    {
        matches!(self.protocol(n), Some(false))
    }

    fn is_not_transport(self, transport: Transport) -> bool
        ensures exact { result ≡ is_no (transport_of self transport) }
        ensures known { IsTrue result → (packet : List ℕ) (a x : ℕ) → Holds self packet a x → IsNotTransport transport packet }
    {
        matches!(self.transport(transport), Some(false))
    }

    /// Tests whether a primitive is known to be false, so that no packet passes it: its test of the version or that of the
    /// protocol is known to be no.
    pub fn excludes(self, primitive: &Primitive) -> bool
        ensures exact { result ≡ excludes_of self primitive.now }
        ensures excluded { IsTrue result → (packet : List ℕ) (a x : ℕ) → Holds self packet a x → truth_of_primitive primitive.now packet ≡ No }
    {
        match primitive {
            Primitive::Ip => self.is_not_ip(),
            Primitive::Proto(n) => self.is_not_ip() || self.is_not_protocol(*n),
            Primitive::Host(_, _) => self.is_not_ip(),
            Primitive::Net(_, _) => self.is_not_ip(),
            Primitive::Port(transport, _, _) => self.excludes_ports(*transport),
            Primitive::PortRange(transport, _, _, _) => self.excludes_ports(*transport),
            Primitive::AtMost(_) => false,
            Primitive::AtLeast(_) => false,
        }
    }

    fn excludes_ports(self, transport: Transport) -> bool
        ensures exact { result ≡ has_no_ports self transport }
        ensures known { IsTrue result → (packet : List ℕ) (a x : ℕ) → Holds self packet a x → IsWithoutPorts transport packet }
    {
        self.is_not_ip() || self.is_not_transport(transport)
    }

    /// Tests whether the guards of a relation whose accessors read these protocols' data are known to be false.
    pub fn excludes_guards(self, used: Accesses) -> bool
        ensures exact { result ≡ excludes_guards_of self (used_by used) }
        ensures excluded { IsTrue result → (packet : List ℕ) (a x : ℕ) → Holds self packet a x → guards (used_by used) packet ≡ No }
    {
        let tcp = used.tcp && self.is_not_protocol(6);
        let udp = used.udp && self.is_not_protocol(17);
        let icmp = used.icmp && self.is_not_protocol(1);
        (used.any() && self.is_not_ip()) || tcp || udp || icmp
    }
}

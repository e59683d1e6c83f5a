//! Sends that come out short.

use super::devices::at_port;
use dispatch::{Failed, Outbox};
use ipv4_fields::Endpoint;
use serve_devices::{Egress, SocketOutbox};

// Takes at most three bytes of a datagram.
#[derive(Drop)]
struct Cutting;

impl Egress for Cutting {
    ghost use Rattle.std.specs.Prelude.{None};

    ghost taken = { λ _. None };

    ghost calls = { λ _. None };

    fn transmit(&mut self, _to: Endpoint, bytes: &[u8]) -> Result<usize, Failed> {
        Ok(bytes.len().min(3))
    }
}

#[test]
fn cut_send_fails(rt: HostRuntime) {
    let mut outbox = SocketOutbox::new(Cutting);
    assert!(rt; outbox.send(at_port(9001), &[1, 2, 3]) == Ok(()));
    assert!(rt; outbox.send(at_port(9001), &[1, 2, 3, 4]) == Err(Failed));
    assert!(rt; outbox.send(at_port(9001), &[]) == Ok(()));
}

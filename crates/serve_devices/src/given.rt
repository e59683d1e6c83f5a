//! What an ingress had given when it was closed.

use crate::channel::Taken;
use crate::received::Received;
use std::marker::Model;

/// The receives that an ingress gave before it was closed. Contracts see them, in order, if they are known.
#[derive(Drop)]
pub struct Given {
    taken: Option<Taken<Received>>,
}

impl Model for Given {
    ghost use Rattle.std.specs.Prelude.{List, Option, option_map};
    ghost use Rattle.serve_devices.specs.Channel.{all_taken};
    ghost use Rattle.serve_devices.specs.Ingress.{Receive};

    ghost Value = { Option (List Receive) };

    ghost view = { λ g. option_map all_taken g.taken };
}

impl Given {
    ghost use Rattle.std.specs.Prelude.{◌≡◌, None, Some};
    ghost use Rattle.serve_devices.specs.Channel.{all_taken};

    /// Of an ingress whose receives are not known.
    pub fn unknown() -> Given
        ensures unknown { result ≡ None }
    {
        Given { taken: None }
    }

    /// Of the end of a queue: what it took from its channel.
    pub(crate) fn of_queue(taken: Taken<Received>) -> Given
        ensures taken { result ≡ Some (all_taken taken) }
    {
        Given { taken: Some(taken) }
    }
}

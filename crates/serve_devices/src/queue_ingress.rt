//! The end of a worker's queue, to which another thread sends its receives through a channel
//! (docs/SWITCH.md, "Devices of a server").

ghost use Rattle.std.specs.Prelude.{◌≡◌, ◌≤◌, ◌↔◌, ◌++◌, ◌∷◌, IfOk, IfSome, IsErr, None, OnErr, Some, [], drop, length, min, take};
ghost use Rattle.serve_devices.specs.Channel.{AreOneChannel, IsFirstOf, IsSameReceiver, IsSameSender, put_by, taken_from};
ghost use Rattle.serve_devices.specs.Ingress.{IsNext};

use crate::channel::{ChannelReceiver, ChannelSender, taken_first};
use crate::given::Given;
use crate::ingress::Ingress;
use crate::received::Received;
use dispatch::Failed;
use std::sync::Wait;

/// The end of a queue. No more receives come once it is empty and the other side is gone. The receives to come are not
/// known, but those that it has given are: what it took from the queue.
#[derive(Drop)]
pub struct QueueIngress<'a, R: Wait> {
    rt: &'a R,
    arriving: ChannelReceiver<Received>,
    // Takes back the receives that were opened, so that their memory is used again.
    opened: ChannelSender<Received>,
}

impl<'a, R: Wait> QueueIngress<'a, R> {
    /// Takes the channel that receives come through, and one through which they go back once they were opened.
    pub fn new(
        rt: &'a R,
        arriving: ChannelReceiver<Received>,
        opened: ChannelSender<Received>,
    ) -> QueueIngress<'a, R>
        ensures end { IsSameReceiver arriving result.arriving }
    {
        QueueIngress {
            rt,
            arriving,
            opened,
        }
    }

    // Its channel, beside the channel's other end.
    pub(crate) fn beside(
        self,
        sender: ChannelSender<Received>,
    ) -> (QueueIngress<'a, R>, ChannelSender<Received>)
        requires one_channel { AreOneChannel sender self.arriving }
        ensures first { IsFirstOf (taken_from self.entry.arriving) (put_by sender) }
        ensures same_receiver { IsSameReceiver self.entry.arriving result.0.arriving }
        ensures same_sender { IsSameSender sender result.1 }
    {
        let QueueIngress {
            rt,
            arriving,
            opened,
        } = self;
        let (sender, arriving) = taken_first(sender, arriving);
        (QueueIngress::new(rt, arriving, opened), sender)
    }

    // Opens a receive into the buffer, and sends it back.
    fn open(&mut self, received: Received, buf: &mut [u8]) -> Result<usize, Failed>
        ensures failed { IsErr result ↔ (received ≡ None) }
        ensures size { IfOk result (λ size. IfSome received (λ datagram. size ≡ min (length datagram) (length buf.old))) }
        ensures copied { IfOk result (λ size. IfSome received (λ datagram. buf.new ≡ take size datagram ++ drop size buf.old)) }
        ensures kept { OnErr result (buf.new ≡ buf.old) }
        ensures next { IsNext buf.new (Some result) (received ∷ []) [] }
        ensures end { self.new.arriving ≡ self.old.arriving }
    {
        let size = received.open(buf);
        self.opened.offer(self.rt, received);
        size
    }
}

impl<'a, R: Wait> Ingress for QueueIngress<'a, R> {
    ghost use Rattle.std.specs.Prelude.{None, Some};
    ghost use Rattle.serve_devices.specs.Channel.{taken_from};
    ghost use Rattle.serve_devices.specs.Ingress.{HasGiven};
    ghost use Rattle.serve_devices.specs.Queues.{IsSameEnd, given_by};

    ghost coming = { λ _. None };

    ghost past = { λ q. Some (taken_from q.arriving) };

    fn receive(&mut self, buf: &mut [u8]) -> Option<Result<usize, Failed>>
        ensures within { IfSome result (λ received. IfOk received (λ size. size ≤ length buf.new)) }
        ensures in_order { HasGiven buf.new result (Some (given_by self.old)) (Some (given_by self.new)) }
        ensures same_queue { IsSameEnd self.old self.new }
    {
        let received = self.arriving.take(self.rt)?;
        Some(self.open(received, buf))
    }

    fn try_receive(&mut self, buf: &mut [u8]) -> Option<Result<usize, Failed>>
        ensures within { IfSome result (λ received. IfOk received (λ size. size ≤ length buf.new)) }
        ensures in_order { HasGiven buf.new result (Some (given_by self.old)) (Some (given_by self.new)) }
        ensures same_queue { IsSameEnd self.old self.new }
    {
        let received = self.arriving.poll(self.rt)?;
        Some(self.open(received, buf))
    }

    fn close(self) -> Given {
        let QueueIngress { arriving, .. } = self;
        Given::of_queue(arriving.close())
    }
}

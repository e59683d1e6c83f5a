//! Both ends of a channel, as it is opened and once they are in one hand again.

ghost use Rattle.std.specs.Prelude.{◌≡◌, ◌<◌, IfOk, []};
ghost use Rattle.serve_devices.specs.Channel.{AreOneChannel, IsFirstOf, IsSameReceiver, IsSameSender, put_by, taken_from};

use super::{ChannelReceiver, ChannelSender, Ends, InOrder, Rest, Share};
use crossbeam_channel::bounded_with;
use std::alloc::{AllocError, Global};

/// Opens a channel for at most `places` values. Takes its memory from the allocator.
pub fn open_channel<T: Drop>(
    alloc: Global,
    places: usize,
) -> Result<(ChannelSender<T>, ChannelReceiver<T>), AllocError>
    requires { 0 < places }
    ensures one_channel { IfOk result (λ ends. AreOneChannel ends.0 ends.1) }
    ensures none_put { IfOk result (λ ends. put_by ends.0 ≡ []) }
    ensures none_taken { IfOk result (λ ends. taken_from ends.1 ≡ []) }
{
    // The reason: docs/INTERNALS.md, "Queues".
    let (sender, receiver, mut pass) = bounded_with::<T, Share<T>, InOrder, Global>(alloc, places)?;
    let other = sender.another::<Ends>(&mut pass);
    Ok((
        ChannelSender { end: sender, pass },
        ChannelReceiver {
            end: receiver,
            pass: other,
        },
    ))
}

/// Law: what was taken from a channel is, in order, the first of what was put in. It runs no step of the channel
/// that changes it.
pub fn taken_first<T: Drop>(
    sender: ChannelSender<T>,
    receiver: ChannelReceiver<T>,
) -> (ChannelSender<T>, ChannelReceiver<T>)
    requires one_channel { AreOneChannel sender receiver }
    ensures first { IsFirstOf (taken_from receiver) (put_by sender) }
    ensures same { IsSameSender sender result.0 × IsSameReceiver receiver result.1 }
{
    let ChannelSender { end, mut pass } = sender;
    let ChannelReceiver {
        end: from,
        pass: other,
    } = receiver;
    end.absorb::<Ends>(&mut pass, other);
    end.learn_as::<Rest>(&mut pass);
    let other = end.another::<Ends>(&mut pass);
    (
        ChannelSender { end, pass },
        ChannelReceiver {
            end: from,
            pass: other,
        },
    )
}

//! A bounded channel from one thread to another. Once it is made it takes no lock and no memory.

ghost use Rattle.std.specs.Prelude.{◌≡◌, ◌⊎◌, MatchOption, OnErr, OnOk, true};
ghost use Rattle.crossbeam_channel.specs.Claims.{IsSeatAt, view};
ghost use Rattle.crossbeam_channel.specs.Ends.{receives_on, sends_on};

mod pair;

use crossbeam_channel::protocol::{Join, Lesson, Outcome, Protocol, Split};
use crossbeam_channel::{Pass, RuledReceiver, RuledSender};
pub use pair::{open_channel, taken_first};
use std::alloc::Global;
use std::collections::LinkedList;
use std::sync::Wait;

// What a pass may do, what was put by it, and what was taken by it. No value of it is made.
pub struct Share<T> {
    pub puts: bool,
    pub takes: bool,
    pub put: LinkedList<T>,
    pub taken: LinkedList<T>,
}

// The rule: what was put is what was taken, and then what the channel holds.
struct InOrder;

impl<T> Protocol<T, Share<T>> for InOrder {
    ghost use Rattle.std.specs.Prelude.{[], true};
    ghost use Rattle.serve_devices.specs.body.InOrder.{IsInOrder, share};

    ghost holds = { IsInOrder };

    ghost first = { share true true [] [] };
}

// Gives one end the right to put and the other the right to take, and takes both back.
struct Ends;

impl<T> Split<Share<T>> for Ends {
    ghost use Rattle.std.specs.Prelude.{[], false, true};
    ghost use Rattle.serve_devices.specs.body.InOrder.{share};

    ghost left = { λ v. share true false v.put [] };

    ghost right = { λ v. share false true [] v.taken };
}

impl<T> Join<Share<T>> for Ends {
    ghost use Rattle.std.specs.Prelude.{[], false, true};
    ghost use Rattle.serve_devices.specs.body.InOrder.{share};

    ghost both = { λ v w. share true true v.put w.taken };

    ghost spent = { share false false [] [] };
}

struct Puts;

impl<T> Outcome<T, Share<T>> for Puts {
    ghost use Rattle.std.specs.Prelude.{◌≡◌, ◌++◌, ◌∷◌, []};
    ghost use Rattle.serve_devices.specs.body.InOrder.{share};

    ghost then = { λ v x w. w ≡ share v.puts v.takes (v.put ++ x ∷ []) v.taken };
}

impl<T> Lesson<T, Share<T>> for Puts {
    ghost use Rattle.std.specs.Prelude.{⊤};

    ghost fact = { λ v items. ⊤ };
}

struct Takes;

impl<T> Outcome<T, Share<T>> for Takes {
    ghost use Rattle.std.specs.Prelude.{◌≡◌, ◌++◌, ◌∷◌, []};
    ghost use Rattle.serve_devices.specs.body.InOrder.{share};

    ghost then = { λ v x w. w ≡ share v.puts v.takes v.put (v.taken ++ x ∷ []) };
}

impl<T> Lesson<T, Share<T>> for Takes {
    ghost use Rattle.std.specs.Prelude.{⊤};

    ghost fact = { λ v items. ⊤ };
}

// What is learned by who may do both.
struct Rest;

impl<T> Lesson<T, Share<T>> for Rest {
    ghost use Rattle.std.specs.Prelude.{◌≡◌, ◌++◌};

    ghost fact = { λ v items. v.put ≡ v.taken ++ items };
}

/// The other end of a channel is gone. Only a put that failed returns one.
#[derive(Drop)]
pub struct Gone(());

/// The end of a channel into which values are put. Contracts see what was put.
#[derive(Drop)]
pub struct ChannelSender<T: Drop> {
    end: RuledSender<T, Share<T>, InOrder, Global>,
    pass: Pass<T, Share<T>>,
    ghost seat: { IsSeatAt (sends_on end) pass },
    ghost right: { (view pass).puts ≡ true },
}

/// The end from which values are taken. Contracts see what was taken.
#[derive(Drop)]
pub struct ChannelReceiver<T: Drop> {
    end: RuledReceiver<T, Share<T>, InOrder, Global>,
    pass: Pass<T, Share<T>>,
    ghost seat: { IsSeatAt (receives_on end) pass },
    ghost right: { (view pass).takes ≡ true },
}

/// What was taken from a channel by an end that is gone. Contracts see it.
#[derive(Drop)]
pub struct Taken<T: Drop> {
    pass: Pass<T, Share<T>>,
}

impl<T: Drop> ChannelSender<T> {
    ghost use Rattle.serve_devices.specs.Channel.{HasPut, IsSameSender};

    /// Puts a value in, and waits for a place. If the other end is gone, the value is dropped.
    pub fn put<R: Wait>(&mut self, rt: &R, value: T) -> Result<(), Gone>
        ensures put { OnOk result (HasPut self.old self.new value) }
        ensures kept { OnErr result (IsSameSender self.old self.new) }
    {
        match self.end.send_as::<Puts, R>(rt, &mut self.pass, value) {
            Ok(()) => Ok(()),
            Err(_) => Err(Gone(())),
        }
    }

    /// Puts a value in if there is a place for it, and otherwise drops it.
    pub fn offer<R: Wait>(&mut self, rt: &R, value: T)
        ensures put_or_kept { HasPut self.old self.new value ⊎ IsSameSender self.old self.new }
    {
        let _ = self.end.try_send_as::<Puts, R>(rt, &mut self.pass, value);
    }
}

impl<T: Drop> ChannelReceiver<T> {
    ghost use Rattle.serve_devices.specs.Channel.{HasTaken, IsSameReceiver, all_taken, taken_from};

    /// Takes the next value, and waits for it. `None` if there is none and the other end is gone.
    pub fn take<R: Wait>(&mut self, rt: &R) -> Option<T>
        ensures taken { MatchOption result (IsSameReceiver self.old self.new) (HasTaken self.old self.new) }
    {
        self.end.recv_as::<Takes, R>(rt, &mut self.pass).ok()
    }

    /// Takes the next value, if there is one.
    pub fn poll<R: Wait>(&mut self, rt: &R) -> Option<T>
        ensures taken { MatchOption result (IsSameReceiver self.old self.new) (HasTaken self.old self.new) }
    {
        self.end.try_recv_as::<Takes, R>(rt, &mut self.pass).ok()
    }

    /// Drops the end: no put succeeds any more.
    pub fn close(self) -> Taken<T>
        ensures same { all_taken result ≡ taken_from self }
    {
        let ChannelReceiver { end, pass } = self;
        drop(end);
        Taken { pass }
    }
}

//! The source of a worker: its receives, with one receive ahead (docs/SWITCH.md, "Devices of a server").

ghost use Rattle.std.specs.Prelude.{◌≡◌, ◌≢◌, ◌≤◌, IfOk, IfSome, None, Some, [], false, length, option_map, take};
ghost use Rattle.dispatch.specs.Device.{AreGivenAfter, CountsFailure, Gives, IsAtEnd, given_in};
ghost use Rattle.serve_devices.specs.Devices.{CountsReceive, GivesAfter, GivesNext, new_source, source_of};
ghost use Rattle.serve_devices.specs.Ingress.{IsEnded, cut_to};
ghost use Rattle.serve_devices.specs.body.Ahead.{ComesAfter, IsLast, coming_in, coming_of, past_in, past_of, with_ahead};

use crate::given::Given;
use crate::ingress::Ingress;
use dispatch::{COUNT_LIMIT, Failed, Source};
use std::marker::Model;
use std::mem::replace;

/// The most receives that a source gives. A batch counts each at most twice, so a counter that began at 0 never gets
/// full.
/// The reason: docs/DECISIONS.md, "A source ends itself".
pub const RECEIVE_LIMIT: u64 = COUNT_LIMIT / 2 - 1;

/// A source over an ingress. It ends when the ingress does, and after `RECEIVE_LIMIT` receives; then it closes the ingress.
///
/// `would_wait` receives ahead, so a datagram that is there already costs one receive in all. Contracts see how often the source failed,
/// how many receives it still gives at most, the receives to come, and those that it has given.
#[derive(Drop)]
pub struct WorkerSource<I: Ingress + Drop> {
    // The ingress, or what it gave, once it is closed.
    ingress: Result<I, Given>,
    // The receive ahead, if there is one; its datagram is in the front of `room`.
    ahead: Option<Result<usize, Failed>>,
    room: Vec<u8>,
    left: u64,
    failures: u64,
}

impl<I: Ingress + Drop> Model for WorkerSource<I> {
    ghost use Rattle.std.specs.Prelude.{◌+◌, ◌≡◌, ◌≤◌, IfOk, IfSome, None, length};
    ghost use Rattle.serve_devices.specs.Devices.{WorkerSourceValue};
    ghost use Rattle.serve_devices.specs.body.Ahead.{IsLast, coming_in, coming_of, past_in, past_of};
    ghost use Rattle.serve_devices.specs.declared.worker_source.TheConstants.{RECEIVE_LIMIT};

    ghost Value = { WorkerSourceValue };

    ghost view = { λ s. record {
      failures = s.failures;
      left = s.left;
      room = length s.room.items;
      coming = coming_of s.room.items s.ahead (coming_in I.coming s.ingress);
      past = past_of s.room.items s.ahead (past_in I.past s.ingress);
    } };

    ghost invariant = { λ s.
        (s.failures + s.left ≤ RECEIVE_LIMIT) × IfSome s.ahead (λ received. IfOk received (λ size. size ≤ length s.room.items))
        × IsLast s.room.items s.ahead (past_in I.past s.ingress) × (s.left ≡ 0 → s.ahead ≡ None) };
}

// Copies the bytes into the front of the buffer, cut to it, and returns how many were copied.
fn copy_into(bytes: &[u8], buf: &mut [u8]) -> usize
    ensures within { result ≤ length buf.new }
    ensures copied { take result buf.new ≡ take (length buf.new) bytes.now }
{
    let size = bytes.len().min(buf.len());
    buf[..size].copy_from_slice(&bytes[..size]);
    size
}

// Takes the receive ahead, or waits for the next one.
fn take_next<I: Ingress>(
    ingress: &mut Result<I, Given>,
    ahead: &mut Option<Result<usize, Failed>>,
    room: &mut Vec<u8>,
) -> Option<Result<usize, Failed>>
    requires within { IfSome ahead.old (λ received. IfOk received (λ size. size ≤ length room.old.items)) }
    requires last { IsLast room.old.items ahead.old (past_in I.past ingress.old) }
    ensures within { IfSome result (λ received. IfOk received (λ size. size ≤ length room.new.items)) }
    ensures room { length room.new.items ≡ length room.old.items }
    ensures ahead { ahead.new ≡ None }
    ensures given { coming_of room.old.items ahead.old (coming_in I.coming ingress.old)
        ≡ option_map (with_ahead room.new.items result) (coming_of room.new.items ahead.new (coming_in I.coming ingress.new)) }
    ensures in_order { ComesAfter room.new.items result (past_of room.old.items ahead.old (past_in I.past ingress.old))
        (past_of room.new.items ahead.new (past_in I.past ingress.new)) }
    ensures end { result ≡ None → IsEnded (coming_of room.new.items ahead.new (coming_in I.coming ingress.new)) }
{
    if let Some(received) = ahead.take() {
        return Some(received);
    }
    match ingress {
        Ok(ingress) => ingress.receive(room),
        Err(_) => None,
    }
}

// Receives ahead, if something has come and nothing was received ahead already.
// The reason: docs/INTERNALS.md, "A receive ahead instead of a look".
fn look_ahead<I: Ingress>(
    ingress: &mut Result<I, Given>,
    ahead: &mut Option<Result<usize, Failed>>,
    room: &mut Vec<u8>,
)
    requires within { IfSome ahead.old (λ received. IfOk received (λ size. size ≤ length room.old.items)) }
    requires last { IsLast room.old.items ahead.old (past_in I.past ingress.old) }
    ensures within { IfSome ahead.new (λ received. IfOk received (λ size. size ≤ length room.new.items)) }
    ensures room { length room.new.items ≡ length room.old.items }
    ensures kept { coming_of room.new.items ahead.new (coming_in I.coming ingress.new)
        ≡ coming_of room.old.items ahead.old (coming_in I.coming ingress.old) }
    ensures past_kept { past_of room.new.items ahead.new (past_in I.past ingress.new)
        ≡ past_of room.old.items ahead.old (past_in I.past ingress.old) }
    ensures last { IsLast room.new.items ahead.new (past_in I.past ingress.new) }
{
    if ahead.is_some() {
        return;
    }
    if let Ok(ingress) = ingress {
        *ahead = ingress.try_receive(room);
    }
}

// Closes the ingress, unless it is closed already.
fn close<I: Ingress + Drop>(ingress: &mut Result<I, Given>)
    ensures coming { coming_in I.coming ingress.new ≡ Some [] }
    ensures past { past_in I.past ingress.new ≡ past_in I.past ingress.old }
{
    let given = match replace(ingress, Err(Given::unknown())) {
        Ok(ingress) => ingress.close(),
        Err(given) => given,
    };
    *ingress = Err(given);
}

impl<I: Ingress + Drop> WorkerSource<I> {
    /// Takes the ingress, and the room for the longest datagram: a longer one is cut to it.
    pub fn new(ingress: I, room: Vec<u8>) -> WorkerSource<I>
        ensures new { result ≡ new_source (length room.items) (option_map (cut_to (length room.items)) (I.coming ingress))
            (option_map (cut_to (length room.items)) (I.past ingress)) }
    {
        WorkerSource {
            ingress: Ok(ingress),
            ahead: None,
            room,
            left: RECEIVE_LIMIT,
            failures: 0,
        }
    }
}

impl<I: Ingress + Drop> Source for WorkerSource<I> {
    ghost use Rattle.serve_devices.specs.Devices.{source_of};

    ghost state = { source_of };

    fn next(&mut self, buf: &mut [u8]) -> Result<Option<usize>, Failed>
        ensures device_failed { CountsFailure result self.old.failures self.new.failures }
        ensures within { IfOk result (λ answer. IfSome answer (λ size. size ≤ length buf.new)) }
        ensures given_once { Gives (length buf.new) (source_of self.old).coming (source_of self.new).coming (given_in buf.new result) }
        ensures given_in_order { AreGivenAfter (length buf.new) (source_of self.old).given (source_of self.new).given (given_in buf.new result) }
        ensures end { result ≡ Ok None → IsAtEnd (source_of self.new).coming }
        ensures counts_receive { CountsReceive result self.old.left self.new.left }
        ensures next { GivesNext buf.new result self.old self.new }
        ensures in_order { GivesAfter buf.new result self.old.past self.new.past }
        ensures room { self.new.room ≡ self.old.room }
    {
        if self.left == 0 {
            close(&mut self.ingress);
            return Ok(None);
        }
        match take_next(&mut self.ingress, &mut self.ahead, &mut self.room) {
            Some(Ok(size)) => {
                self.left -= 1;
                Ok(Some(copy_into(&self.room[..size], buf)))
            }
            Some(Err(failed)) => {
                self.left -= 1;
                self.failures += 1;
                Err(failed)
            }
            None => {
                close(&mut self.ingress);
                self.left = 0;
                Ok(None)
            }
        }
    }

    fn would_wait(&mut self) -> bool
        ensures same { self.new ≡ self.old }
        ensures has_one { result ≡ false → self.new.coming ≢ Some [] }
    {
        if self.left > 0 {
            look_ahead(&mut self.ingress, &mut self.ahead, &mut self.room);
        }
        self.ahead.is_none()
    }
}

//! The places of the clients: who is admitted, and whose turn it is.

ghost use Rattle.std.specs.Prelude.{◌≡◌, ◌<◌, IfOk, MatchBool, None, replicate, vec_len};
ghost use Rattle.serve_unix.specs.declared.clients.TheConstants.{CLIENTS};
ghost use Rattle.serve_unix.specs.Connections.{IsUntouched};
ghost use Rattle.serve_unix.specs.Places.{HasAccepted, HasAcceptedOnce, HaveTurns, IsAdmitted, IsFirstFrom, IsNextOf, IsPut, IsSomeActive, IsTurnGiven, IsWoken, is_active_in, is_free, is_stop, no_clients, number_in};

use crate::client::{Client, turn_in};
use crate::connections::{Accepted, Connections};
use serve_stream::{AnswersClients, Conversation, Stream, Turn};
use std::alloc::{AllocError, Global};

/// The most clients at a time.
pub const CLIENTS: usize = 16;

/// The clients, each in a place.
#[derive(Drop)]
pub struct Clients<S: Stream> {
    places: Vec<Option<Client<S>>>,
    // The place that has the next turn if its client is active.
    next: usize,
    admitted: u64,
    ghost of_places: { vec_len places ≡ CLIENTS },
}

// Returns `CLIENTS` empty places.
fn empty_places<S: Stream + Drop>(alloc: Global) -> Result<Vec<Option<Client<S>>>, AllocError>
    ensures { IfOk result (λ places. places.items ≡ replicate CLIENTS None) }
{
    let mut places = Vec::with_capacity(alloc, CLIENTS)?;
    for _place in 0..CLIENTS {
        let Ok(()) = places.push(None) else {
            return Err(AllocError);
        };
    }
    Ok(places)
}

fn is_active<S: Stream>(place: &Option<Client<S>>) -> bool
    ensures { result ≡ is_active_in place.now }
{
    match place {
        Some(client) => client.is_active,
        None => false,
    }
}

fn is_free<S: Stream>(place: &Option<Client<S>>) -> bool
    ensures { result ≡ is_free place.now }
{
    match place {
        Some(_) => false,
        None => true,
    }
}

// The number of the client in a place, 0 if there is none.
fn number_in<S: Stream>(place: &Option<Client<S>>) -> u64
    ensures { result ≡ number_in place.now }
{
    match place {
        Some(client) => client.number,
        None => 0,
    }
}

// Whether a client asked the service to stop.
fn is_stop(turn: Turn) -> bool
    ensures { result ≡ is_stop turn }
{
    match turn {
        Turn::Stop => true,
        Turn::Went | Turn::Waits | Turn::Closed => false,
    }
}

// The first of the places from this one on that has an active client.
fn first_active<S: Stream>(places: &[Option<Client<S>>], from: usize) -> Option<usize>
    ensures { IsFirstFrom is_active_in places.now from result }
{
    for (at, place) in places.iter().enumerate() {
        if at >= from && is_active(place) {
            return Some(at);
        }
    }
    None
}

// The first of the places from this one on that has no client.
fn first_free<S: Stream>(places: &[Option<Client<S>>], from: usize) -> Option<usize>
    ensures { IsFirstFrom is_free places.now from result }
{
    for (at, place) in places.iter().enumerate() {
        if at >= from && is_free(place) {
            return Some(at);
        }
    }
    None
}

impl<S: Stream + Drop> Clients<S> {
    /// Takes the memory for the places, which are empty. The first client that is admitted has number 1.
    pub fn new(alloc: Global) -> Result<Clients<S>, AllocError>
        ensures { IfOk result (λ clients. record { seats = clients.places.items; next = clients.next; admitted = clients.admitted } ≡ no_clients) }
    {
        Ok(Clients {
            places: empty_places(alloc)?,
            next: 0,
            admitted: 0,
        })
    }

    // Finds a place without a client: the first from the one on that has the next turn. Clients that come one after the
    // other thus have their first turns in this order.
    fn free_place(&self) -> Option<usize>
        ensures { IsNextOf is_free self.now.places.items self.now.next result }
    {
        match first_free(&self.places, self.next) {
            Some(place) => Some(place),
            None => first_free(&self.places, 0),
        }
    }

    // Puts a client into a place without one.
    fn put(&mut self, place: usize, stream: S, conversation: Conversation)
        requires { place < CLIENTS }
        ensures { IsPut place stream conversation
            (record { seats = self.old.places.items; next = self.old.next; admitted = self.old.admitted })
            (record { seats = self.new.places.items; next = self.new.next; admitted = self.new.admitted }) }
    {
        self.admitted = self.admitted.saturating_add(1);
        self.places[place] = Some(Client {
            stream,
            conversation,
            number: self.admitted,
            is_active: true,
        });
    }

    // Admits a client that was accepted. If there is no place for it, or no memory, its connection is closed at once.
    fn admit<C: Connections<S>>(&mut self, alloc: Global, connections: &mut C, mut stream: S)
        requires { IsUntouched (S.log stream) }
        ensures { IsAdmitted S.log (C.log connections.old) (C.log connections.new)
            (record { seats = self.old.places.items; next = self.old.next; admitted = self.old.admitted })
            (record { seats = self.new.places.items; next = self.new.next; admitted = self.new.admitted }) }
    {
        let Some(place) = self.free_place() else {
            connections.close(stream);
            return;
        };
        if !connections.watch(&mut stream, place) {
            connections.close(stream);
            return;
        }
        let Ok(conversation) = Conversation::new(alloc) else {
            connections.close(stream);
            return;
        };
        self.put(place, stream, conversation);
    }

    // Accepts a client, if one waits. False if none can be accepted now.
    fn accept_one<C: Connections<S>>(&mut self, alloc: Global, connections: &mut C) -> bool
        ensures { HasAcceptedOnce S.log result (C.log connections.old) (C.log connections.new)
            (record { seats = self.old.places.items; next = self.old.next; admitted = self.old.admitted })
            (record { seats = self.new.places.items; next = self.new.next; admitted = self.new.admitted }) }
    {
        match connections.accept() {
            Accepted::Client(stream) => {
                self.admit(alloc, connections, stream);
                true
            }
            Accepted::Interrupted => true,
            Accepted::NotYet => false,
        }
    }

    /// Accepts clients until nobody waits, at most as many as there are places. One for whom there is no place is closed at once.
    pub fn accept<C: Connections<S>>(&mut self, alloc: Global, connections: &mut C)
        ensures accepted_each { HasAccepted S.log (C.log connections.old) (C.log connections.new)
            (record { seats = self.old.places.items; next = self.old.next; admitted = self.old.admitted })
            (record { seats = self.new.places.items; next = self.new.next; admitted = self.new.admitted }) }
    {
        for _client in 0..CLIENTS {
            if !self.accept_one(alloc, connections) {
                return;
            }
        }
    }

    /// Notes that the client in a place may have something to do.
    pub fn wake(&mut self, place: usize)
        ensures woken { IsWoken place self.old.places.items self.new.places.items }
        ensures next { self.new.next ≡ self.old.next }
        ensures admitted { self.new.admitted ≡ self.old.admitted }
    {
        if place < CLIENTS
            && let Some(client) = &mut self.places[place]
        {
            client.is_active = true;
        }
    }

    /// Tests whether a client may have something to do.
    pub fn is_active(&self) -> bool
        ensures { MatchBool result (IsSomeActive self.now.places.items) (IsFirstFrom is_active_in self.now.places.items 0 None) }
    {
        match first_active(&self.places, 0) {
            Some(_) => true,
            None => false,
        }
    }

    // Chooses the client whose turn is next, and returns its place.
    fn next_turn(&self) -> Option<usize>
        ensures { IsNextOf is_active_in self.now.places.items self.now.next result }
    {
        match first_active(&self.places, self.next) {
            Some(place) => Some(place),
            None => first_active(&self.places, 0),
        }
    }

    // Gives the client whose turn is next its turn, if one may have something to do.
    fn give_turn<A: AnswersClients, C: Connections<S>>(
        &mut self,
        answers: &mut A,
        connections: &mut C,
    ) -> Option<Turn>
        ensures { IsTurnGiven S.log A.exchanges A.notes A.turns_to answers.old answers.new (C.log connections.old) (C.log connections.new)
            (record { seats = self.old.places.items; next = self.old.next; admitted = self.old.admitted })
            (record { seats = self.new.places.items; next = self.new.next; admitted = self.new.admitted }) result }
    {
        let place = self.next_turn()?;
        self.next = place + 1;
        answers.turn_to(number_in(&self.places[place]));
        Some(turn_in(&mut self.places[place], answers, connections))
    }

    /// Gives clients that may have something to do their turns, one after the other, at most as many as `budget`. True if one of them asked
    /// the service to stop; then no more turns are given.
    pub fn turns<A: AnswersClients, C: Connections<S>>(
        &mut self,
        answers: &mut A,
        connections: &mut C,
        budget: usize,
    ) -> bool
        ensures turns_in_order { HaveTurns S.log A.exchanges A.notes A.turns_to budget answers.old answers.new (C.log connections.old) (C.log connections.new)
            (record { seats = self.old.places.items; next = self.old.next; admitted = self.old.admitted })
            (record { seats = self.new.places.items; next = self.new.next; admitted = self.new.admitted }) result }
    {
        for _turn in 0..budget {
            let Some(turn) = self.give_turn(answers, connections) else {
                return false;
            };
            if is_stop(turn) {
                return true;
            }
        }
        false
    }
}

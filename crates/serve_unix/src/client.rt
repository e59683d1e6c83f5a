//! A client and its turns.

ghost use Rattle.std.specs.Prelude.{◌≡◌, IfSome, None, Some};
ghost use Rattle.serve_unix.specs.Client.{IsClientTurn, IsClosed, IsNotedOf, IsPlaceTurn, active_after};

use crate::connections::Connections;
use serve_stream::{Answers, Conversation, Stream, Turn};

/// The most requests of a client that are answered in a turn.
pub(crate) const TURN: usize = 4;

/// A client.
#[derive(Drop)]
pub(crate) struct Client<S: Stream> {
    pub(crate) stream: S,
    pub(crate) conversation: Conversation,
    /// Its number among all clients that were admitted, from 1.
    pub(crate) number: u64,
    /// Not known to have nothing to do.
    pub(crate) is_active: bool,
}

// Notes that the request that came last is not held, if it is not.
fn note_if_unheld<A: Answers>(conversation: &Conversation, answers: &mut A)
    ensures { IsNotedOf A.notes conversation.now answers.old answers.new }
{
    match conversation.unheld() {
        Some((front, reply)) => answers.not_held(front, reply),
        None => {}
    }
}

// Whether a client may have something to do after a turn.
fn active_after(turn: Turn, was: bool) -> bool
    ensures { result ≡ active_after turn was }
{
    match turn {
        Turn::Waits => false,
        Turn::Went | Turn::Closed | Turn::Stop => was,
    }
}

impl<S: Stream> Client<S> {
    // Goes on with its conversation. A request that is not held is noted.
    fn turn<A: Answers>(&mut self, answers: &mut A) -> Turn
        ensures { IsClientTurn S.log A.exchanges A.notes self.old self.new answers.old answers.new result }
    {
        let turn = self.conversation.turn(&mut self.stream, answers, TURN);
        note_if_unheld(&self.conversation, answers);
        self.conversation.note_unheld();
        self.is_active = active_after(turn, self.is_active);
        turn
    }
}

// Closes the connection of the client in a place, and forgets its conversation.
fn close<S: Stream + Drop, C: Connections<S>>(place: &mut Option<Client<S>>, connections: &mut C)
    ensures emptied { place.new ≡ None }
    ensures closed { IfSome place.old (λ client. IsClosed (S.log client.stream) (C.log connections.old) (C.log connections.new)) }
{
    match place.take() {
        Some(client) => {
            let Client {
                stream,
                conversation: _,
                number: _,
                is_active: _,
            } = client;
            connections.close(stream);
        }
        None => {}
    }
}

/// Gives the client in a place its turn. If its conversation is over, its connection is closed and the place empty.
pub(crate) fn turn_in<S: Stream + Drop, A: Answers, C: Connections<S>>(
    place: &mut Option<Client<S>>,
    answers: &mut A,
    connections: &mut C,
) -> Turn
    ensures { IsPlaceTurn S.log A.exchanges A.notes place.old place.new answers.old answers.new (C.log connections.old) (C.log connections.new) result }
{
    let Some(client) = place else {
        return Turn::Closed;
    };
    let turn = client.turn(answers);
    match turn {
        Turn::Went | Turn::Waits => turn,
        Turn::Closed | Turn::Stop => {
            close(place, connections);
            turn
        }
    }
}

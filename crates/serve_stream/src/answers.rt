//! The traits that answer the requests of clients.

ghost use Rattle.std.specs.Prelude.{◌≡◌, ◌++◌, List, ℕ};
ghost use Rattle.serve_stream.specs.Answers.{Exchange, IsAnswered};

use control_line::OutOfMemory;

/// The next action after a request was answered.
#[derive(Clone, Copy, Debug, PartialEq, Eq)]
pub enum After {
    /// The next request is answered.
    GoesOn,
    /// The service is to stop: no more requests are answered.
    Stops,
}

/// Answers requests.
pub trait Answers {
    /// This exchange leads from one state to another.
    ghost exchanges: { Self → Self → Exchange → Type 0 };

    /// Answers a request: a line without its LF, or a block without its last LF. Appends the reply to `reply`, also
    /// without an LF; the bytes that are there already belong to another request. `Err` appends nothing; the client
    /// then gets `failed E3`.
    fn answer(&mut self, request: &[u8], reply: &mut Vec<u8>) -> Result<After, OutOfMemory>
        ensures { IsAnswered (exchanges self.old self.new) request.now reply.old.items reply.new.items result };

    /// A note of a request that is not held leads from one state to another. The note has the request's beginning and
    /// the client's reply.
    ghost notes: { Self → Self → List ℕ → List ℕ → Type 0 };

    /// Takes note of a request that is not answered, since it is too long or memory for it was refused. `front` is a
    /// beginning of it, and `reply` is the client's reply, without an LF.
    fn not_held(&mut self, front: &[u8], reply: &[u8])
        ensures { notes self.old self.new front.now reply.now };
}

/// Answers the requests of several clients, who are known by numbers.
pub trait AnswersClients: Answers {
    /// From one state to another the client with this number gets its turn.
    ghost turns_to: { Self → Self → ℕ → Type 0 };

    /// Notes that the next requests are those of the client with this number.
    fn turn_to(&mut self, number: u64)
        ensures { turns_to self.old self.new number };
}

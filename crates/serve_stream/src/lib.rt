//! Control over a byte stream: the bytes of a client are cut into requests, each request is answered, and the replies go back in order.
//!
//! A request is a line, or a block: its first line, and as many lines as that says. A reply is a line. A line ends with LF; a CR is a
//! byte like others. The next requests are read and answered while replies wait to be taken.
//!
//! No more requests are answered, and the connection is closed when the client has taken all replies,
//!
//! - after a line of more than `LINE_LIMIT` bytes, or a block whose lines have more than `BLOCK_LIMIT`, each with its LF. The reply is
//!   `refused C2`, and need not wait for the end of the line or the block;
//! - after a line that begins as a block does, but is no first line of one: its lines may be what follows;
//! - if memory is refused for the bytes of a request. The reply is `failed E3`. If memory is refused for the answer to a whole
//!   request, its reply is `failed E3` too, and the next request is answered;
//! - if the client closes its side. A line or a block that has not ended by then is no request.
//!
//! The connection is closed at once if the stream fails, or if `WAITING_LIMIT` bytes of replies or more are not taken after a write.
//! After a request that stops the service nothing is answered; its reply is written as far as the stream takes it at once.
//!
//! Nothing here knows of a socket: a client is a `Stream`, and `Answers` answers requests. No call waits.
#![tactic(auto)]

ghost use Rattle.std.specs.Prelude.{◌≡◌};
ghost use Rattle.serve_stream.specs.Request.{HaveNoRequest, IsOneCutting};
ghost use Rattle.serve_stream.specs.Standing.{AnswersAll};

mod answers;
mod bad_head;
mod conversation;
mod held;
mod replies;
mod stream;
mod unread;

pub use answers::{After, Answers, AnswersClients};
pub use conversation::{Conversation, Turn};
pub use stream::{Arrived, Sent, Stream};

/// The connection is closed when this many bytes of replies wait, or more.
pub const WAITING_LIMIT: usize = 65_536;

/// Law: the limit, as a number. It runs nothing.
pub fn limit_as_number()
    ensures { WAITING_LIMIT ≡ 65536 }
{}

/// Law: bytes are cut into requests in one way. Neither the beginning of a request nor what begins with a line or a block that is too
/// long has a whole request at its front. It runs nothing.
pub fn one_cutting()
    ensures one_cutting { IsOneCutting }
    ensures no_request { HaveNoRequest }
{}

/// Law: a conversation that waits for bytes has had every whole request answered. It runs nothing.
pub fn all_answered()
    ensures { AnswersAll }
{}

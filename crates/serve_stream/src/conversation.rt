//! A conversation with a client over its stream.

ghost use Rattle.std.specs.Prelude.{◌≡◌, ◌≢◌, ◌≤◌, ◌<◌, ◌++◌, ◌∷◌, ◌↔◌, if◌then◌else◌, IfOk, IsFalse, IsTrue, List, None, Some, [], drop, length, option_map, ℕ};
ghost use Rattle.serve_stream.specs.Answers.{Exchange, IsStop};
ghost use Rattle.serve_stream.specs.Standing.{IsAt, IsHindered, IsTurn, Moves, waiting_of};
ghost use Rattle.serve_stream.specs.Stream.{Event, Logs};
ghost use Rattle.serve_stream.specs.body.Asked.{IsAsked, IsUnheld, stage_of, words_of};
ghost use Rattle.serve_stream.specs.body.Waiting.{AnswersFew, IsKept, IsRead, IsSameBut, IsWritten, IsWrittenOut, next_of};
ghost use Rattle.serve_stream.specs.declared.conversation.Stage.TheVariants as stage;

use crate::WAITING_LIMIT;
use crate::answers::{After, Answers};
use crate::held::{Held, HoldFault, LineEnd};
use crate::replies::{NO_MEMORY, Replies};
use crate::stream::{Arrived, Sent, Stream};
use crate::unread::Unread;
use control_line::OutOfMemory;
use std::alloc::Global;

// The reply to a request that is too long.
const TOO_LONG: &[u8] = b"refused C2\n";

/// The result of a turn of a conversation.
#[derive(Clone, Copy, Debug, PartialEq, Eq)]
pub enum Turn {
    /// More may be done at once.
    Went,
    /// There is nothing to do until the stream gives or takes bytes.
    Waits,
    /// The conversation is over, and the connection is to be closed.
    Closed,
    /// The conversation is over, and the service is to stop.
    Stop,
}

/// The stage of a conversation.
#[derive(Clone, Copy, Debug, PartialEq, Eq)]
pub(crate) enum Stage {
    /// Requests are answered.
    Open,
    /// No more requests are answered. The replies that wait are still written.
    Closing,
    /// The last request asked the service to stop.
    Stopping,
    /// Nothing more happens.
    Over,
}

/// A conversation: the bytes of the next request so far, and the replies that the client has not taken.
#[derive(Drop)]
pub struct Conversation {
    unread: Unread,
    held: Held,
    replies: Replies,
    // The bytes after the replies, if no more requests are answered.
    last: &'static [u8],
    stage: Stage,
    // Why the request that came last is not held, until that is noted.
    unheld: Option<HoldFault>,
}

// Returns the stage after a request whose last line ended so.
fn stage_after(end: LineEnd, after: Option<After>) -> Stage
    ensures { result ≡ stage_of end after }
{
    if let Some(After::Stops) = after {
        return Stage::Stopping;
    }
    match end {
        LineEnd::BadHead => Stage::Closing,
        LineEnd::Request | LineEnd::More => Stage::Open,
    }
}

impl Conversation {
    /// Begins a conversation on a stream that has given and taken nothing yet.
    pub fn new(alloc: Global) -> Result<Conversation, OutOfMemory>
        ensures { IfOk result (λ conversation. IsAt conversation [] []) }
    {
        Ok(Conversation {
            unread: Unread::new(alloc)?,
            held: Held::new(alloc),
            replies: Replies::new(alloc),
            last: b"",
            stage: Stage::Open,
            unheld: None,
        })
    }

    fn is(&self, other: Stage) -> bool
        ensures { IsTrue result ↔ (self.now.stage ≡ other) }
    {
        self.stage == other
    }

    // Reads once, if all that was read before is taken. Returns whether more may be taken or read at once.
    fn read<S: Stream>(&mut self, stream: &mut S) -> bool
        ensures { IsRead (S.log stream.old) (S.log stream.new) self.old self.new result }
    {
        if !self.is(Stage::Open) {
            return false;
        }
        if !self.unread.bytes().is_empty() {
            return true;
        }
        match self.unread.read(stream) {
            Arrived::Bytes(_) | Arrived::Interrupted => true,
            Arrived::NotYet => false,
            Arrived::Ended => {
                self.stage = Stage::Closing;
                false
            }
            Arrived::Failed => {
                self.stage = Stage::Over;
                false
            }
        }
    }

    // Answers the request that is held, and begins the next.
    fn answer<A: Answers>(&mut self, end: LineEnd, answers: &mut A)
        requires { self.old.last.now ≡ [] }
        ensures answered { (exchange : Exchange) × A.exchanges answers.old answers.new exchange × ((self.new.stage ≡ stage.Stopping) ↔ IsStop exchange) ×
            ((events : List Event) (exchanges : List Exchange) → IsAsked self.old end events exchanges → IsAt self.new events (exchanges ++ exchange ∷ [])) }
        ensures unread { self.new.unread ≡ self.old.unread }
    {
        let answered = self.replies.answer(&self.held.bytes, answers);
        self.last = answered.last;
        self.stage = stage_after(end, answered.after);
        self.held.clear();
    }

    // Ends, since the request that comes is not held.
    fn give_up(&mut self, fault: HoldFault)
        requires { self.old.last.now ≡ [] }
        ensures last { self.new.last.now ≡ words_of fault }
        ensures stage { self.new.stage ≡ stage.Closing }
        ensures replies { self.new.replies ≡ self.old.replies }
        ensures unread { self.new.unread ≡ [] }
        ensures unheld { self.new.unheld ≡ Some fault }
    {
        self.unheld = Some(fault);
        self.unread.skip(self.unread.bytes().len());
        self.last = match fault {
            HoldFault::TooLong => TOO_LONG,
            HoldFault::OutOfMemory => NO_MEMORY,
        };
        self.stage = Stage::Closing;
    }

    // Takes bytes that were read up to the end of a line, and answers the request that they end. Returns whether they
    // end one.
    fn step<A: Answers>(&mut self, answers: &mut A) -> bool
        requires stage { self.old.stage ≡ stage.Open }
        requires last { self.old.last.now ≡ [] }
        requires some { 0 < length self.old.unread }
        ensures answered { AnswersFew A.exchanges (if result then 1 else 0) answers.old answers.new self.old self.new }
        ensures smaller { length self.new.unread < length self.old.unread }
    {
        match self.held.take(self.unread.bytes()) {
            Ok((count, end)) => {
                self.unread.skip(count);
                if let LineEnd::More = end {
                    return false;
                }
                self.answer(end, answers);
                true
            }
            Err(fault) => {
                self.give_up(fault);
                false
            }
        }
    }

    // Whether bytes that were read may be taken: not if too many replies wait, or one for which memory was refused.
    fn may_go_on(&self) -> bool
        ensures { IsTrue result → (self.now.stage ≡ stage.Open) × (self.now.last.now ≡ []) × (0 < length self.now.unread) }
    {
        self.is(Stage::Open)
            && self.last.is_empty()
            && !self.unread.bytes().is_empty()
            && self.replies.bytes().len() < WAITING_LIMIT
    }

    // Answers requests that were read, at most as many as `budget`.
    fn answer_few<A: Answers>(&mut self, answers: &mut A, budget: usize)
        ensures answered { AnswersFew A.exchanges budget answers.old answers.new self.old self.new }
        ensures none { self.old.unread ≡ [] → self.new.unread ≡ [] }
        ensures was_open { self.new.stage ≡ stage.Open → self.old.stage ≡ stage.Open }
        ensures over { self.old.stage ≡ stage.Over → self.new.stage ≡ stage.Over }
    {
        let mut left = budget;
        while left > 0 && self.may_go_on() {
            if self.step(answers) {
                left -= 1;
            }
        }
    }

    // Returns the bytes that are written next.
    fn next_bytes(&self) -> &[u8]
        ensures { result.now ≡ next_of self.now }
    {
        let replies = self.replies.bytes();
        if replies.is_empty() {
            self.last
        } else {
            replies
        }
    }

    // Takes the first bytes, which were written.
    fn skip(&mut self, count: usize)
        requires { count ≤ length (next_of self.old) }
        ensures skipped { waiting_of self.new ≡ drop count (waiting_of self.old) }
        ensures kept { IsSameBut self.old self.new }
    {
        if self.replies.bytes().is_empty() {
            self.last = &self.last[count..];
        } else {
            self.replies.skip(count);
        }
    }

    // The reason: docs/DECISIONS.md, "Replies that wait are counted after the write".
    fn waits_too_long(&self) -> bool
        ensures { IsTrue result ↔ (WAITING_LIMIT ≤ length (waiting_of self.now)) }
    {
        self.replies.bytes().len().saturating_add(self.last.len()) >= WAITING_LIMIT
    }

    // Whether the stream has taken all replies.
    fn all_taken(&self) -> bool
        ensures { IsTrue result ↔ (waiting_of self.now ≡ []) }
    {
        self.next_bytes().is_empty()
    }

    // Writes once, if bytes wait. Returns whether more wait, and may be taken at once.
    fn write<S: Stream>(&mut self, stream: &mut S) -> bool
        ensures { IsWritten (S.log stream.old) (S.log stream.new) self.old self.new result }
    {
        if self.is(Stage::Over) {
            return false;
        }
        if self.all_taken() {
            return false;
        }
        match stream.write(self.next_bytes()) {
            Sent::Bytes(count) => {
                self.skip(count);
                !self.all_taken()
            }
            Sent::Interrupted => true,
            Sent::NotYet => false,
            Sent::Failed => {
                self.stage = Stage::Over;
                false
            }
        }
    }

    // Writes what the stream takes at once.
    fn write_out<S: Stream>(&mut self, stream: &mut S)
        requires { self.old.stage ≢ stage.Over }
        ensures { IsWrittenOut (S.log stream.old) (S.log stream.new) self.old self.new }
    {
        let most = self.replies.bytes().len() + self.last.len();
        for count in 0..most {
            if !self.write(stream) {
                return;
            }
        }
    }

    // Ends because the service is to stop.
    fn stop<S: Stream>(&mut self, stream: &mut S)
        requires { self.old.stage ≡ stage.Stopping }
        ensures stopped { (events : List Event) × Logs (S.log stream.old) (S.log stream.new) events × Moves self.old self.new events [] ×
            (waiting_of self.new ≢ [] → IsHindered events) }
        ensures over { self.new.stage ≡ stage.Over }
    {
        self.write_out(stream);
        self.stage = Stage::Over;
    }

    // Ends if all replies are written after the last request, or if too much waits.
    fn close_if_due(&mut self)
        ensures moves { Moves self.old self.new [] [] }
        ensures few { self.new.stage ≢ stage.Over → length (waiting_of self.new) < WAITING_LIMIT }
        ensures kept { IsKept self.old self.new }
        ensures taken { self.new.stage ≡ stage.Closing → waiting_of self.new ≢ [] }
    {
        if self.waits_too_long() {
            self.stage = Stage::Over;
            return;
        }
        if self.is(Stage::Closing) && self.all_taken() {
            self.stage = Stage::Over;
        }
    }

    // Whether more is to be taken or read, if there may be more.
    fn hears_more(&self, more: bool) -> bool
        ensures more { IsTrue result → (self.now.stage ≡ stage.Open) × (self.now.last.now ≡ []) × IsTrue more }
        ensures no_more { IsFalse result → self.now.stage ≡ stage.Open → self.now.last.now ≡ [] → IsFalse more }
    {
        more && self.is(Stage::Open) && self.last.is_empty()
    }

    /// Goes on: reads at most once, answers at most `budget` requests, and writes at most once. After `stop` it writes
    /// all that the stream takes at once.
    pub fn turn<S: Stream, A: Answers>(
        &mut self,
        stream: &mut S,
        answers: &mut A,
        budget: usize,
    ) -> Turn
        ensures { IsTurn A.exchanges budget (S.log stream.old) (S.log stream.new) answers.old answers.new self.old self.new result }
    {
        if self.is(Stage::Over) {
            return Turn::Closed;
        }
        let more_comes = self.read(stream);
        self.answer_few(answers, budget);
        if self.is(Stage::Stopping) {
            self.stop(stream);
            return Turn::Stop;
        }
        let more_goes = self.write(stream);
        self.close_if_due();
        if self.is(Stage::Over) {
            return Turn::Closed;
        }
        if more_goes {
            return Turn::Went;
        }
        if self.hears_more(more_comes) {
            return Turn::Went;
        }
        Turn::Waits
    }

    /// Returns the held part of the request that came last, and the client's reply without the LF, if that request is
    /// not held and that was not noted.
    pub fn unheld(&self) -> Option<(&[u8], &[u8])>
        ensures { IsUnheld self.now (option_map (λ told. (told.0.now, told.1.now)) result) }
    {
        let words = match self.unheld? {
            HoldFault::TooLong => TOO_LONG,
            HoldFault::OutOfMemory => NO_MEMORY,
        };
        Some((&self.held.bytes, &words[..words.len() - 1]))
    }

    /// Marks the request that is not held as noted.
    pub fn note_unheld(&mut self)
        ensures { self.new ≡ record self.old { unheld = None } }
    {
        self.unheld = None;
    }

    /// Tests whether replies wait that the stream has not taken.
    pub fn has_replies(&self) -> bool
        ensures { IsTrue result ↔ (waiting_of self.now ≢ []) }
    {
        !self.all_taken()
    }
}

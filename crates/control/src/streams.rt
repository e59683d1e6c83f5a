//! Inputs and outputs: the source of a script, and the destination of its replies (docs/COMMANDS.md, "replay").

ghost use Rattle.std.specs.Prelude.{◌≡◌, ◌+◌, ◌<◌, ◌≤◌, IfOk, MatchResult, length};
ghost use Rattle.dispatch.specs.Device.{CountsFailure};
ghost use Rattle.control.specs.Streams.{GivesNext, InputValue, OutputValue, TakesFront};

use dispatch::Failed;

/// The source of a script's bytes.
pub trait Input {
    ghost state: { Self → InputValue };

    /// Reads bytes into the front of `buf`, and returns how many. 0 bytes mean the end, if `buf` has room.
    fn read(&mut self, buf: &mut [u8]) -> Result<usize, Failed>
        ensures device_failed { CountsFailure result (state self.old).failures (state self.new).failures }
        ensures within { IfOk result (λ size. size ≤ length buf.new) }
        ensures gives_next { GivesNext (state self.new).failures (state self.old).coming (state self.new).coming result buf.new }
        ensures bounded { MatchResult result
            (λ size. size + (state self.new).left ≤ (state self.old).left)
            (λ failed. (state self.new).left ≤ (state self.old).left) };
}

/// The destination of the replies.
pub trait Output {
    // State that an implementor keeps beside that: a type and a value for contracts alone.
    ghost Rest: { Type 0 } = { Unit {0} };

    ghost state: { Self → OutputValue };

    ghost rest: { Self → Rest };

    /// Writes a beginning of the bytes, and returns its length, which is at least 1 if there are bytes.
    fn write(&mut self, bytes: &[u8]) -> Result<usize, Failed>
        ensures device_failed { CountsFailure result (state self.old).failures (state self.new).failures }
        ensures within { IfOk result (λ size. size ≤ length bytes.now) }
        ensures not_none { IfOk result (λ size. 0 < length bytes.now → 0 < size) }
        ensures takes_front { TakesFront (state self.new).failures (state self.old).taken (state self.new).taken result bytes.now }
        ensures rest_kept { rest self.new ≡ rest self.old };
}

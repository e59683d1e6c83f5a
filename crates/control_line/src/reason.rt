//! Why a line or a command is refused (docs/COMMANDS.md, "Refusals").

ghost use Rattle.std.specs.Prelude.{◌≡◌, Some};
ghost use Rattle.control_line.specs.Reason.{reason_code, reason_of_text, refusal_text};

use fault_code::Code;
use filter_program::TextFault;
use member_group::Refusal;
use retire::PublishFault;
use std::fmt;

/// Why a control line or a command is refused. `line` and the commands never refuse for lack of memory (A6, P6, F3, G8).
#[derive(Clone, Copy, Debug, PartialEq, Eq)]
pub enum Reason {
    /// C1: the text is malformed. A control line is not in the table, or digits spell no bytes.
    BadForm,
    /// C2: the line has more than `LINE_LIMIT` bytes.
    LineTooLong,
    /// C3: the packet has more than `bpf_machine::MAX_PACKET` bytes.
    PacketTooLong,
    /// A1 to A5, V1 to V11, P1 to P5, F1, F2: the text means no program.
    Text(TextFault),
    /// G1 to G7, G9: the configuration refuses the command.
    Command(Refusal),
    /// B1 to B3: the new configuration is not published.
    Publishing(PublishFault),
    /// M1: the request is for one version only, and another one is current, which has this number.
    OtherVersion(u64),
}

impl Reason {
    /// Returns the refusal of a text that makes no program, or `None` for lack of memory.
    pub fn of_text(fault: TextFault) -> Option<Reason>
        ensures { result ≡ reason_of_text fault }
    {
        match fault {
            TextFault::OutOfMemory => None,
            fault => Some(Reason::Text(fault)),
        }
    }

    /// Returns the code.
    pub fn code(self) -> Code
        ensures { result ≡ reason_code self }
    {
        match self {
            Reason::BadForm => Code::plain('C', 1),
            Reason::LineTooLong => Code::plain('C', 2),
            Reason::PacketTooLong => Code::plain('C', 3),
            Reason::Text(fault) => fault.code(),
            Reason::Command(refusal) => refusal.code(),
            Reason::Publishing(fault) => fault.code(),
            Reason::OtherVersion(current) => Code::at('M', 1, current as usize),
        }
    }
}

impl fmt::Display for Reason {
    ghost output = { λ reason. Some (refusal_text reason) };

    fn fmt<W: fmt::Write>(&self, f: &mut fmt::Formatter<W>) -> fmt::Result {
        write!(f, "refused {}", self.code())
    }
}

//! Refusals that no line has as its reply, by their codes.

use bpf_asm::AsmFault;
use bpf_verify::Fault;
use control::Reason;
use fault_code::Code;
use filter_compile::CompileFault;
use filter_parse::ParseFault;
use filter_program::TextFault;
use member_group::Refusal;
use retire::PublishFault;

// No text is assembled to the instructions of V3 and V4, no line has a packet, and nothing publishes 2^48 versions.
// Lack of memory is no reply.
const TEXTS: [(Reason, &str); 8] = [
    (
        Reason::Text(TextFault::Words(Fault::BadOpcode { pc: 7 })),
        "refused V3 7",
    ),
    (
        Reason::Text(TextFault::Words(Fault::StrayField { pc: 0 })),
        "refused V4 0",
    ),
    (Reason::PacketTooLong, "refused C3"),
    (Reason::Publishing(PublishFault::Exhausted), "refused B3"),
    (
        Reason::Text(TextFault::Assembly(AsmFault::OutOfMemory)),
        "refused A6",
    ),
    (
        Reason::Text(TextFault::Expression(ParseFault::OutOfMemory)),
        "refused P6",
    ),
    (
        Reason::Text(TextFault::Compiling(CompileFault::OutOfMemory)),
        "refused F3",
    ),
    (Reason::Command(Refusal::OutOfMemory), "refused G8"),
];

#[test]
fn refusals_as_texts(rt: HostRuntime) {
    for (reason, text) in &TEXTS {
        let found = format!(in rt.alloc(); "{reason}").expect(&rt, "memory");
        assert!(rt; found.as_str() == *text, "{text}");
    }
}

#[test]
fn codes_with_and_without_a_place(rt: HostRuntime) {
    assert!(rt; AsmFault::TooFar { line: 9 }.code() == Code::at('A', 5, 9));
    assert!(rt; Reason::BadForm.code() == Code::plain('C', 1));
}

//! Words that are left to `main`, and memory that is refused while they are read.

use super::assert_left;
use super::streams::Sink;
use command_line::{Failure, Status, refuse_arguments};
use std::io;
use std::io::ErrorKind;

// An address whose port the system picks.
const ANY_PORT: &str = "127.0.0.1:0";

// Addresses of the front and of control, and a number of workers.
const SERVED: [(&str, &str, &str); 3] = [
    ("127.0.0.1:5300", "127.0.0.1:5301", "1"),
    (ANY_PORT, ANY_PORT, "16"),
    ("x", "", "+4"),
];

// Its addresses are read when it runs.
#[test]
fn serve_is_left_to_main(rt: HostRuntime) {
    for (front, control, workers) in &SERVED {
        let words = [
            "serve",
            "--front",
            *front,
            "--control",
            *control,
            "--workers",
            *workers,
        ];
        assert_left(&rt, rt.alloc(), &words, b"");
    }
}

// With lines, options between them, and none.
const TELL: [&[&str]; 5] = [
    &["tell", "--control", "127.0.0.1:5301"],
    &["tell", "--control", "x", "show", ""],
    &[
        "tell",
        "show",
        "--timeout",
        "3600",
        "sweep",
        "--control",
        "x",
    ],
    &["tell", "--control", "x", "--timeout", "1", "--", "--", "-x"],
    &["tell", "--all", "--control", "x", "add 10.0.0.2:53"],
];

#[test]
fn tell_is_left_to_main(rt: HostRuntime) {
    for words in &TELL {
        assert_left(&rt, rt.alloc(), words, b"show");
    }
}

#[test]
fn want_of_memory_is_e3(rt: HostRuntime) {
    let wanted = (Status::Failed, Some("failed E3\n"));
    let mut errs = Sink::open(rt.alloc());
    let status = Failure::OutOfMemory.report(&mut errs);
    assert!(rt; (status, errs.text()) == wanted);

    let mut errs = Sink::open(rt.alloc());
    let no_memory = io::Error::from(ErrorKind::OutOfMemory);
    let status = refuse_arguments(&no_memory, &mut errs);
    assert!(rt; (status, errs.text()) == wanted);
}

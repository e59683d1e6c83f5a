//! The words and the charge of a program in assembly.

use filter_program::assembled;

// An assembly text and its words (networking/filter.rst, "Structure"); each is charged by their number.
const ASSEMBLED: [(&[u8], &[u64]); 2] = [
    (b"ret #0", &[0x0006_0000_0000_0000]),
    (
        b"ld #7\nret a",
        &[0x0000_0000_0000_0007, 0x0016_0000_0000_0000],
    ),
];

#[test]
fn programs_of_assembly(rt: HostRuntime) {
    for (text, words) in &ASSEMBLED {
        let program = assembled(rt.alloc(), text).expect(&rt, "a program");
        assert!(rt; program.words() == *words);
        assert!(rt; program.charge() as usize == words.len());
    }
}

//! Words of a slice.

use bpf_insn::Words;

fn last_word<W: Words>(words: &mut W) -> u64 {
    let count = words.count();
    if count == 0 { 0 } else { words.word(count - 1) }
}

#[test]
fn words_of_a_slice(rt: HostRuntime) {
    let mut words: &[u64] = &[7, 8, 9];
    assert!(rt; last_word(&mut words) == 9);
}

//! Lists of words that are read one at a time.

ghost use Rattle.std.specs.Prelude.{◌≡◌, ◌+◌, ◌-◌, ◌<◌, ◌≤◌, ◌^◌, ◌↔◌, ℕ, IfSome, IsTrue, List, length, slice_get};

/// The words of a list that are ready, by number. The number of a word is its place plus `shift`.
#[derive(Clone, Copy)]
pub struct ReadyWords {
    pub shift: usize,
    /// The number after that of the last ready word.
    pub limit: usize,
}

/// A list of 64-bit words, which need not lie in memory as a slice: reading one takes `&mut self`, so that an
/// implementor can note that it was read.
///
/// An implementor writes `count` and `word`, and for contracts `words` and `rest`. `make_ready`, `is_ready` and `ready_word` have
/// bodies that are right for every list. An implementor writes them itself, with `ready_from`, `ready_to` and `ready_shift`, if
/// programs should run faster over it.
pub trait Words {
    ghost use Rattle.bpf_insn.specs.declared.word_list.ReadyWords.{ReadyWords};

    // State that an implementor keeps beside its list: a type and a value for contracts alone.
    // The reason: docs/INTERNALS.md, "A list of words has a rest".
    ghost Rest: { Type 0 } = { Unit {0} };

    ghost words: { Self → List ℕ };

    ghost rest: { Self → Rest };

    // The ready words are those at the places from `ready_from` on that are less than `ready_to`. By default all words are ready:
    // no list has more than this number.
    ghost ready_from: { Self → ℕ } = { λ _. 0 };

    ghost ready_to: { Self → ℕ } = { λ _. 2 ^ 64 - 1 };

    // The number of a ready word is its place plus this.
    ghost ready_shift: { Self → ℕ } = { λ _. 0 };

    /// Returns the number of words.
    fn count(&self) -> usize
        ensures { result ≡ length (words self.now) };

    /// Reads word `i`, counted from 0.
    fn word(&mut self, i: usize) -> u64
        requires { i < length (words self.old) }
        ensures value { slice_get (words self.old) i ≡ Some result }
        ensures words_kept { words self.new ≡ words self.old }
        ensures rest_kept { rest self.new ≡ rest self.old }
        ensures ready_from { ready_from self.new ≡ ready_from self.old }
        ensures ready_to { ready_to self.new ≡ ready_to self.old }
        ensures shift { ready_shift self.new ≡ ready_shift self.old };

    /// Makes word `i` ready, and as many words after it as the implementor likes. Returns `None` if the implementor does not say
    /// which words are ready: then `word` reads word `i`.
    ///
    /// The machine runs programs by this call and the next two. A program goes from each place to a later one, so an implementor
    /// may make it fast to go on from a word that was read.
    /// Why the default bodies are these: docs/INTERNALS.md, "Programs are run by three other calls".
    fn make_ready(&mut self, i: usize) -> Option<ReadyWords>
        requires { i < length (words self.old) }
        ensures from { IfSome result (λ ready. ready_from self.new ≤ i) }
        ensures to { IfSome result (λ ready. i < ready_to self.new) }
        ensures shift { IfSome result (λ ready. ready.shift ≡ ready_shift self.new) }
        ensures limit { IfSome result (λ ready. ready.limit ≡ ready_shift self.new + ready_to self.new) }
        ensures room { IfSome result (λ ready. ready.shift + length (words self.new) < 2 ^ 64) }
        ensures words_kept { words self.new ≡ words self.old }
        ensures rest_kept { rest self.new ≡ rest self.old }
    {
        let _place = i;
        None
    }

    /// Tests whether a number is less than the limit of the ready words. If so, all words from the first ready one to the one of
    /// that number are ready.
    ///
    /// If all words of a list are always ready, no test is needed.
    #[inline(always)]
    fn is_ready(&self, number: usize, limit: usize) -> bool
        requires within { number < ready_shift self.now + length (words self.now) }
        requires limit { limit ≡ ready_shift self.now + ready_to self.now }
        ensures { IsTrue result ↔ (number < limit) }
    {
        number < limit
    }

    /// Reads the ready word of a number, as `word` does. `shift` is that of the ready words.
    #[inline(always)]
    fn ready_word(&mut self, number: usize, shift: usize) -> u64
        requires shift { shift ≡ ready_shift self.old }
        requires within { number < ready_shift self.old + length (words self.old) }
        requires from { ready_shift self.old + ready_from self.old ≤ number }
        requires to { number < ready_shift self.old + ready_to self.old }
        ensures value { slice_get (words self.old) (number - ready_shift self.old) ≡ Some result }
        ensures ready_from { ready_from self.new ≡ ready_from self.old }
        ensures ready_to { ready_to self.new ≡ ready_to self.old }
        ensures shift { ready_shift self.new ≡ ready_shift self.old }
        ensures words_kept { words self.new ≡ words self.old }
        ensures rest_kept { rest self.new ≡ rest self.old }
    {
        self.word(number - shift)
    }
}

impl<'a> Words for &'a [u64] {
    ghost words = { λ list. list.now };

    ghost rest = { λ _. tt };

    ghost ready_to = { λ list. length list.now };

    fn count(&self) -> usize {
        self.len()
    }

    fn word(&mut self, i: usize) -> u64 {
        self[i]
    }

    #[inline(always)]
    fn make_ready(&mut self, _i: usize) -> Option<ReadyWords> {
        Some(ReadyWords {
            shift: 0,
            limit: self.len(),
        })
    }

    #[inline(always)]
    fn is_ready(&self, _number: usize, _limit: usize) -> bool {
        true
    }
}

//! Programs: words that the verifier accepted.

ghost use Rattle.std.specs.Prelude.{◌≡◌, ◌≤◌, ◌↔◌, IfErr, IfOk, IsOk, length};
ghost use Rattle.bpf_verify.specs.Accepted.{IsAccepted};
ghost use Rattle.bpf_verify.specs.Fault.{IsFirstFault};
ghost use Rattle.bpf_verify.specs.Program.{IsProgram};
ghost use Rattle.bpf_verify.specs.declared.TheConstants.{MAX_INSTRUCTIONS};

use crate::fault::Fault;
use crate::verify;
pub use std::alloc::AllocError as OutOfMemory;
use std::alloc::Allocator;
use std::marker::Model;

/// Words that the verifier accepted, and their charge: the number that a configuration counts for them.
#[derive(Drop)]
pub struct Program<A: Allocator> {
    words: Vec<u64, A>,
    charge: u32,
}

impl<A: Allocator> Model for Program<A> {
    ghost use Rattle.bpf_verify.specs.Program.{IsProgram, ProgramValue};

    ghost Value = { ProgramValue };

    ghost view = { λ p. record { words = p.words.items; charge = p.charge } };

    ghost invariant = { λ p. IsProgram (record { words = p.words.items; charge = p.charge }) };
}

impl<A: Allocator> Program<A> {
    /// Makes a program of accepted words, charged by their number. Other words are returned with their first fault.
    pub fn new(words: Vec<u64, A>) -> Result<Program<A>, (Fault, Vec<u64, A>)>
        ensures program_exact { IsOk result ↔ IsAccepted words.items }
        ensures words_taken { IfOk result (λ program. program.words ≡ words.items) }
        ensures charge_is_length { IfOk result (λ program. program.charge ≡ length words.items) }

        ensures program_fault { IfErr result (λ refused. IsFirstFault words.items refused.0) }
        ensures words_back { IfErr result (λ refused. refused.1 ≡ words) }
    {
        let mut list = words.as_slice();
        let count = list.len();
        match verify(&mut list, 0, count) {
            Ok(()) => Ok(Program {
                charge: count as u32,
                words,
            }),
            Err(fault) => Err((fault, words)),
        }
    }

    /// Makes a program of words that are known to be accepted, with its own charge. Takes no memory.
    pub fn charged(words: Vec<u64, A>, charge: u32) -> Program<A>
        requires accepted { IsAccepted words.items }
        requires covers { length words.items ≤ charge }
        requires limited { charge ≤ MAX_INSTRUCTIONS }
        ensures words_taken { result.words ≡ words.items }
        ensures charge_taken { result.charge ≡ charge }
    {
        Program { words, charge }
    }

    /// Makes the same program in another allocator's memory: the same words and the same charge.
    pub fn clone_in<B: Allocator>(&self, alloc: B) -> Result<Program<B>, OutOfMemory>
        ensures same_program { IfOk result (λ clone. clone ≡ self.now) }
        ensures program { IsProgram self.now }
    {
        Ok(Program {
            words: Vec::from_slice(alloc, &self.words)?,
            charge: self.charge,
        })
    }

    /// Returns the words.
    pub fn words(&self) -> &[u64]
        ensures words { result.now ≡ self.now.words }
        ensures program { IsProgram self.now }
    {
        self.words.as_slice()
    }

    /// Returns the charge, from the number of words to `MAX_INSTRUCTIONS`.
    pub fn charge(&self) -> u32
        ensures charge { result ≡ self.now.charge }
        ensures program { IsProgram self.now }
    {
        self.charge
    }
}

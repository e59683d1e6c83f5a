//! The fields of a reply, cut at each space.

ghost use Rattle.std.specs.Prelude.{◌≡◌, ◌≢◌, ◌≤◌, ◌<◌, ◌^◌, ◌∷◌, ◌↔◌, [], IfSome, IsTrue, List, MatchOption, decimal, ℕ};
ghost use Rattle.ipv4_fields.specs.Endpoint.{IsEndpoint, endpoint_text};
ghost use Rattle.ipv4_fields.specs.declared.endpoint.Endpoint.{Endpoint as EndpointValue};
ghost use Rattle.bpf_formats.specs.Hex.{SpellsDigits};
ghost use Rattle.control_line.specs.Reply.{flag};
ghost use Rattle.control_rules.specs.Fields.{fields_in};
ghost use Rattle.versions.specs.declared.layout.TheConstants.{LAST_NUMBER};

use bpf_formats::read_digits;
use control_line::{is_word, read_version};
use ipv4_fields::{Endpoint, read_number, split_at};
use std::marker::Model;

/// The fields of a text that are still to be read.
#[derive(Drop)]
pub struct Fields<'a> {
    left: Option<&'a [u8]>,
}

impl<'a> Model for Fields<'a> {
    ghost use Rattle.std.specs.Prelude.{List, ℕ};
    ghost use Rattle.control_rules.specs.body.Left.{fields_left};

    ghost Value = { List (List ℕ) };

    ghost view = { λ fields. fields_left fields.left };
}

impl<'a> Fields<'a> {
    pub fn of(text: &'a [u8]) -> Fields<'a>
        ensures { result ≡ fields_in text.now }
    {
        Fields { left: Some(text) }
    }

    /// Takes the next field.
    pub fn next(&mut self) -> Option<&'a [u8]>
        ensures { MatchOption result (self.old ≡ []) (λ field. self.old ≡ field.now ∷ self.new) }
    {
        let text = self.left?;
        match split_at(b' ', text) {
            Some((field, rest)) => {
                self.left = Some(rest);
                Some(field)
            }
            None => {
                self.left = None;
                Some(text)
            }
        }
    }

    /// Takes a field that is this word.
    pub fn word(&mut self, word: &str) -> Option<()>
        ensures { MatchOption result ((rest : List (List ℕ)) → self.old ≢ word.now ∷ rest) (λ done. self.old ≡ word.now ∷ self.new) }
    {
        let field = self.next()?;
        if is_word(field, word) { Some(()) } else { None }
    }

    /// Takes a field that is a number of 32 bits.
    pub(crate) fn number(&mut self) -> Option<u32>
        ensures { MatchOption result
            ((n : ℕ) (rest : List (List ℕ)) → n ≤ 4294967295 → self.old ≢ decimal n ∷ rest)
            (λ n. (n ≤ 4294967295) × (self.old ≡ decimal n ∷ self.new)) }
    {
        read_number(u32::MAX, self.next()?)
    }

    /// Takes a field that is the number of a version.
    pub(crate) fn version(&mut self) -> Option<u64>
        ensures { MatchOption result
            ((n : ℕ) (rest : List (List ℕ)) → n ≤ LAST_NUMBER → self.old ≢ decimal n ∷ rest)
            (λ n. (n ≤ LAST_NUMBER) × (self.old ≡ decimal n ∷ self.new)) }
    {
        read_version(self.next()?)
    }

    /// Takes a field that is an endpoint.
    pub(crate) fn endpoint(&mut self) -> Option<Endpoint>
        ensures { MatchOption result
            ((endpoint : EndpointValue) (rest : List (List ℕ)) → IsEndpoint endpoint → self.old ≢ endpoint_text endpoint ∷ rest)
            (λ endpoint. IsEndpoint endpoint × (self.old ≡ endpoint_text endpoint ∷ self.new)) }
    {
        Endpoint::from_text(self.next()?)
    }

    /// Takes a field that is a word of a program.
    pub(crate) fn digits(&mut self) -> Option<u64>
        ensures { MatchOption result
            ((field : List ℕ) (n : ℕ) (rest : List (List ℕ)) → SpellsDigits field n → self.old ≢ field ∷ rest)
            (λ n. (field : List ℕ) × SpellsDigits field n × (self.old ≡ field ∷ self.new)) }
    {
        read_digits(self.next()?)
    }

    /// Takes a field that is 1 or 0.
    pub(crate) fn flag(&mut self) -> Option<bool>
        ensures { IfSome result (λ set. self.old ≡ decimal (flag set) ∷ self.new) }
    {
        let field = self.next()?;
        if is_word(field, "1") {
            return Some(true);
        }
        if is_word(field, "0") {
            return Some(false);
        }
        None
    }

    /// Tests whether no field is left.
    pub(crate) fn is_done(&self) -> bool
        ensures { IsTrue result ↔ (self.now ≡ []) }
    {
        match self.left {
            None => true,
            Some(_) => false,
        }
    }

    /// Passes if no field is left.
    pub fn done(&self) -> Option<()>
        ensures { MatchOption result (self.now ≢ []) (λ done. self.now ≡ []) }
    {
        if self.is_done() { Some(()) } else { None }
    }
}

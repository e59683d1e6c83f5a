//! The meaning of the program's codes: of a refusal, a failure, or a result of the libraries (docs/COMMANDS.md, "Failures" and
//! "Refusals").
//!
//! `explanation` finds the text of a code, and `shown_code` the code in what the program prints. `line_fault_text` and
//! `file_fault_text` show people a file that is refused. The codes and texts are in two tables, in `table_to_h` and
//! `table_from_i`.
#![tactic(auto)]

ghost use Rattle.std.specs.Prelude.{◌≡◌, ◌↔◌, Contains, IfSome, IsSome, map, option_map};
ghost use Rattle.command_explain.specs.Explanation.{Explains, IsExplanation, codes_explained, explanations, explanations_from_i, explanations_to_h, text_beside};

mod file_fault;
mod meaning;
mod printed;
mod shown;
mod table_from_i;
mod table_to_h;

pub use file_fault::{FaultPlace, SHOWN_LIMIT, file_fault_text, line_fault_text};
pub use meaning::{cause_line, push_meaning};
pub use printed::{ShownCode, number_of, shown_code};
pub use shown::push_shown;
use table_from_i::EXPLANATIONS_FROM_I;
use table_to_h::EXPLANATIONS_TO_H;

/// Returns the explanation of a code: its meaning, its usual cause and what to do, in lines of at most 80 bytes, without the last
/// line's end.
///
/// The code is as it is printed, such as `G3`: a capital letter, and a number from 1 on. Returns `None` for any other text.
pub fn explanation(code: &str) -> Option<&'static str>
    ensures explained_exactly { IsSome result ↔ Contains codes_explained code.now }
    ensures explanation { IfSome result (λ text. IsExplanation code.now text.now) }
    ensures names_code { IfSome result (λ text. Explains text.now code.now) }
{
    text_of(code)
}

fn text_of(code: &str) -> Option<&'static str>
    ensures { option_map (λ text. text.now) result ≡ text_beside explanations code.now }
{
    match text_to_h(code) {
        Some(text) => Some(text),
        None => text_from_i(code),
    }
}

fn text_to_h(code: &str) -> Option<&'static str>
    ensures { option_map (λ text. text.now) result ≡ text_beside explanations_to_h code.now }
{
    find_text(&EXPLANATIONS_TO_H, code)
}

fn text_from_i(code: &str) -> Option<&'static str>
    ensures { option_map (λ text. text.now) result ≡ text_beside explanations_from_i code.now }
{
    find_text(&EXPLANATIONS_FROM_I, code)
}

fn find_text<'a>(mut rows: &[(&str, &'a str)], code: &str) -> Option<&'a str>
    ensures { option_map (λ text. text.now) result ≡ text_beside (map (λ row. (row.0.now, row.1.now)) rows.entry.now) code.now }
{
    while let [row, rest @ ..] = rows {
        if row.0 == code {
            return Some(row.1);
        }
        rows = rest;
    }
    None
}

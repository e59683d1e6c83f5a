//! The formats of programs, by name (docs/COMMANDS.md, "Formats of programs").

ghost use Rattle.std.specs.Prelude.{◌≡◌, IfErr, IfOk, Some, string_bytes};
ghost use Rattle.command_query.specs.Format.{input_format_of, listing_text, output_format_of};

use bpf_asm::print;
use bpf_formats::{print_dd, print_ddd, print_hex};
use bpf_verify::{OutOfMemory, Program};
use std::alloc::Global;

/// A format that programs are read in.
#[derive(Clone, Copy)]
pub enum InputFormat {
    Assembly,
    Ddd,
    Hex,
}

/// A format that programs are printed in.
#[derive(Clone, Copy)]
pub enum OutputFormat {
    Assembly,
    Ddd,
    Dd,
    Hex,
}

/// Finds the format of a name, to read.
pub fn input_format_of(name: &str) -> Option<InputFormat>
    ensures { result ≡ input_format_of name.now }
{
    match name {
        "asm" => Some(InputFormat::Assembly),
        "ddd" => Some(InputFormat::Ddd),
        "hex" => Some(InputFormat::Hex),
        _ => None,
    }
}

/// Finds the format of a name, to print.
pub fn output_format_of(name: &str) -> Option<OutputFormat>
    ensures { result ≡ output_format_of name.now }
{
    match name {
        "asm" => Some(OutputFormat::Assembly),
        "ddd" => Some(OutputFormat::Ddd),
        "dd" => Some(OutputFormat::Dd),
        "hex" => Some(OutputFormat::Hex),
        _ => None,
    }
}

/// Prints the program in the format.
pub fn list(
    alloc: Global,
    format: OutputFormat,
    program: &Program<Global>,
) -> Result<String, OutOfMemory>
    ensures { IfOk result (λ text. string_bytes text ≡ listing_text format program.now.words) }
{
    match format {
        OutputFormat::Assembly => print(alloc, program),
        OutputFormat::Ddd => print_ddd(alloc, program),
        OutputFormat::Dd => print_dd(alloc, program),
        OutputFormat::Hex => print_hex(alloc, program),
    }
}

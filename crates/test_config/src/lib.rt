//! Tests of programs, of filter expressions, and of configurations, which are made of them: of the assembler, the
//! compiler and the other calls on programs, and of the words of images. Sessions and the rows of test_rows have the
//! other cases.
#![tactic(auto)]

#[cfg(test)]
mod tests;

//! Lists and programs that are copied to the caller's buffer.

ghost use Rattle.c_calls.specs.Answer.{Gives, GivesProgram};

use crate::answer::Answer;
use crate::codes::text_answer;
use bpf_verify::Program;
use filter_program::TextFault;
use std::alloc::Global;

/// Copies a list to the front of a buffer. If the buffer has too little room, leaves it unchanged.
pub(crate) fn give<T: Copy>(list: &[T], charge: u32, buffer: &mut [T]) -> Answer
    ensures { Gives list.now charge buffer.old buffer.new result }
{
    if list.len() > buffer.len() {
        return Answer::wanting(charge, list.len());
    }
    buffer[..list.len()].copy_from_slice(list);
    Answer::done(charge, list.len())
}

/// Copies the words of a program, if one was made.
pub(crate) fn give_program(made: Result<Program<Global>, TextFault>, buffer: &mut [u64]) -> Answer
    ensures { GivesProgram made buffer.old buffer.new result }
{
    match made {
        Ok(program) => give(program.words(), program.charge(), buffer),
        Err(fault) => text_answer(fault),
    }
}

//! Control lines, scripts and their streams in cases that no command shows.

mod digits;
mod judged;
mod refusals;
mod refused;
mod rules;
mod scripts;
mod streams;
mod texts;

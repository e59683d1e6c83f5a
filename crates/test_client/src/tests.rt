//! Lines that are told, counters that are read, and the texts of faults.

mod counters;
mod file_faults;
mod memory_wire;
mod refused;
mod telling;

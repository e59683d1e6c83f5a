//! Jumps whose targets are not yet known.

/// One of the jumps of an instruction.
#[derive(Clone, Copy, Debug, Default, PartialEq, Eq)]
pub enum Side {
    /// The jump of a test that is true.
    #[default]
    WhenTrue,
    /// The jump of a test that is false.
    WhenFalse,
    /// The jump of a JA.
    Always,
}

/// A jump of the instruction at a place, which is still to be patched.
#[derive(Clone, Copy, Debug, Default, PartialEq, Eq)]
pub struct Fixup {
    /// The place of the instruction, counted from the program's first.
    pub place: u32,
    /// The jump to patch.
    pub side: Side,
}

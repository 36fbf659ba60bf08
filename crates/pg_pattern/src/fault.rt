//! Why no tree was read.

/// Why no tree was read.
#[derive(Clone, Copy)]
pub enum ParseFault {
    /// The place of the first token that nothing continues: its first byte.
    Syntax { at: u32 },
    /// Memory ran out.
    Memory,
}

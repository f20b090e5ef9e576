//! A source of the never-cut kernel.

/// A source: the number of its readings that are settled, which is that of its next one; how many of them were accepted; and whether
/// the next one was refused.
#[derive(Clone, Copy)]
pub struct SourceModel {
    pub next: u32,
    pub accepted: u32,
    pub refused: bool,
}

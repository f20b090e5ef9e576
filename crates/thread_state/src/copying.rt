//! How far the copying of a page is.

/// The next word of the page to load, or one that was loaded and is to be stored.
#[derive(Clone, Copy)]
pub(crate) enum Copying {
    Loading { word: u32 },
    Storing { word: u32, value: u64 },
}

//! What a text shows besides the outputs and the summary.

/// The flags of a command: whether the text shows the journal, gives its summary as JSON, shows the bounds of a charge and the image of
/// the board, and the seed of a generated job.
#[derive(Clone, Copy)]
pub struct Flags {
    pub journal: bool,
    pub json: bool,
    pub bounds: bool,
    pub image: bool,
    pub seed: Option<u32>,
}

impl Flags {
    ghost use Rattle.std.specs.Prelude.{◌≡◌};
    ghost use Rattle.ink_report.specs.Conditions.{no_flags};

    /// No flag is set.
    pub fn none() -> Flags
        ensures { result ≡ no_flags }
    {
        Flags {
            journal: false,
            json: false,
            bounds: false,
            image: false,
            seed: None,
        }
    }
}

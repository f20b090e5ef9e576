//! The words of the command line.

ghost use Rattle.std.specs.Prelude.{◌≡◌, ◌≤◌, ◌∷◌, length, map, string_bytes, codes, Some, IfSome};
ghost use Rattle.std.specs.Option.{option_map};
ghost use Rattle.ink_modes.specs.Form.{IsAllowed};
ghost use Rattle.ink_modes.specs.modes.{form_of};
ghost use Rattle.ink_modes.specs.Words as words;
ghost use Rattle.ink_modes.specs.Words.{pieces, piece_said, IsCommand};
ghost use Rattle.ink_modes.specs.kept.Asked as kept;

use crate::command::Command;
use crate::modes::Mode;
use ink_base::checks::number_said;
use ink_report::Flags;

/// What the words ask for. A command is the name of a mode and flags, in any order, each at most once: `run` may have `--journal`,
/// `--json`, `--bounds` and `--image`; `soak` may have the first three, and has `--seed`, whose number of 1 to 10 digits below 2^32 is the
/// next word or stands behind a `=`; `sweep` and `print` have none. None exactly where the words are no command.
pub fn command_of(words: &[String]) -> Option<Command>
    ensures found { IfSome result (IsCommand (map string_bytes words.now)) }
    ensures exact { (command : Command) → IsCommand (map string_bytes words.now) command → result ≡ Some command }
{
    asked_from(Asked::nothing(), words)?.command()
}

/// A piece of the words that says something.
#[derive(Clone, Copy)]
pub enum Piece {
    /// The name of a mode.
    Named(Mode),
    Journal,
    Json,
    Bounds,
    Image,
    Seed(u32),
}

// A number of 1 to 10 digits below 2^32.
fn seed_said(word: &[u8]) -> Option<u32>
    ensures { result ≡ words.seed_said word.now }
{
    match number_said(word) {
        Some(number) if number < 4294967296 => Some(number as u32),
        _ => None,
    }
}

// The rest of a word with this beginning.
fn behind<'a>(start: &[u8], word: &'a [u8]) -> Option<&'a [u8]>
    ensures { option_map (λ x. x.now) result ≡ words.behind start.now word.now }
{
    word.strip_prefix(start)
}

// What a piece of one word says.
fn piece_said(word: &str) -> Option<Piece>
    ensures { result ≡ piece_said word.now }
{
    match word {
        "--journal" => Some(Piece::Journal),
        "--json" => Some(Piece::Json),
        "--bounds" => Some(Piece::Bounds),
        "--image" => Some(Piece::Image),
        _ => seed_or_mode(word),
    }
}

fn seed_or_mode(word: &str) -> Option<Piece>
    ensures { result ≡ words.seed_or_mode (words.behind (codes "--seed=") word.now) word.now }
{
    match behind(b"--seed=", word.as_bytes()) {
        Some(digits) => seed_said(digits).map(Piece::Seed),
        None => Mode::named(word).map(Piece::Named),
    }
}

// What the first piece of the words says, and the words behind it.
fn first_piece<'a>(word: &str, rest: &'a [String]) -> (Option<Piece>, &'a [String])
    ensures split { map piece_said (pieces (word.now ∷ map string_bytes rest.now))
        ≡ result.0 ∷ map piece_said (pieces (map string_bytes result.1.now)) }
    ensures shorter { length result.1.now ≤ length rest.now }
{
    match rest {
        [number, behind @ ..] if word == "--seed" => {
            (seed_said(number.as_bytes()).map(Piece::Seed), behind)
        }
        _ => (piece_said(word), rest),
    }
}

/// What the pieces so far have asked for.
#[derive(Clone, Copy)]
pub struct Asked {
    pub mode: Option<Mode>,
    pub flags: Flags,
}

// What was asked for with these words, too. Each piece is good once, so this ends after a few of them.
fn asked_from(asked: Asked, words: &[String]) -> Option<Asked>
    ensures { result ≡ kept.asked_from asked (map piece_said (pieces (map string_bytes words.now))) }
{
    match words {
        [] => Some(asked),
        [word, behind @ ..] => {
            let (piece, rest) = first_piece(word.as_str(), behind);
            asked_from(asked.with(piece?)?, rest)
        }
    }
}

impl Asked {
    fn nothing() -> Asked
        ensures { result ≡ kept.nothing }
    {
        Asked {
            mode: None,
            flags: Flags::none(),
        }
    }

    // With one more piece; none where such a piece was there before.
    fn with(self, piece: Piece) -> Option<Asked>
        ensures { result ≡ kept.asked_with self piece }
    {
        let flags = self.flags;
        match piece {
            Piece::Named(mode) => self.with_mode(mode),
            Piece::Seed(number) => self.with_seed(number),
            Piece::Journal => self.once(
                flags.journal,
                Flags {
                    journal: true,
                    ..flags
                },
            ),
            Piece::Json => self.once(
                flags.json,
                Flags {
                    json: true,
                    ..flags
                },
            ),
            Piece::Bounds => self.once(
                flags.bounds,
                Flags {
                    bounds: true,
                    ..flags
                },
            ),
            Piece::Image => self.once(
                flags.image,
                Flags {
                    image: true,
                    ..flags
                },
            ),
        }
    }

    // With these flags, unless it was asked for before.
    fn once(self, again: bool, flags: Flags) -> Option<Asked>
        ensures { result ≡ kept.asked_once again self flags }
    {
        if again {
            return None;
        }
        Some(Asked { flags, ..self })
    }

    fn with_mode(self, mode: Mode) -> Option<Asked>
        ensures { result ≡ kept.asked_with self (Piece.Named mode) }
    {
        match self.mode {
            None => Some(Asked {
                mode: Some(mode),
                ..self
            }),
            Some(_) => None,
        }
    }

    fn with_seed(self, number: u32) -> Option<Asked>
        ensures { result ≡ kept.asked_with self (Piece.Seed number) }
    {
        let seed = Some(number);
        self.once(self.flags.seed.is_some(), Flags { seed, ..self.flags })
    }

    // The command that was asked for; none where no mode was named, or where its flags aren't what the mode allows.
    fn command(self) -> Option<Command>
        ensures found { IfSome result (λ command. (self.mode ≡ Some command.mode) × (command.flags ≡ self.flags)
            × IsAllowed (form_of command.mode).allowed command.flags) }
        ensures exact { (command : Command) → self.mode ≡ Some command.mode → self.flags ≡ command.flags
            → IsAllowed (form_of command.mode).allowed command.flags → result ≡ Some command }
    {
        let flags = self.flags;
        match self.mode {
            Some(mode) if mode.allowed().allows(flags) => Some(Command { mode, flags }),
            _ => None,
        }
    }
}

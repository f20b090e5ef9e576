//! The two forms of an image's words.

ghost use Rattle.std.specs.Prelude.{◌≡◌};
ghost use Rattle.ink_base.specs.Checks.{words_of};
ghost use Rattle.ink_image.specs.Form.{form_named, form_of};

use ink_base::Token;
use ink_base::checks::word;

/// The form of the words of an image.
#[derive(Clone, Copy, Debug, PartialEq, Eq)]
pub enum Form {
    /// That of `[image1]`: a slot has the number of its reading, and values have 16 bits.
    Earlier,
    /// That of `[image2]`, which boards have today.
    Today,
}

// The form of the words behind a header.
fn form_named(header: &[u8]) -> Form
    ensures { result ≡ form_named header.now }
{
    if header == b"[image1]".as_slice() {
        Form::Earlier
    } else {
        Form::Today
    }
}

/// The form of the words behind a header, which is the first of these words.
pub fn form_of(text: &[u8], words: &[Token]) -> Form
    ensures { result ≡ form_of (words_of text.now words.now) }
{
    match words {
        [] => Form::Today,
        [header, ..] => form_named(word(text, header)),
    }
}

//! Where two texts differ first.

ghost use Rattle.std.specs.Prelude.{◌≡◌, ◌+◌, ◌-◌, ◌<◌, ◌^◌, ℕ, length, MatchResult};
ghost use Rattle.ink_audit.specs.kept.Told.{Objects, DiffersAt};

use crate::objection::Objection;

// Whether a claim is this text. The first line in which they differ is to blame; its line feed is part of it.
pub fn compare(claim: &[u8], text: &[u8]) -> Result<(), Objection>
    requires { length claim.now < 2 ^ 32 - 1 }
    ensures { MatchResult result (λ _. claim.now ≡ text.now) (Objects (DiffersAt claim.now text.now)) }
{
    let mut line = 1;
    for (left, right) in claim.iter().zip(text) {
        if left != right {
            return Err(Objection::Line(line));
        }
        if *left == b'\n' {
            line += 1;
        }
    }
    if claim.len() == text.len() {
        Ok(())
    } else {
        Err(Objection::Line(line))
    }
}

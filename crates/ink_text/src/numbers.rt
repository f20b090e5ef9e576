//! Numbers and names, read from words and written into a text.

ghost use Rattle.std.specs.Prelude.{◌≡◌, ◌≤◌, ◌++◌, decimal, IfOk, OnOk};
ghost use Rattle.ink_base.specs.Gives.{Gives};
ghost use Rattle.ink_text.specs.Words.{up_to};

use ink_base::checks::number_of;
use ink_base::{Cause, LineError, NoMemory};
use itoa::Buffer;

/// What a word says as a number. Refused where it isn't 1 to 10 digits, `BadNumber`, or above the greatest: `OverLimit`.
pub fn up_to(greatest: u64, word: &[u8]) -> Result<u64, LineError>
    ensures given { Gives (λ n. n) result (up_to greatest word.now) }
    ensures within { IfOk result (λ n. n ≤ greatest) }
{
    let n = number_of(word)?;
    if n <= greatest {
        Ok(n)
    } else {
        Err(LineError::Fault(Cause::OverLimit))
    }
}

/// Appends a number in decimal.
pub fn put_number(out: &mut Vec<u8>, number: u64) -> Result<(), NoMemory>
    ensures { OnOk result (out.new.items ≡ out.old.items ++ decimal number) }
{
    let mut buffer = Buffer::new();
    out.extend_from_slice(buffer.format(number).as_bytes())?;
    Ok(())
}

/// Appends a label, and a number in decimal.
pub fn put_count(out: &mut Vec<u8>, label: &[u8], count: u64) -> Result<(), NoMemory>
    ensures { OnOk result (out.new.items ≡ out.old.items ++ label.now ++ decimal count) }
{
    out.extend_from_slice(label)?;
    put_number(out, count)
}

/// Appends a label, and a name.
pub fn put_name(out: &mut Vec<u8>, label: &[u8], name: &[u8]) -> Result<(), NoMemory>
    ensures { OnOk result (out.new.items ≡ out.old.items ++ label.now ++ name.now) }
{
    out.extend_from_slice(label)?;
    out.extend_from_slice(name)?;
    Ok(())
}

//! The job of a text that may end with an image.

ghost use Rattle.std.specs.Prelude.{◌≡◌, ◌≤◌, length};
ghost use Rattle.ink_image.specs.Whole.{image_tails, IsJobOf, Answers};

use crate::before::job_before;
use ink_base::JobAnswer;
use ink_base::limits::TEXT_BYTES;
use job_parts::Job;
use power_trace::Tails;
use std::alloc::Global;

/// The job of a text of at most 4,194,304 bytes that may end with an image behind its section `[power]`, or the first fault of the text.
///
/// Refused up to the end of `[power]` as `parse_parts` refuses. Then a further header is `BadSection` at its line; and the image is judged as
/// `read_image` judges it: `BadWord` at the line of the word, `WrongShape` and `Worn` at that of the header, and `NotStanding` at that of the
/// word whose address is named. A job with an image begins at its start, and in front of the readings that are listed for a source it has
/// as many zeros as the source had settled readings.
pub fn whole_job(alloc: Global, text: &[u8]) -> Result<Job, JobAnswer>
    requires { length text.now ≤ TEXT_BYTES }
    ensures { Answers (IsJobOf text.now) result }
{
    let (job, _nothing) = job_before(alloc, text, image_tails())?;
    Ok(job)
}

// An image of either form may follow the charges.
fn image_tails() -> Tails
    ensures { result ≡ image_tails }
{
    Tails {
        image1: true,
        image2: true,
        ..Tails::none()
    }
}

//! `audit`: the claim behind the job on the source is judged, and whether it is the text of a run of the job is written.

ghost use Rattle.std.specs.Prelude.{◌≡◌, ◌≤◌, length, IfOk};
ghost use Rattle.ink_image.specs.Whole.{Answers};
ghost use Rattle.ink_modes.specs.Given.{HasClaim};
ghost use Rattle.ink_modes.specs.modes.Audit.{Gives, Makes, claim_tails, verdict_text};
ghost use Rattle.ink_modes.specs.modes.Audit.{text as text_of};

use crate::command::Allowed;
use crate::finish::Record;
use crate::given::Given;
use crate::making::Made;
use crate::text::line_count;
use ink_audit::{Verdict, audit};
use ink_base::limits::TEXT_BYTES;
use ink_base::{Cause, JobAnswer, JobFault, NoMemory};
use ink_image::job_before;
use ink_report::Flags;
use ink_text::put_count;
use power_trace::Tails;
use sqlite_items::Items;
use std::alloc::Global;

/// It has no flags.
pub const ALLOWED: Allowed = Allowed::NONE;

/// The job before a claim, and the bytes behind the line `[claim]`. Refused as `job_before` refuses; then a text without such a line lacks it:
/// `Missing` at the number of its lines plus 1.
pub fn given(alloc: Global, text: &[u8]) -> Result<Given, JobAnswer>
    requires { length text.now ≤ TEXT_BYTES }
    ensures given { Answers (Gives text.now) result }
    ensures claim { IfOk result HasClaim }
{
    let (job, behind) = job_before(alloc, text, claim_tails())?;
    let Some(at) = behind else {
        return Err(JobAnswer::Fault(JobFault {
            line: line_count(text) + 1,
            cause: Cause::Missing,
        }));
    };
    let claim = Items::from_slice(alloc, &text[at as usize..])?;
    Ok(Given::Claimed(job, claim))
}

// A claim may follow the charges, or an image.
fn claim_tails() -> Tails
    ensures { result ≡ claim_tails }
{
    Tails {
        image1: true,
        image2: true,
        claim: true,
        ..Tails::none()
    }
}

/// The verdict on a claim, and its text.
pub fn make(alloc: Global, _flags: Flags, given: Given) -> Result<Made, NoMemory>
    requires { HasClaim given }
    ensures record { IfOk result (λ made. Makes given made.record) }
    ensures text { IfOk result (λ made. made.text.items ≡ text_of _flags given made.record) }
{
    let (job, claim) = given.into_claimed();
    let verdict = audit(alloc, &job, claim.as_slice())?;
    let text = verdict_text(alloc, verdict)?;
    Ok(Made {
        record: Record::Audit(verdict),
        text,
    })
}

// The line of a verdict.
fn verdict_text(alloc: Global, verdict: Verdict) -> Result<Vec<u8>, NoMemory>
    ensures { IfOk result (λ text. text.items ≡ verdict_text verdict) }
{
    let mut text = Vec::new(alloc);
    match verdict {
        Verdict::Yes => text.extend_from_slice(b"audit yes\n")?,
        Verdict::No { line } => {
            put_count(&mut text, b"audit no ", u64::from(line))?;
            text.push(b'\n')?;
        }
    }
    Ok(text)
}

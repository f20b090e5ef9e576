//! What holds of the jobs of all texts.

ghost use Rattle.ink_image.specs.Last.{EveryLastBegins, EveryBeforeIsOne, EveryWholeIsBefore};
ghost use Rattle.ink_image.specs.Plain.{EveryPlainText, EveryTextIsOne};

/// A text without the header of an image has exactly the job, or the first fault, that `parse_job` gives. And no text has both a job and a
/// fault.
pub fn texts_tell()
    ensures plain { EveryPlainText }
    ensures one { EveryTextIsOne }
{}

/// Where `job_before` tells a job, it tells an offset exactly where a line of the text that is judged is the header of a section that may
/// stand last, and that is where the line ends. No text has both such a job and a fault. Where nothing may stand last, the job is that of
/// `whole_job`.
pub fn befores_tell()
    ensures last { EveryLastBegins }
    ensures one { EveryBeforeIsOne }
    ensures whole { EveryWholeIsBefore }
{}

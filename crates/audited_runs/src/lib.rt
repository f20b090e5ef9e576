//! What an audit says of the runs of jobs.
#![tactic(auto)]

ghost use Rattle.std.specs.List.{All};
ghost use Rattle.ink_audit.specs.Laws.{HasNames};
ghost use Rattle.audited_runs.specs.Audited.{IsNamed, NoRunIsWrong, RunsAreRight};

use ink_audit::verdicts_are_right;
use job_parts::Job;
use task_isa::ThreadDef;

/// What the run of a job prints with its journal is right, by an audit of it behind that job, and no other verdict is one on it: for every
/// job whose threads have names.
pub fn runs_are_right()
    ensures right { RunsAreRight }
    ensures never_wrong { NoRunIsWrong }
{
    verdicts_are_right();
}

/// The threads of each job have names: the types of its program keep that, and this reads them.
pub fn threads_have_names(job: &Job)
    ensures { HasNames job.now.program }
{
    all_named(job.accepted().program().threads.as_slice());
}

// These threads have names.
fn all_named(threads: &[ThreadDef])
    ensures { All IsNamed threads.now }
{
    for thread in threads {
        let _name = thread.name.as_bytes();
    }
}

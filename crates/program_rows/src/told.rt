//! What `station` and `plan` write of a text, and how they refuse one.

use crate::fixtures::{FIRST_JOB, FIRST_RUN, NEVER, called, sink_of, source_of};
use ink_base::{Cause, JobFault, Status};
use ink_io::NoMemory;
use std::alloc::Global;
use std::test::Fail;
use std::thread::Threads;

// The first job up to its charges, without a reading.
const QUIET: &str =
    "[program]\nthread a priority 1 queue 2 state 1 log 8\nsource a\ntask sum thread a limit 100\nli r1 0\nld r2 r1\nev r3\nadd r2 r2 r3\nst r2 r1\nout r2\ndone\nend\n[sensors]\n[power]\n";

// What is written of it with one charge that serves nothing.
const QUIET_RUN: &str =
    "thread a served 0 trapped 0 expired 0 held 0\nsource S0 next 0 pushed 0 refused 0\nclock 0 commits 0 charges 1\n";

// A mode ends so for a text, and writes this.
fn ends<R: Threads + Sync>(
    alloc: Global,
    runtime: &R,
    mode: &str,
    text: &str,
    status: Status,
    written: &str,
) -> Result<bool, NoMemory> {
    let mut source = source_of(alloc, text, 100, NEVER)?;
    let mut sink = sink_of(alloc, 100, NEVER)?;
    let finish = called(alloc, runtime, mode, &mut source, &mut sink)?;
    Ok(finish.status == status && sink.bytes() == written.as_bytes())
}

fn refused(line: u32, cause: Cause) -> Status {
    Status::Refused(JobFault { line, cause })
}

#[test]
fn each_board_has_its_number_and_its_run(rt: HostRuntime) -> Result<(), Fail> {
    let alloc = rt.alloc();
    let text = format!(in alloc; "[board]\n{FIRST_JOB}[board]\n{QUIET}charge 0 K*50\n")?;
    let runs = format!(in alloc; "board 0\n{FIRST_RUN}board 1\n{QUIET_RUN}")?;
    assert!(rt;
        ends(
            alloc,
            &rt,
            "station",
            text.as_str(),
            Status::Done,
            runs.as_str()
        )?
    );
    Ok(())
}

#[test]
fn a_fault_of_a_later_board_stops_all(rt: HostRuntime) -> Result<(), Fail> {
    let alloc = rt.alloc();
    let missing = format!(in alloc; "[board]\n{FIRST_JOB}[board]\n{QUIET}")?;
    assert!(rt;
        ends(
            alloc,
            &rt,
            "station",
            missing.as_str(),
            refused(33, Cause::Missing),
            ""
        )?
    );
    let image = format!(in alloc; "[board]\n{FIRST_JOB}[board]\n{FIRST_JOB}[image2]\n")?;
    assert!(rt;
        ends(
            alloc,
            &rt,
            "station",
            image.as_str(),
            refused(35, Cause::WrongShape),
            ""
        )?
    );
    Ok(())
}

#[test]
fn a_plan_is_written_of_a_job_alone(rt: HostRuntime) -> Result<(), Fail> {
    let alloc = rt.alloc();
    let plan = "task sum forward code 12 bound 252\nleast 267\n";
    assert!(rt; ends(alloc, &rt, "plan", FIRST_JOB, Status::Done, plan)?);
    let image = format!(in alloc; "{FIRST_JOB}[image2]\n")?;
    assert!(rt;
        ends(
            alloc,
            &rt,
            "plan",
            image.as_str(),
            refused(17, Cause::BadSection),
            ""
        )?
    );
    Ok(())
}

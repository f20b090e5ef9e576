//! The job before a last section, and where that section's bytes begin (ink_image).

ghost use Rattle.std.specs.Prelude.{◌≡◌, ◌&&◌, false};

use ink_base::limits::TEXT_BYTES;
use ink_base::{Cause, JobAnswer, JobFault, NoMemory};
use ink_image::{job_before, write_image};
use ink_layout::{Plan, first_image};
use power_trace::{Tails, parse_job};
use std::alloc::Global;
use std::test::Fail;

// A job of 16 lines. Its thread has a source, and its task adds each reading to the thread's state and puts the sum out.
const JOB: &[u8] =
    b"[program]\nthread a priority 1 queue 2 state 1 log 8\nsource a\ntask sum thread a limit 100\nli r1 0\nld r2 r1\nev r3\nadd r2 r2 r3\nst r2 r1\nout r2\ndone\nend\n[sensors]\nS0 7\n[power]\ncharge 0\n";

// What stands in front: the job, or the job with the 18 lines of its board's first image.
#[derive(Clone, Copy)]
enum Front {
    Job,
    Image,
}

const IMAGES: Tails = Tails {
    image1: true,
    image2: true,
    claim: false,
    radio: false,
};

const CLAIM: Tails = Tails {
    image1: true,
    image2: true,
    claim: true,
    radio: false,
};

const RADIO: Tails = Tails {
    image1: true,
    image2: true,
    claim: false,
    radio: true,
};

const ONLY_CLAIM: Tails = Tails {
    image1: false,
    image2: false,
    claim: true,
    radio: false,
};

// What is told of the bytes behind the front: that no last section begins, where one does, counted from the first of them, or the first fault.
#[derive(Clone, Copy, Debug, PartialEq, Eq)]
enum Told {
    Nothing,
    At(u32),
    Refused(u32, Cause),
}

// The text of the board's first image.
fn image(alloc: Global) -> Result<Vec<u8>, JobAnswer> {
    if JOB.len() > TEXT_BYTES {
        return Err(JobAnswer::NoMemory);
    }
    let (accepted, _, _, _) = parse_job(alloc, JOB)?.into_parts();
    let plan = Plan::new(alloc, accepted)?;
    // The layout is the program's own.
    let _program = plan.program();
    let words = first_image(alloc, &plan.accepted, &plan.layout)?.into_words();
    Ok(write_image(alloc, words.as_slice())?)
}

fn text_of(alloc: Global, front: Front) -> Result<Vec<u8>, JobAnswer> {
    let mut text = Vec::new(alloc);
    text.extend_from_slice(JOB)?;
    match front {
        Front::Job => Ok(text),
        Front::Image => {
            let image = image(alloc)?;
            text.extend_from_slice(image.as_slice())?;
            Ok(text)
        }
    }
}

fn told_by(answer: Result<Option<u32>, JobAnswer>, front: u32) -> Result<Told, NoMemory> {
    match answer {
        Ok(None) => Ok(Told::Nothing),
        Ok(Some(at)) if front <= at => Ok(Told::At(at - front)),
        Ok(Some(_)) => Ok(Told::At(4294967295)),
        Err(JobAnswer::Fault(JobFault { line, cause })) => Ok(Told::Refused(line, cause)),
        Err(JobAnswer::NoMemory) => Err(NoMemory),
    }
}

// What `job_before` tells of these bytes.
fn what_is_told(alloc: Global, tails: Tails, kind: Front, behind: &[u8]) -> Result<Told, NoMemory>
    requires { (tails.claim && tails.radio) ≡ false }
{
    let Ok(mut text) = text_of(alloc, kind) else {
        return Err(NoMemory);
    };
    let front = text.len();
    text.extend_from_slice(behind)?;
    if text.len() > TEXT_BYTES {
        return Err(NoMemory);
    }
    let answer = match job_before(alloc, text.as_slice(), tails) {
        Ok((_job, last)) => Ok(last),
        Err(e) => Err(e),
    };
    told_by(answer, front as u32)
}

// Bytes behind a front, and what is told of them.
type Case = (Front, &'static [u8], Told);

const OF_CLAIMS: &[Case] = &[
    (Front::Job, b"", Told::Nothing),
    (Front::Job, b"# [claim]\n", Told::Nothing),
    (Front::Job, b"[claim]\n1 a 7\n", Told::At(8)),
    (Front::Job, b"[claim]", Told::At(7)),
    (Front::Job, b"\n  [claim]\t# it\r\n1 a 7\n", Told::At(17)),
    (Front::Job, b"[claim]#\n", Told::At(9)),
    (Front::Job, b"[claim]\n\x01\xff\n[claim]\n", Told::At(8)),
    (
        Front::Job,
        b"[claim] x\n",
        Told::Refused(17, Cause::UnknownWord),
    ),
    (
        Front::Job,
        b"[claim] \x01\n",
        Told::Refused(17, Cause::BadByte),
    ),
    (
        Front::Job,
        b"\x01\n[claim]\n",
        Told::Refused(17, Cause::BadByte),
    ),
    (
        Front::Job,
        b"x [claim]\n",
        Told::Refused(17, Cause::UnknownWord),
    ),
    (
        Front::Job,
        b"[claims]\n\x01",
        Told::Refused(18, Cause::BadByte),
    ),
    (
        Front::Job,
        b"[radio]\n",
        Told::Refused(17, Cause::BadSection),
    ),
    (Front::Image, b"", Told::Nothing),
    (Front::Image, b"[claim]\n\x01", Told::At(8)),
    (
        Front::Image,
        b"[claim] x\n",
        Told::Refused(35, Cause::UnknownWord),
    ),
    (
        Front::Image,
        b"[radio]\n",
        Told::Refused(35, Cause::BadSection),
    ),
    (
        Front::Image,
        b"[image2]\n[claim]\n",
        Told::Refused(35, Cause::BadSection),
    ),
    (
        Front::Image,
        b"0\n[claim]\n",
        Told::Refused(35, Cause::BadWord),
    ),
    (
        Front::Image,
        b"0000000000000000\n[claim]\n",
        Told::Refused(17, Cause::WrongShape),
    ),
    (
        Front::Image,
        b"0\n[claim] x\n",
        Told::Refused(36, Cause::UnknownWord),
    ),
];

const OF_SCRIPTS: &[Case] = &[
    (Front::Job, b"", Told::Nothing),
    (Front::Job, b"[radio]\ngrow 1\nsend\n", Told::At(8)),
    (Front::Job, b"[radio]\n[x]\n[radio]\n[claim]", Told::At(8)),
    (
        Front::Job,
        b"[radio]\n\ngrow \x01\n",
        Told::Refused(19, Cause::BadByte),
    ),
    (
        Front::Job,
        b"[radio] 1\n",
        Told::Refused(17, Cause::UnknownWord),
    ),
    (
        Front::Job,
        b"[claim]\n",
        Told::Refused(17, Cause::BadSection),
    ),
    (Front::Image, b"[radio]\nsend\n", Told::At(8)),
    (
        Front::Image,
        b"0\n[radio]\n\x01",
        Told::Refused(37, Cause::BadByte),
    ),
    (
        Front::Image,
        b"0\n[radio]\n",
        Told::Refused(35, Cause::BadWord),
    ),
];

const OF_IMAGES: &[Case] = &[
    (Front::Image, b"", Told::Nothing),
    (
        Front::Job,
        b"[claim]\n",
        Told::Refused(17, Cause::BadSection),
    ),
    (
        Front::Image,
        b"[radio]\n",
        Told::Refused(35, Cause::BadSection),
    ),
];

#[test]
fn a_claim_last(rt: HostRuntime) -> Result<(), Fail> {
    for (front, behind, wanted) in OF_CLAIMS {
        assert_eq!(rt; what_is_told(rt.alloc(), CLAIM, *front, behind)?, *wanted);
    }
    Ok(())
}

#[test]
fn a_script_last(rt: HostRuntime) -> Result<(), Fail> {
    for (front, behind, wanted) in OF_SCRIPTS {
        assert_eq!(rt; what_is_told(rt.alloc(), RADIO, *front, behind)?, *wanted);
    }
    Ok(())
}

#[test]
fn nothing_last(rt: HostRuntime) -> Result<(), Fail> {
    for (front, behind, wanted) in OF_IMAGES {
        assert_eq!(rt; what_is_told(rt.alloc(), IMAGES, *front, behind)?, *wanted);
    }
    let image = what_is_told(rt.alloc(), ONLY_CLAIM, Front::Image, b"[claim]\n")?;
    assert_eq!(rt; image, Told::Refused(17, Cause::BadSection));
    Ok(())
}

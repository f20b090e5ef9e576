//! The text of a run with one line left out, repeated, or exchanged with the next one. The verdicts were worked out by hand. A journal without
//! its `Tick 0`, with one more of it, with one more scan, or with its push elsewhere in front of the commit is legal too, and changes nothing
//! else in the text.

use crate::fixtures::told;
use ink_base::NoMemory;
use std::alloc::Global;
use std::test::Fail;

// What the run prints, line by line.
const LINES: [&[u8]; 10] = [
    b"1 a 7\n",
    b"thread a served 1 trapped 0 expired 0 held 0\n",
    b"source S0 next 1 pushed 1 refused 0\n",
    b"clock 0 commits 1 charges 1\n",
    b"[journal]\n",
    b"Tick 0\n",
    b"Push S0\n",
    b"Scan\n",
    b"Commit a\n",
    b"Release a\n",
];

// What is told of the lines where these stand in place of so many from a place on.
fn replaced(
    alloc: Global,
    from: usize,
    count: usize,
    by: &[&[u8]],
) -> Result<Option<u32>, NoMemory> {
    let mut lines = Vec::new(alloc);
    for (n, line) in LINES.iter().enumerate() {
        if n == from {
            lines.extend_from_slice(by)?;
        }
        if n < from || n - from >= count {
            lines.push(*line)?;
        }
    }
    told(alloc, lines.as_slice())
}

#[test]
fn a_line_is_left_out(rt: HostRuntime) -> Result<(), Fail> {
    let verdicts = [1, 2, 3, 4, 10, 0, 8, 8, 9, 2];
    for (n, verdict) in verdicts.iter().enumerate() {
        assert_eq!(rt; replaced(rt.alloc(), n, 1, &[])?, Some(*verdict));
    }
    Ok(())
}

#[test]
fn a_line_is_repeated(rt: HostRuntime) -> Result<(), Fail> {
    let verdicts = [2, 3, 4, 5, 6, 0, 8, 0, 10, 11];
    for (n, (line, verdict)) in LINES.iter().zip(verdicts.iter()).enumerate() {
        assert_eq!(rt;
            replaced(rt.alloc(), n, 1, &[*line, *line])?,
            Some(*verdict)
        );
    }
    Ok(())
}

#[test]
fn two_lines_are_exchanged(rt: HostRuntime) -> Result<(), Fail> {
    let verdicts = [1, 2, 3, 5, 5, 0, 0, 8, 9];
    for (n, (pair, verdict)) in LINES.windows(2).zip(verdicts.iter()).enumerate() {
        if let [first, second] = pair {
            assert_eq!(rt;
                replaced(rt.alloc(), n, 2, &[*second, *first])?,
                Some(*verdict)
            );
        }
    }
    Ok(())
}

//! A live board before its first charge.

use crate::fixtures::prepared;
use irq_source::SourceParts;
use std::test::Fail;

const TWO_SOURCES: &[u8] =
    b"[program]\nthread a priority 1 queue 2 state 0 log 8\nthread b priority 2 queue 4 state 0 log 8\nsource a\nsource b\ntask l thread a limit 1\ndone\nend\ntask h thread b limit 1\ndone\nend\n[sensors]\nS0 7\nS1 8 9\n[power]\ncharge 0 S0*9 K*79\ncharge 3 S1*9\n";

// Whether a source has published and refused nothing.
fn is_first(parts: &SourceParts) -> bool {
    parts.src == 0 && parts.accepted.is_empty() && parts.refused.is_empty()
}

#[test]
fn nothing_was_done_before_the_first_charge(rt: HostRuntime) -> Result<(), Fail> {
    let parts = prepared(rt.alloc(), TWO_SOURCES)?;
    assert_eq!(rt; parts.job.charges().len(), 2);
    assert_eq!(rt; parts.sources.len(), 2);
    for source in parts.sources {
        assert!(rt; is_first(&source.into_parts()));
    }
    assert_eq!(rt; parts.kernel.into_parts().account.len(), 0);
    Ok(())
}

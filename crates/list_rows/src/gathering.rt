//! The lists of a record, from those of the two sources.
ghost use Rattle.list_rows.specs.Rows.{IsOfTwo};

use crate::two_sources::two_lists;
use ink_base::NoMemory;
use job_parts::Job;
use queue_lists::{Gathered, ListRoom, gather};
use std::alloc::Global;

/// The lists of both sources, in the room of their job.
pub fn gathered(alloc: Global, job: &Job) -> Result<Gathered, NoMemory>
    requires { IsOfTwo job.now }
{
    let room = ListRoom::new(alloc, job)?;
    let lists = two_lists(alloc)?;
    Ok(gather(job, lists.as_slice(), room))
}

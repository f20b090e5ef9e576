//! What a plan says.

use sqlite_items::Items;

/// The plan of one task. All numbers count accesses of the kernel.
#[derive(Drop)]
pub struct TaskPlan {
    /// Whether the code is forward: each jump goes to a later instruction, and the limit allows as many instructions as there are.
    pub forward: bool,
    /// For each offset of forward code how many accesses its instructions take at most from there on. Empty for other code.
    pub rest: Items<u32>,
    /// The offsets of a path of forward code that takes most, from the first instruction to one that ends the task. Empty for other code.
    pub path: Items<u16>,
    /// How many accesses the instructions of a run take at most.
    pub code: u32,
    /// How many accesses the kernel makes at most from the pick of an event that the task serves to the commit of that service.
    pub bound: u32,
}

/// The plan of a program: of each task, in order, and how many accesses of the kernel a charge should have at least.
#[derive(Drop)]
pub struct EnergyPlan {
    pub tasks: Items<TaskPlan>,
    /// With so many accesses a charge has a scan that is answered: by a commit, or because no thread has an event.
    pub least: u64,
}

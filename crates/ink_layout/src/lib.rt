//! What the machines of the kernel speak of: where a program's words stand, its first image, and what a step and a scan tell.
#![tactic(auto)]

mod addresses;
mod image;
mod kernel_point;
mod making;
mod pick;
mod plan;
mod slot_at;
mod slots;
mod starts;

pub use fram_words::{Layout, QueuePlace, ThreadPlace};
pub use image::{first_image, write_first_image};
pub use kernel_point::KernelPoint;
pub use making::make_layout;
pub use pick::Pick;
pub use plan::Plan;
pub use slot_at::SlotAt;
pub use slots::slot_of;

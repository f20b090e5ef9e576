//! The text of an image of a board's words, the words that a text says, and the job of a text that ends with an image.
#![tactic(auto)]

mod before;
mod bytes;
mod claim;
mod form;
mod image;
mod imaged;
mod judging;
mod laws;
mod reading;
mod settled;
mod whole;
mod writing;

pub use before::job_before;
pub use form::Form;
pub use image::{ImageAnswer, read_image};
pub use laws::{befores_tell, texts_tell};
pub use reading::{WordsAnswer, read_words};
pub use whole::whole_job;
pub use writing::write_image;

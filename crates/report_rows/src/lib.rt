//! Tests of ink_io, ink_image and ink_report through their public calls.
#![tactic(auto)]

#[cfg(test)]
mod before;
#[cfg(test)]
mod images;
#[cfg(test)]
mod moved;
#[cfg(test)]
mod reported;
#[cfg(test)]
mod told;

//! Tests of image_checks, image_state and old_image through their public calls, on the words of one small board.
#![tactic(auto)]

#[cfg(test)]
mod checked;
#[cfg(test)]
mod fixtures;
#[cfg(test)]
mod old;
#[cfg(test)]
mod told;

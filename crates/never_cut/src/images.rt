//! What images and states tell of each other.

ghost use Rattle.never_cut.specs.Images.{EveryImageStands, EveryStateIsImage};

/// The law of images, for every accepted program: words that meet the checks of an image and aren't worn stand for the state that is read
/// off them, their sources' numbers are kept in order, and a run can begin at that state. The other way round, words that stand for a sound
/// state whose counts have room are an image, where its sources' numbers are kept in order.
pub fn images_stand()
    ensures stands { EveryImageStands }
    ensures is_image { EveryStateIsImage }
{}

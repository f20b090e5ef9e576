//! What a place at which words fail to be an image tells.

ghost use Rattle.image_checks.specs.Laws.{NoImageFails};

/// The law of failing places: words that are an image have none. So `first_failing` names one exactly where they aren't.
pub fn images_hold()
    ensures { NoImageFails }
{}

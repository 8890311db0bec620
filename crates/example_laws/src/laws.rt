//! What is proved of the example: each function's contract is a law.
ghost use Rattle.example_laws.specs.Laws.{AreTwoCores};
ghost use Rattle.example_laws.specs.Told.{TwoCoresClose, TwoImageStands};

/// Two cores that each flush one of two directories meet all that is asked of cores, pens, plans and books up to the
/// image.
pub fn are_two_cores()
    ensures { AreTwoCores }
{}

/// They meet all that is asked of labels and of a disk at the end of a mount, so the mount closes.
pub fn two_cores_close()
    ensures { TwoCoresClose }
{}

/// There is such an image, in bytes.
pub fn two_image_stands()
    ensures { TwoImageStands }
{}

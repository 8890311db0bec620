//! What is proved of images of imagined volumes: each function's contract is a law.
ghost use Rattle.imagined_laws.specs.Parts.{GivenOnce, ImagesAreRead, ImaginedShow};

/// The parts that a planned fsync gives inodes, over those before, are the parts that it leaves.
pub fn given_once()
    ensures { GivenOnce }
{}

/// The parts of an imagined volume are those that were given, one after another, over the first ones.
pub fn imagined_show()
    ensures { ImaginedShow }
{}

/// So an image that stands for them is read as the tree of the imagined volume.
pub fn images_are_read()
    ensures { ImagesAreRead }
{}

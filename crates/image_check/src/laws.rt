// The laws of certificates: functions without a body, whose contracts are what is proved.
ghost use Rattle.image_check.specs.Laws.{CertificatesAreOne, FaultlessImagesAreCertified, ValidImagesAreFaultless, ValidImagesHaveSoundTrees};

/// An image with a valid certificate has no fault.
pub fn valid_images_are_faultless()
    ensures { ValidImagesAreFaultless }
{}

/// An image with a valid certificate has a sound tree.
pub fn valid_images_have_sound_trees()
    ensures { ValidImagesHaveSoundTrees }
{}

/// An image without a fault has a valid certificate.
pub fn faultless_images_are_certified()
    ensures { FaultlessImagesAreCertified }
{}

/// Two valid certificates of one image are one.
pub fn certificates_are_one()
    ensures { CertificatesAreOne }
{}

//! The laws of certificates: each function's `ensures` is one law, and its body is empty.
ghost use Rattle.fw_certify.specs.LawsOfCertificates.{CertificateIsSaidYes, CertificateOfState, CertificateOfStateShowsLargest, CertificateShowsLargest, CertificatesAgree, DeadEndOfState, DeadEndShowsNone, TrailIsCertificate};

/// A certificate shows that its choice is the largest of what nodes offer.
pub fn certificate_shows_largest()
    ensures { CertificateShowsLargest }
{}

/// And of what the machine offers in a state.
pub fn certificate_of_state_shows_largest()
    ensures { CertificateOfStateShowsLargest }
{}

/// A dead end shows that no choice is consistent.
pub fn dead_end_shows_none()
    ensures { DeadEndShowsNone }
{}

/// The trail of a descent is a certificate.
pub fn trail_is_certificate()
    ensures { TrailIsCertificate }
{}

/// The one right verdict on a certificate is yes.
pub fn certificate_is_said_yes()
    ensures { CertificateIsSaidYes }
{}

/// Two certificates of what is offered end at one choice.
pub fn certificates_agree()
    ensures { CertificatesAgree }
{}

/// Where data are what the machine offers in a state, a certificate over the data is one over the state, and back.
pub fn certificate_of_state()
    ensures { CertificateOfState }
{}

/// And a dead end over the data is one over the state.
pub fn dead_end_of_state()
    ensures { DeadEndOfState }
{}

//! Laws of certificates, as contracts of functions that do nothing.

ghost use Rattle.std.specs.Prelude.{◌≡◌, Ok, length};
ghost use Rattle.dp_cert.specs.Spelling.{Certificate, IsCertificate, spelling};
ghost use Rattle.dp_cert.specs.Reading.{cert_of};

/// A law: the text of a certificate reads as that certificate.
pub fn encoded_certificates_are_read_again()
    ensures { (cert : Certificate) → IsCertificate cert → cert_of (length cert.rows) (spelling cert) ≡ Ok cert }
{}

/// A law: two certificates with the same text are the same.
pub fn certificates_have_one_spelling()
    ensures { (cert cert' : Certificate) → IsCertificate cert → IsCertificate cert' → spelling cert ≡ spelling cert' → cert ≡ cert' }
{}

//! Certificates of sessions: for each source block (RFC 5052, section 9.1) the polynomial of each
//! byte column.
//!
//! ```
//! let certificate = certify(alloc, OBJECT, &fti()?)?.into_named(IDENTITY)?;
//! certificate.write(file)?;
//! Ok(Certificate::read(alloc, &mut Pieces::new(file.bytes(), 4096))?)
//! ```
//!
//! `certificate` has the certificate, its file and the faults of one (`specs/Certificate`). `head`
//! reads and writes what stands in the file before the coefficients, and `column_text` the
//! coefficients of a certificate without a name, column by column. `converting` gives a file a
//! name, block by block. `view` has a certificate whose coefficients may be borrowed, and `in_file`
//! one whose coefficients stay in its file.
#![tactic(auto)]

mod certificate;
mod column_text;
mod converting;
mod head;
mod in_file;
mod view;

pub use certificate::{CertFault, Certificate, one_certificate, texts_without_fault};
pub use converting::{ConvertFault, convert};
pub use head::write_head;
pub use in_file::CertificateFile;
pub use view::CertificateView;

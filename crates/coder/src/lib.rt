//! The encoder and the decoder under one name.
//!
//! ```
//! let mut frames = Sink::new(alloc);
//! let mut object = Pieces::new(OBJECT, 16);
//! encode_from(alloc, &mut object, 7, 2, &fti()?, 1, &mut frames)?;
//! ```
//!
//! - The crate `encoder` has [`encode`], [`encode_from`] and [`encode_rounds_from`], which make the
//!   session of an object, and [`certify`], [`certify_to`] and [`certify_from`], which make its
//!   certificate.
//! - The crate `decoder` has [`decode`], which gives the object that datagrams carry. Above it
//!   stand `file_decoder`, which decodes a session file and holds places alone, and `receiver` with
//!   [`Receiver`], which is fed datagrams one by one.
//!
//! The encoder and these don't depend on one another. This crate has no code of its own.
#![tactic(auto)]

pub use block_recovery::DecodeFault;
pub use decoder::{Answer, Unread, WriteFault, decode, decode_selection, one_answer};
pub use encoder::{
    CertifyFault, CertifyFromFault, ObjectFault, SendFault, SendFromFault, certify, certify_from,
    certify_to, encode, encode_from, encode_rounds_from, sent_checks_yes,
};
pub use file_decoder::{FileFault, FileSymbols, index_file};
pub use receiver::{FeedFault, Progress, Receiver};

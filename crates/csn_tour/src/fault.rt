//! What can go wrong on the tour.

use csn_bits::NoMemory;
use csn_cert::CertFault;
use csn_decode::DecodeFault;
use csn_grammar::GrammarFault;
use csn_resolve::ResolveFault;
use std::alloc::AllocError;
use std::io;
use thiserror::Error;

/// Why the tour ended early.
#[derive(Debug, Drop, Error)]
pub enum TourFault {
    #[error("the text has no rules")]
    Rules(#[from] GrammarFault),
    #[error("the description is refused")]
    Description(#[from] ResolveFault),
    #[error("the block has no tree")]
    Block(#[from] DecodeFault),
    #[error("the certificate cannot be read")]
    Certificate(#[from] CertFault),
    #[error("the output could not be written")]
    Output(#[from] io::Error),
    #[error("what was written is no text")]
    NoText,
    #[error("a text is longer than it may be")]
    TooLong,
    #[error("the description has a conflict")]
    Conflict,
    #[error("the tree has no block")]
    Tree,
    #[error("the block cannot be followed")]
    NotFollowed(u32),
    #[error("out of memory")]
    Memory(#[from] NoMemory),
    #[error("out of memory")]
    Alloc(#[from] AllocError),
}

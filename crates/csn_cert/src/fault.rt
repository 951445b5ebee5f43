ghost use Rattle.std.specs.Prelude.{◌≡◌};
ghost use Rattle.csn_cert.specs.declared.fault.CertFault.TheVariants.{NoMemory as no_memory};

use std::alloc::AllocFailed;
use thiserror::Error;

/// Why bytes could not be read as the text of a certificate.
#[derive(Clone, Copy, Debug, Drop, PartialEq, Eq, Error)]
pub enum CertFault {
    /// They are the text of no certificate.
    #[error("no text of a certificate")]
    Text,
    #[error("out of memory")]
    NoMemory,
}

impl<T: Drop> From<AllocFailed<T>> for CertFault {
    ghost from_gives = { λ _ e. e ≡ no_memory };

    fn from(_e: AllocFailed<T>) -> CertFault {
        CertFault::NoMemory
    }
}

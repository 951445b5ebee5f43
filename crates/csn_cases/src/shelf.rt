use std::alloc::{AllocError, Global};
use std::collections::BTreeMap;

/// The files of the cases, which stay from case to case.
#[derive(Drop)]
pub(crate) struct Shelf {
    files: BTreeMap<String, Vec<u8>>,
}

impl Shelf {
    pub(crate) fn new(alloc: Global) -> Shelf {
        Shelf {
            files: BTreeMap::new(alloc),
        }
    }

    /// Sets a file.
    pub(crate) fn set(
        &mut self,
        alloc: Global,
        name: &str,
        bytes: Vec<u8>,
    ) -> Result<(), AllocError> {
        let name = String::from_str(alloc, name)?;
        self.files.insert(name, bytes)?;
        Ok(())
    }

    /// Adds to a file. Tells whether it is there.
    pub(crate) fn add(&mut self, name: &str, bytes: &[u8]) -> Result<bool, AllocError> {
        match self.files.get_mut(name) {
            Some(file) => {
                file.extend_from_slice(bytes)?;
                Ok(true)
            }
            None => Ok(false),
        }
    }

    /// The files, for one run.
    pub(crate) fn copy(&self) -> Result<BTreeMap<String, Vec<u8>>, AllocError> {
        self.files.clone()
    }
}

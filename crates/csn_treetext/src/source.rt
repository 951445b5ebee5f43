use crate::version::Version;
use std::alloc::Global;

/// What is read: a text of one version. The tree takes its memory from `alloc`.
#[derive(Clone, Copy)]
pub struct Source<'a> {
    pub alloc: Global,
    pub version: Version,
    pub text: &'a [u8],
}

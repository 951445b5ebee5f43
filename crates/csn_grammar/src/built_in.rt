ghost use Rattle.std.specs.Prelude.{◌≡◌, IfSome, is_some};
ghost use Rattle.csn_grammar.specs.Names.{name_of, is_built_in};

/// The names that every description has already.
#[derive(Clone, Copy, Debug, Drop, PartialEq, Eq)]
pub enum BuiltIn {
    /// `spare bit`: one spare bit, which is sent as 0.
    SpareBit,
    /// `spare L`: one spare bit, which is sent as L.
    SpareLow,
    /// `spare padding`: all bits that are left, which are sent as L.
    SparePadding,
    /// `no string`: nothing has this form, not even no bits.
    NoString,
}

impl BuiltIn {
    /// The built-in name that these bytes are, and none where they are another name.
    pub fn of(name: &[u8]) -> Option<BuiltIn>
        ensures whether { is_some result ≡ is_built_in name.now }
        ensures which { IfSome result (λ built_in. name.now ≡ name_of built_in) }
    {
        if b"spare bit".as_slice() == name {
            Some(BuiltIn::SpareBit)
        } else if b"spare L".as_slice() == name {
            Some(BuiltIn::SpareLow)
        } else if b"spare padding".as_slice() == name {
            Some(BuiltIn::SparePadding)
        } else if b"no string".as_slice() == name {
            Some(BuiltIn::NoString)
        } else {
            None
        }
    }
}

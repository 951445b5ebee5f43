use csn_desc::Reading;

/// What is asked about: a rule of a text in one reading, and how the file of the text is called in what is
/// told.
#[derive(Clone, Copy)]
pub struct Asked<'a> {
    pub file: &'a str,
    pub text: &'a [u8],
    pub name: &'a [u8],
    pub reading: Reading,
}

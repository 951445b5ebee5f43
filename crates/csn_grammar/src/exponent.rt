use csn_desc::Label;

/// The most digits that a number is written in.
pub const MOST_DIGITS: usize = 9;

/// How often a part stands, or how many bits a field has.
#[derive(Drop)]
pub enum Exponent {
    /// `**`, `(*)` or `(**)`: any number.
    Any,
    /// A number, as written.
    Number(u32),
    /// `m * val(label) + c`: a number made of the value of a labelled field.
    Linear { m: u32, label: Label, c: u32 },
}

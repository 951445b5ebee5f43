/// The form in which trees stand in lines.
#[derive(Clone, Copy)]
pub enum TreeForm {
    /// The text of csn_treetext.
    Text,
    /// The JSON of this crate, with no space.
    Json,
}

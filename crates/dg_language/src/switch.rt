//! How `switch` compares.
/// How a pattern of `switch` is compared with the text.
#[derive(Clone, Copy, Debug, PartialEq, Eq)]
pub enum Matching {
    /// The same bytes.
    Exact,
    /// As by `string match`.
    Glob,
}

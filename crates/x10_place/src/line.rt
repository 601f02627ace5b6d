/// A line of output.
#[derive(Debug, Drop)]
pub enum Line {
    /// A number, to be shown in decimal.
    Int(i64),
    /// A text, in UTF-8.
    Text(String),
}

use thiserror::Error;

/// Why words ask for nothing.
#[derive(Clone, Copy, Debug, PartialEq, Eq, Error)]
pub enum WordsErr {
    /// They aren't taken.
    #[error("words that aren't taken")]
    Usage,
    /// Memory ran out.
    #[error("out of memory")]
    Memory,
}

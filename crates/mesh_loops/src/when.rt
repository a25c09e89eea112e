/// Of when routes are.
#[derive(Clone, Copy, Debug, PartialEq, Eq)]
pub(crate) enum When {
    /// When loops were looked at last.
    Before,
    /// Now.
    Now,
}

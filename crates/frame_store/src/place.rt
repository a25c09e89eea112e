/// Where a frame lies: in which chunk, from which byte of it, and how long it is.
#[derive(Clone, Copy, Debug)]
pub struct Place {
    pub(crate) chunk: u32,
    pub(crate) start: u32,
    pub(crate) len: u32,
}

/// Which link frames are printed.
#[derive(Clone, Copy, Debug, PartialEq, Eq)]
pub enum FrameChoice {
    /// `none`
    Hidden,
    /// `all`
    All,
    /// `client`: packets that carry client frames.
    Client,
    /// `ogm`: originator messages of both algorithms, and ELP.
    Ogm,
    /// `route`: none, and the routes of the mesh are watched.
    Route,
}

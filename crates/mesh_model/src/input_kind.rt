use crate::frame_choice::FrameChoice;

/// What the lines of an input are.
#[derive(Clone, Copy, Debug, PartialEq, Eq)]
pub enum InputKind {
    /// Those of a scenario, with the link frames that are printed.
    Scenario(FrameChoice),
    /// Lines of routes, of whose loops is told.
    Routes,
}

/// A frame that was sent on a link, by the places of the link and of its sending.
#[derive(Clone, Copy, Debug)]
pub struct Posted {
    pub link: u32,
    pub sending: u32,
}

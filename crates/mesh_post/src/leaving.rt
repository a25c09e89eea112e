ghost use Rattle.std.specs.Prelude.{◌≡◌, [], ◌<◌, length, slice_get, slice_index_or, Some, None, ◌+◌};
ghost use Rattle.mesh_post.specs.Sent.{chosen_at, chosen_ways, row_goes};

use crate::post::Post;
use mesh_base::Mac;

impl Post {
    // The link at a place among those that leave a node.
    pub(crate) fn way_at(&self, node: u32, i: usize) -> Option<u32>
        ensures { result ≡ slice_get (slice_index_or self.now.ways.items node []) i }
    {
        self.ways.get(node as usize)?.places.get(i).copied()
    }

    // How many links leave a node.
    pub(crate) fn way_count(&self, node: u32) -> usize
        ensures { result ≡ length (slice_index_or self.now.ways.items node []) }
    {
        match self.ways.get(node as usize) {
            None => 0,
            Some(ways) => ways.places.len(),
        }
    }

    // Whether a frame goes on the link at a place.
    fn goes(&self, way: u32, to: Option<Mac>) -> bool
        ensures { result ≡ row_goes self.now.rows to way }
    {
        let Some(row) = self.rows.get(way) else {
            return false;
        };
        match to {
            None => true,
            Some(mac) => row.end == mac,
        }
    }

    // The link at a place among those that leave a node, where a frame goes on it.
    pub(crate) fn chosen_at(&self, node: u32, i: usize, to: Option<Mac>) -> Option<u32>
        ensures { result ≡ chosen_at self.now node i to }
    {
        let way = self.way_at(node, i)?;
        if self.goes(way, to) { Some(way) } else { None }
    }

    // How many frames an act of a node is.
    pub(crate) fn count(&self, node: u32, to: Option<Mac>) -> usize
        ensures { result ≡ length (chosen_ways self.now node to) }
    {
        let mut count = 0;
        for i in 0..self.way_count(node) {
            if self.chosen_at(node, i, to).is_some() {
                count += 1;
            }
        }
        count
    }
}

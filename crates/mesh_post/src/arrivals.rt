ghost use Rattle.std.specs.Prelude.{◌≡◌, List, slice_get, option_and_then, option_map, Some, None};
ghost use Rattle.mesh_model.specs.Net.Mesh.{NetLink, SentFrame, Mesh};
ghost use Rattle.mesh_post.specs.declared.row.Arrival.{Arrival};
ghost use Rattle.mesh_post.specs.Lanes.{ArrivalIs};
ghost use Rattle.mesh_post.specs.declared.row.Sending.{Sending};
ghost use Rattle.mesh_post.specs.Kept.{PostStands};

use crate::post::Post;
use crate::row::Arrival;

impl Post {
    // The place of the node at the end of the link of the frame at a place, where there is one.
    pub fn receiver(&self, place: u32) -> Option<u32>
        ensures { (sendings : List Sending) (mesh : Mesh) → PostStands self.now sendings mesh →
            result ≡ option_map (λ (link : NetLink). link.to) (option_and_then
            (λ (frame : SentFrame). slice_get mesh.links frame.link)
            (slice_get mesh.frames place)) }
    {
        let frame = self.frames.get(place)?;
        let row = self.rows.get(frame.link)?;
        Some(row.to)
    }

    // What the frame at a place brings, and whom.
    pub fn arrival(&self, place: u32) -> Option<Arrival>
        ensures some { (sendings : List Sending) (mesh : Mesh) (frame : SentFrame)
            (link : NetLink) →
            PostStands self.now sendings mesh → slice_get mesh.frames place ≡ Some frame →
            slice_get mesh.links frame.link ≡ Some link →
            (arrival : Arrival) × (result ≡ Some arrival)
            × ArrivalIs sendings mesh frame link arrival }
        ensures none { (sendings : List Sending) (mesh : Mesh) →
            PostStands self.now sendings mesh → slice_get mesh.frames place ≡ None →
            result ≡ None }
    {
        let frame = self.frames.get(place)?;
        let row = self.rows.get(frame.link)?;
        Some(Arrival {
            sending: frame.sending,
            to: row.to,
            from: row.start,
            tp: self.rows.back(frame.link),
        })
    }
}

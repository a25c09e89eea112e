ghost use Rattle.std.specs.Prelude.{◌≡◌, ℕ, List, slice_set};
ghost use Rattle.mesh_post.specs.Refused.{with_turn};

// The link at a place carried so many frames.
pub(crate) fn set_turn(turns: &mut Vec<u32>, way: u32, carried: u32)
    ensures { turns.new.items ≡ slice_set turns.old.items way carried }
{
    if let Some(turn) = turns.get_mut(way as usize) {
        *turn = carried;
    }
}

// Takes back the last turn of the link at a place.
pub(crate) fn take_turn(turns: &mut Vec<u32>, way: u32)
    ensures { (before : List ℕ) → turns.old.items ≡ with_turn way before →
        turns.new.items ≡ before }
{
    if let Some(turn) = turns.get_mut(way as usize) {
        *turn = turn.saturating_sub(1);
    }
}

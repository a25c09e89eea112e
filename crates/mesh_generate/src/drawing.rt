//! The series of numbers from which is drawn.

ghost use Rattle.std.specs.Prelude.{◌≡◌, ◌<◌, ◌≤◌};
ghost use Rattle.mesh_model.specs.Run.Generated.{draw, next_drawn};

/// One more than the greatest number of the series.
pub const SERIES_END: u64 = 2_147_483_648;

/// The number that follows in the series.
#[tactic(auto, unfolding(mesh_model::specs::Run::Generated::next_drawn))]
pub fn next_drawn(x: u64) -> u64
    requires { x < SERIES_END }
    ensures value { result ≡ next_drawn x }
    ensures within { result < SERIES_END }
{
    (1_103_515_245 * x + 12_345) % SERIES_END
}

/// The number below a bound that a number of the series draws.
#[tactic(auto, unfolding(mesh_model::specs::Run::Generated::draw))]
pub fn draw(bound: u64, x: u64) -> u8
    requires some { 0 < bound }
    requires byte { bound ≤ 256 }
    ensures value { result ≡ draw bound x }
{
    (x / 65_536 % bound) as u8
}

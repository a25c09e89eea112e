//! A law of windows, the contract of a function that does nothing.

ghost use Rattle.std.specs.Prelude.{◌≡◌, ℕ, List, ◌∷◌};
ghost use Rattle.mesh_model.specs.Routes.Numbers.{window};

/// A window has all that is wanted of the numbers seen: with one number more it is the window of
/// them and that one.
pub fn a_window_needs_no_older_numbers()
    ensures { (number : ℕ) (seen : List ℕ) →
        window (number ∷ window seen) ≡ window (number ∷ seen) }
{}

ghost use Rattle.std.specs.Prelude.{◌≡◌, ◌/◌, ◌==◌, nat_lt, [], ◌∷◌, if◌then◌else◌};
ghost use Rattle.mesh_iv.specs.Rows.{blank, five, mean_of, path_with, value_with, value_moved, average_of};

use mesh_algo::SeqWindow;

/// How many values are kept of a path.
const VALUES: usize = 5;

/// What was heard of an originator from a neighbour in the originator's life.
#[derive(Clone, Copy, Debug)]
pub(crate) struct Path {
    /// The numbers heard.
    pub(crate) heard: SeqWindow,
    /// The values of the greatest number heard and of the four below it, 0 where it wasn't heard.
    pub(crate) values: [u8; VALUES],
}

impl Path {
    /// Nothing heard.
    pub(crate) fn new() -> Path
        ensures { result ≡ blank }
    {
        Path {
            heard: SeqWindow::new(),
            values: [0; VALUES],
        }
    }

    /// The path with a number more and its value.
    pub(crate) fn with(&self, seq: u32, value: u8) -> Path
        ensures { result ≡ path_with self.now seq value }
    {
        let mut heard = self.heard;
        heard.see(seq);
        let [a, b, c, d, _] = self.values;
        let values = if seq.saturating_sub(self.heard.greatest()) == 1 {
            [value, a, b, c, d]
        } else {
            self.values_with(seq, value)
        };
        Path { heard, values }
    }

    // The values with a number more and its value, whichever number it is.
    fn values_with(&self, seq: u32, value: u8) -> [u8; VALUES]
        ensures { result ≡ five (value_with self.now seq value) }
    {
        [
            self.value_with(seq, value, 0),
            self.value_with(seq, value, 1),
            self.value_with(seq, value, 2),
            self.value_with(seq, value, 3),
            self.value_with(seq, value, 4),
        ]
    }

    // The value at this place, counted from the greatest number, with a number more and its value.
    fn value_with(&self, seq: u32, value: u8, i: u32) -> u8
        ensures { result ≡ value_with self.now seq value i }
    {
        let greatest = self.heard.greatest();
        let newest = greatest.max(seq);
        if i == newest - seq {
            value
        } else {
            self.value_before(i, newest - greatest)
        }
    }

    // The value at this place, where all stood so many places before.
    fn value_before(&self, i: u32, by: u32) -> u8
        ensures { result ≡ value_moved self.now.values i by }
    {
        if i < by {
            return 0;
        }
        self.values.get((i - by) as usize).copied().unwrap_or(0)
    }

    /// The mean of the values above 0 among the newest five numbers of the originator.
    #[inline(always)]
    pub(crate) fn average(&self, newest: u32) -> u32
        ensures { result ≡ average_of newest self.now }
    {
        let [a, b, c, d, e] = self.values;
        match newest.saturating_sub(self.heard.greatest()) {
            0 => mean(a, b, c, d, e),
            1 => mean(a, b, c, d, 0),
            2 => mean(a, b, c, 0, 0),
            3 => mean(a, b, 0, 0, 0),
            4 => mean(a, 0, 0, 0, 0),
            _ => 0,
        }
    }
}

// The floored mean of those of five values that are above 0, 0 where there is none.
fn mean(a: u8, b: u8, c: u8, d: u8, e: u8) -> u32
    ensures { result ≡ mean_of (a ∷ b ∷ c ∷ d ∷ e ∷ []) }
{
    let sum = u32::from(a) + u32::from(b) + u32::from(c) + u32::from(d) + u32::from(e);
    let good = one_if(a) + one_if(b) + one_if(c) + one_if(d) + one_if(e);
    quotient(sum, good)
}

// 1 for a value above 0.
fn one_if(value: u8) -> u32
    ensures { result ≡ (if nat_lt 0 value then 1 else 0) }
{
    u32::from(value > 0)
}

// The floored quotient, 0 where the count is 0. Up to five values are counted, and a division by a
// constant takes a fraction of the time.
fn quotient(sum: u32, count: u32) -> u32
    ensures { result ≡ (if count == 0 then 0 else sum / count) }
{
    match count {
        0 => 0,
        1 => sum,
        2 => sum / 2,
        3 => sum / 3,
        4 => sum / 4,
        5 => sum / 5,
        _ => sum / count,
    }
}

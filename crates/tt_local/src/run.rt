ghost use Rattle.std.specs.Prelude.{◌≡◌, IfSome, option_map, true};
ghost use Rattle.tt_local.specs.Runs.{is_in, is_kept, run_of};

/// The numbers of the commits of a log, from its first commit on.
#[derive(Clone, Copy, Debug)]
pub(crate) struct Run {
    pub(crate) first: usize,
    pub(crate) count: usize,
}

impl Run {
    /// Whether the commit of a number is of the log.
    pub(crate) fn has(&self, number: usize) -> bool
        ensures { result ≡ is_in number self.now }
    {
        self.first <= number && number - self.first < self.count
    }

    /// Whether it isn't left out: it begins with commit 0, or made a further commit.
    pub(crate) fn is_kept(&self) -> bool
        ensures { result ≡ is_kept self.now }
    {
        self.first == 0 || self.count > 1
    }
}

/// The log that the commit of a number is of, if it is one of these.
pub(crate) fn run_of(number: usize, runs: &[Run]) -> Option<&Run>
    ensures found { option_map (λ run. run.now) result ≡ run_of number runs.now }
    ensures has { IfSome result (λ run. is_in number run.now ≡ true) }
{
    runs.iter().find(|run| run.has(number))
}

//! The options of a `link` line.

ghost use Rattle.std.specs.Prelude.{◌≡◌, ◌<◌, Ok, Err, IfOk, IfErr, option_map};
ghost use Rattle.mesh_model.specs.Scenario.Fields.{number_limit};
ghost use Rattle.mesh_model.specs.Scenario.LinkOptions.{no_options, are_all_given, options_beside, options_of, with_one_more, number_within, with_delay, with_pattern, with_throughput, with_option};
ghost use Rattle.mesh_model.specs.Scenario.Terms.{number_of};
ghost use Rattle.mesh_scenario.specs.Inner.Options.{options_seen, FailsOptions};

use crate::line_err::LineErr;
use crate::terms::{is_pattern, number_within};
use crate::words::Words;
use mesh_base::Millis;

/// The greatest delay, in milliseconds.
const DELAY_LIMIT: u64 = 10_000;
/// The greatest throughput, in units of 100 kbit/s.
const THROUGHPUT_LIMIT: u64 = 1_000_000;

/// The options that are given.
#[derive(Clone, Copy)]
pub struct LinkOptions<'a> {
    pub delay: Option<Millis>,
    pub pattern: Option<&'a [u8]>,
    pub throughput: Option<u32>,
}

impl<'a> LinkOptions<'a> {
    /// No option is given.
    pub fn none() -> LinkOptions<'a>
        ensures { options_seen result ≡ no_options }
    {
        LinkOptions {
            delay: None,
            pattern: None,
            throughput: None,
        }
    }

    /// Whether each option is given.
    fn are_all_given(self) -> bool
        ensures { result ≡ are_all_given (options_seen self.entry) }
    {
        self.delay.is_some() && self.pattern.is_some() && self.throughput.is_some()
    }

    fn with_delay(self, word: &'a [u8]) -> Option<LinkOptions<'a>>
        ensures { option_map options_seen result ≡ with_delay (options_seen self.entry) word.now }
    {
        if self.delay.is_some() {
            return None;
        }
        let delay = number_within(1, DELAY_LIMIT, word)?;
        Some(LinkOptions {
            delay: Some(delay),
            ..self
        })
    }

    fn with_pattern(self, word: &'a [u8]) -> Option<LinkOptions<'a>>
        ensures { option_map options_seen result ≡ with_pattern (options_seen self.entry) word.now }
    {
        if self.pattern.is_some() || !is_pattern(word) {
            return None;
        }
        Some(LinkOptions {
            pattern: Some(word),
            ..self
        })
    }

    fn with_throughput(self, word: &'a [u8]) -> Option<LinkOptions<'a>>
        ensures { option_map options_seen result
            ≡ with_throughput (options_seen self.entry) word.now }
    {
        if self.throughput.is_some() {
            return None;
        }
        let throughput = number_within(1, THROUGHPUT_LIMIT, word)?;
        Some(LinkOptions {
            throughput: Some(throughput as u32),
            ..self
        })
    }

    /// The options with the one that a word gives, or `None` where it is no option, is badly
    /// written or is given already.
    fn with_option(self, word: &'a [u8]) -> Option<LinkOptions<'a>>
        ensures { option_map options_seen result ≡ with_option (options_seen self.entry) word.now }
    {
        if let Some(delay) = word.strip_prefix(b"delay=".as_slice()) {
            self.with_delay(delay)
        } else if let Some(pattern) = word.strip_prefix(b"pattern=".as_slice()) {
            self.with_pattern(pattern)
        } else if let Some(throughput) = word.strip_prefix(b"tp=".as_slice()) {
            self.with_throughput(throughput)
        } else {
            None
        }
    }

    /// The options with those of one more word.
    fn one_more(self, word: &'a [u8]) -> Result<LinkOptions<'a>, LineErr>
        ensures ok { IfOk result (λ options.
            with_one_more (options_seen self.entry) word.now ≡ Ok (options_seen options)) }
        ensures refused { IfErr result
            (FailsOptions (with_one_more (options_seen self.entry) word.now)) }
    {
        if self.are_all_given() {
            return Err(LineErr::ExtraWord);
        }
        self.with_option(word).ok_or(LineErr::BadNumber)
    }
}

impl<'a> Words<'a> {
    /// Takes the other words as options beside those that are given.
    fn options_beside(&mut self, given: LinkOptions<'a>) -> Result<LinkOptions<'a>, LineErr>
        ensures ok { IfOk result (λ options.
            options_beside (options_seen given.entry) self.old ≡ Ok (options_seen options)) }
        ensures refused { IfErr result
            (FailsOptions (options_beside (options_seen given.entry) self.old)) }
    {
        match self.next() {
            None => Ok(given),
            Some(found) => {
                let options = given.one_more(found.word)?;
                self.options_beside(options)
            }
        }
    }

    /// Takes the other words as options.
    pub fn options(&mut self) -> Result<LinkOptions<'a>, LineErr>
        ensures ok { IfOk result (λ options. options_of self.old ≡ Ok (options_seen options)) }
        ensures refused { IfErr result (FailsOptions (options_of self.old)) }
    {
        self.options_beside(LinkOptions::none())
    }
}

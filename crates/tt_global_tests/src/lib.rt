//! Tests of tt_global: announcements and answers of one originator, and their outcomes.

#![tactic(auto)]

#[cfg(test)]
mod aliases;
#[cfg(test)]
mod late_answers;
#[cfg(test)]
mod outcomes;
#[cfg(test)]
mod parts;
#[cfg(test)]
mod telling;

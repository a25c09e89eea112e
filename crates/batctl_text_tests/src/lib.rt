//! Tests of batctl_text: given texts that no worked row has.

#![tactic(auto)]

#[cfg(test)]
mod broken;
#[cfg(test)]
mod decoded;
#[cfg(test)]
mod tables;

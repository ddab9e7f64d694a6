//! What programs play: the tests of the crates from `tdl_compile` to `tdl_app`, by what these make public.
#![tactic(auto)]

#[cfg(test)]
mod app;
#[cfg(test)]
mod bundles;
#[cfg(test)]
mod compile;
#[cfg(test)]
mod log;
#[cfg(test)]
mod meaning;
#[cfg(test)]
mod osc;
#[cfg(test)]
mod patterns;
#[cfg(test)]
mod query;
#[cfg(test)]
mod score;
#[cfg(test)]
mod stage;
#[cfg(test)]
mod words;

//! What the readers of mini-notation and of performers' lines answer, the rows that their trees become, and the
//! programs and changes that are prepared of them: tests by what the crates make public.
#![tactic(auto)]

#[cfg(test)]
mod combinator;
#[cfg(test)]
mod expr;
#[cfg(test)]
mod lexer;
#[cfg(test)]
mod mini;
#[cfg(test)]
mod patterns;
#[cfg(test)]
mod prepare;
#[cfg(test)]
mod prints;
#[cfg(test)]
mod rows;
#[cfg(test)]
mod script;
#[cfg(test)]
mod syntax;

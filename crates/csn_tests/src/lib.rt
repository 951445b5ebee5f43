//! Tests alone, and no library: each public call at an example of its own, the outside where it fails, and blocks and
//! lines in pieces. What a whole run shows is a case of csn_cases.
#![tactic(auto)]

#[cfg(test)]
mod bits;
#[cfg(test)]
mod builder;
#[cfg(test)]
mod building;
#[cfg(test)]
mod captures;
#[cfg(test)]
mod catalogue;
#[cfg(test)]
mod certificates;
#[cfg(test)]
mod compat;
#[cfg(test)]
mod decode;
#[cfg(test)]
mod desc;
#[cfg(test)]
mod encode;
#[cfg(test)]
mod json;
#[cfg(test)]
mod judged;
#[cfg(test)]
mod lexer;
#[cfg(test)]
mod line_text;
#[cfg(test)]
mod look;
#[cfg(test)]
mod memory;
#[cfg(test)]
mod nodes;
#[cfg(test)]
mod plan;
#[cfg(test)]
mod real;
#[cfg(test)]
mod segments;
#[cfg(test)]
mod sets;
#[cfg(test)]
mod spans;
#[cfg(test)]
mod texts;
#[cfg(test)]
mod tree_text;

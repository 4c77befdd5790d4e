//! Tests of volumes: which vnodes are refused, what an increment holds, and what is made of one. `rows` makes volumes from short rows,
//! for all the others. Nothing stands on these tests; `vnode_model` stands below.
#![tactic(auto)]

#[cfg(test)]
mod applies;
#[cfg(test)]
mod rows;
#[cfg(test)]
mod selects;
#[cfg(test)]
mod sums;
#[cfg(test)]
mod volumes;

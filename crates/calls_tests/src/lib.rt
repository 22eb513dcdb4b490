//! Tests of calls on the tables of a store in memory: that they are carried out, and of what the tables have then.
#![tactic(auto)]

#[cfg(test)]
mod tables;

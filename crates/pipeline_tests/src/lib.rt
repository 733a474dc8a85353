//! Tests of what neither the program nor the C library can show: functions that neither calls, and numbers that no run comes to. The other cases of
//! these crates are rows of the scripts in tests/. It is a crate of its own, so that changing tests does not prove the others again.
#![tactic(auto)]

#[cfg(test)]
mod tests;

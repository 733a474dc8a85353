//! Mbufs over pools in zones: calls with answers worked out by hand, and a long random walk beside a list of packets.

mod calls;
mod rows;
mod setup;
mod walk;

use super::{cases, memory};

//! Benchmarks of longest-prefix tables.
ghost use Rattle.std.specs.Prelude.{◌≡◌, ◌+◌, ◌≤◌, is_some};
ghost use Rattle.dp_model.specs.Prefixes.{hop_for};

use crate::random::RandomNumbers;
use dp_lpm::{Lpm, MAX_GROUPS, MAX_RULES};
use std::alloc::Global;

// The seed of the numbers from which rules and addresses are made.
const OF_RULES: u64 = 1;

const OF_ADDRESSES: u64 = 2;

// A rule.
#[derive(Clone, Copy)]
struct Rule {
    ip: u32,
    depth: u8,
    hop: u32,
}

// A depth from a number: 24 for 60 of 100, 16 to 23 for 35, and 8 to 15 for 5.
fn depth_of(number: u32) -> u8 {
    let eighth = (number / 256 % 8) as u8;
    match number % 100 {
        0..60 => 24,
        60..95 => 16 + eighth,
        _ => 8 + eighth,
    }
}

// The next rule. No clause says which: only safety is claimed.
fn next_rule(numbers: &mut RandomNumbers) -> Rule {
    let ip = numbers.next();
    let depth = depth_of(numbers.next());
    let hop = numbers.next() % 256;
    Rule { ip, depth, hop }
}

// Adds `rules` rules; returns how many were added.
fn add_all(table: &mut Lpm, rules: u32) -> u32
    ensures { result ≤ rules }
{
    let mut numbers = RandomNumbers::new(OF_RULES);
    let mut added = 0;
    for _ in 0..rules {
        let Rule { ip, depth, hop } = next_rule(&mut numbers);
        if table.add(ip, depth, hop).is_ok() {
            added += 1;
        }
    }
    added
}

// Whether there is a rule for an address.
#[inline(never)]
fn is_routed(table: &Lpm, ip: u32) -> bool
    ensures { result ≡ is_some (hop_for table.now.routes ip) }
{
    table.lookup(ip).is_some()
}

// Looks `addresses` addresses up; returns for how many there was a rule.
fn look_up_all(table: &Lpm, addresses: u32) -> u32
    ensures { result ≤ addresses }
{
    let mut numbers = RandomNumbers::new(OF_ADDRESSES);
    let mut found = 0;
    for _ in 0..addresses {
        if is_routed(table, numbers.next()) {
            found += 1;
        }
    }
    found
}

// Deletes the first `rules` rules; returns how many there were.
fn delete_all(table: &mut Lpm, rules: u32) -> u32
    ensures { result ≤ rules }
{
    let mut numbers = RandomNumbers::new(OF_RULES);
    let mut deleted = 0;
    for _ in 0..rules {
        let Rule { ip, depth, .. } = next_rule(&mut numbers);
        if table.delete(ip, depth).is_ok() {
            deleted += 1;
        }
    }
    deleted
}

/// All three with a table of its own.
pub fn found(alloc: Global, rules: u32, addresses: u32, deletes: u32) -> u64
    ensures { result ≤ rules + addresses + deletes }
{
    let Ok(mut table) = Lpm::new(alloc, MAX_RULES, MAX_GROUPS) else {
        return 0;
    };
    let added = add_all(&mut table, rules) as u64;
    let found = look_up_all(&table, addresses) as u64;
    let deleted = delete_all(&mut table, deletes) as u64;
    added + found + deleted
}

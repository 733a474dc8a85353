//! Calls of one table of routes that no command makes. What tables answer is in tests/library/routes.py and tests/program/causes.py.

use super::cases::must;
use dp_lpm::{Lpm, MAX_GROUPS, MAX_HOP, MAX_RULES, MAX_TABLES};
use std::test::Fail;

// Whether rules are counted and looked up as they are added and deleted. The third replaces the first.
fn are_counted(table: &mut Lpm) -> bool {
    let (first, deep) = (0x0a01_0200, 0x0a01_0280);
    table.is_empty()
        && table.len() == 0
        && table.add(first, 24, 5) == Ok(())
        && table.add(deep, 25, 6) == Ok(())
        && table.add(first + 255, 24, 7) == Ok(())
        && table.len() == 2
        && !table.is_empty()
        && table.lookup(deep + 1) == Some(6)
        && table.delete(deep, 25) == Ok(())
        && table.lookup(deep + 1) == Some(7)
        && table.len() == 1
}

#[test]
fn rules_are_counted(rt: HostRuntime) -> Result<(), Fail> {
    let mut table = Lpm::new(rt.alloc(), 4, 1)?;
    must(&rt, are_counted(&mut table), "the rules");
    Ok(())
}

#[test]
fn the_limits_are_those_of_the_library(rt: HostRuntime) {
    dp_lpm::has_its_numbers();
    let are_limits = MAX_RULES == 65_536
        && MAX_GROUPS == 256
        && MAX_HOP == 16_777_215
        && MAX_TABLES == 4;
    must(&rt, are_limits, "the limits");
}

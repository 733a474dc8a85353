//! The rules of a table, ordered by depth and then by prefix.

ghost use Rattle.std.specs.Prelude.{◌≡◌, ℕ, suc, ◌+◌, ◌*◌, ◌/◌, ◌-◌, ◌^◌, ◌<◌, ◌≤◌, List, ◌∷◌, ◌++◌, length, take, drop, nat_lt, vec_capacity, IfOk, IfErr};
ghost use Rattle.std.specs.List.{copy_within};
ghost use Rattle.dp_lpm.specs.Rules.{rank, rank_of, IsOrdered, IsLowerBound, IsFound, IsMissing, routes_of, entry_of};
ghost use Rattle.dp_lpm.specs.Routes.{prefix_of, deepest_within};

use crate::cell::TableEntry;
use crate::limits::MAX_DEPTH;

/// The number of rules that are moved down at once: `memmove` is slow on a long run that moves down by a few bytes.
const PART: usize = 512;

/// Addresses that begin with the first `depth` bits of `prefix` go to `hop`.
#[derive(Clone, Copy)]
pub struct Rule {
    pub prefix: u32,
    pub depth: u8,
    pub hop: u32,
}

/// The first `depth` bits of an address; the others are 0.
pub fn prefix_of(ip: u32, depth: u8) -> u32
    requires some { 1 ≤ depth }
    requires most { depth ≤ MAX_DEPTH }
    ensures { result ≡ prefix_of ip depth }
{
    ip >> (MAX_DEPTH - depth)
}

/// Whether a rule comes before one of this depth and prefix.
fn is_before(rule: Rule, depth: u8, prefix: u32) -> bool
    ensures { result ≡ nat_lt (rank_of rule) (rank depth prefix) }
{
    rule.depth < depth || rule.depth == depth && rule.prefix < prefix
}

/// How many rules come before one of this depth and prefix.
fn rules_before(rules: &[Rule], depth: u8, prefix: u32) -> usize
    requires { IsOrdered rules.now }
    ensures { IsLowerBound rules.now (rank depth prefix) result }
{
    rules.partition_point(|rule| is_before(*rule, depth, prefix))
}

/// The index of the rule of this depth and prefix, or else the index where it would be inserted.
pub fn search(rules: &[Rule], depth: u8, prefix: u32) -> Result<usize, usize>
    requires { IsOrdered rules.now }
    ensures found { IfOk result (λ index. IsFound rules.now depth prefix index) }
    ensures missing { IfErr result (λ index. IsMissing rules.now depth prefix index) }
{
    let index = rules_before(rules, depth, prefix);
    if index < rules.len() && rules[index].prefix == prefix && rules[index].depth == depth {
        return Ok(index);
    }
    Err(index)
}

/// The entry of the deepest rule for an address among those no deeper than `depth`.
pub fn entry_within(rules: &[Rule], ip: u32, depth: u8) -> TableEntry
    requires order { IsOrdered rules.now }
    requires most { depth ≤ MAX_DEPTH }
    ensures { result ≡ entry_of (deepest_within depth (routes_of rules.now) ip) }
{
    if depth == 0 {
        return TableEntry::Empty;
    }
    match search(rules, depth, prefix_of(ip, depth)) {
        Ok(index) => TableEntry::Hop {
            hop: rules[index].hop,
            depth,
        },
        Err(_) => entry_within(rules, ip, depth - 1),
    }
}

/// Moves each rule up by one index, drops the last, and puts `rule` first.
fn put_first(rules: &mut [Rule], rule: Rule)
    requires { 0 < length rules.old }
    ensures { rules.new ≡ rule ∷ take (length rules.old - 1) rules.old }
{
    let last = rules.len() - 1;
    rules.copy_within(0..last, 1);
    rules[0] = rule;
}

/// Inserts a rule at an index. There must be room for it.
pub fn insert(rules: &mut Vec<Rule>, index: usize, rule: Rule)
    requires index { index ≤ length rules.old.items }
    requires room { length rules.old.items < vec_capacity rules.old }
    ensures items { rules.new.items ≡ take index rules.old.items ++ rule ∷ drop index rules.old.items }
    ensures capacity { vec_capacity rules.new ≡ vec_capacity rules.old }
{
    rules.push_reserved(rule);
    put_first(&mut rules[index..], rule);
}

/// Drops the first rule and moves the others down by one index; the last stays at its index too. The range is one that no other call uses, so that
/// the compiler makes a `memmove` of it.
#[inline(never)]
fn move_down(rules: &mut [Rule])
    requires { 0 < length rules.old }
    ensures { rules.new ≡ copy_within rules.old 1 (length rules.old) 0 }
{
    rules.copy_within(1.., 0);
}

/// Drops the first rule, as above, moving the others part by part.
fn drop_first_rule(rules: &mut [Rule])
    requires { 0 < length rules.old }
    ensures len { length rules.new ≡ length rules.old }
    ensures front { take (length rules.old - 1) rules.new ≡ drop 1 rules.old }
{
    let last = rules.len() - 1;
    let mut at = 0;
    while at < last {
        let end = last.min(at + PART);
        move_down(&mut rules[at..end + 1]);
        at = end;
    }
}

/// Removes the rule at an index and moves those after it down by one.
pub fn remove(rules: &mut Vec<Rule>, index: usize)
    requires { index < length rules.old.items }
    ensures items { rules.new.items ≡ take index rules.old.items ++ drop (suc index) rules.old.items }
    ensures capacity { vec_capacity rules.new ≡ vec_capacity rules.old }
{
    drop_first_rule(&mut rules[index..]);
    let _ = rules.pop();
}

ghost use Rattle.std.specs.Prelude.{◌<◌, length};
ghost use Rattle.sq_sched.specs.ReadyLists.{AreActors};

use sq_sched::{Policy, Ready, Rule};
use std::alloc::{AllocError, Global};
use std::test::Fail;

// The actors of the first three picks by a rule.
fn first_three(
    alloc: Global,
    rule: Rule,
    ready: &Ready,
    waits: &Vec<u64>,
) -> Result<[u32; 3], AllocError>
    requires some { 0 < length ready.now.list }
    requires waits { AreActors (length waits.now.items) ready.now.list }
{
    let picks = Vec::from_slice(alloc, &[5, 4])?;
    let mut policy = Policy::new(rule, picks, 2, 16);
    let first = policy.next(ready, waits).actor;
    let second = policy.next(ready, waits).actor;
    let third = policy.next(ready, waits).actor;
    Ok([first, second, third])
}

// The words of the generator at seed 2 are 3375522765, 2391266255 and 3436966324: places 0, 2 and 1 of three.
#[test]
fn each_rule_chooses_by_its_own(rt: HostRuntime) -> Result<(), Fail> {
    let alloc = rt.alloc();
    let waits = Vec::from_slice(alloc, &[4, 7, 7])?;
    let mut ready = Ready::new(alloc, 3)?;
    ready.push(2);
    ready.push(0);
    ready.push(1);
    assert!(rt; ready.len() == 3);
    for (rule, actors) in &[
        (Rule::RoundRobin, [2, 2, 2]),
        (Rule::Longest, [1, 1, 1]),
        (Rule::Seeded, [2, 1, 0]),
        (Rule::Picks, [1, 0, 2]),
    ] {
        assert!(rt; first_three(alloc, *rule, &ready, &waits) == Ok(*actors));
    }
    Ok(())
}

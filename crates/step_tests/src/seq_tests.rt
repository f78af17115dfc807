//! Rows of a table with a sequence word, as far as one thread shows them.
ghost use Rattle.std.specs.Prelude.{◌≡◌, length, IfOk};
ghost use Rattle.lock_core.specs.Records.{IsPlan};
ghost use Rattle.vma_map.specs.Spaces.{space};

use crate::seq_calls::{fault, map, push_all, touch, write};
use lock_core::{Plan, SiteLock};
use seq_fault::{Raced, SeqSpace};
use std::alloc::Global;
use std::test::Fail;
use word_bits::Reply;

/// Two tasks, of which one maps pages and the other touches two.
fn planned(alloc: Global) -> Result<Plan, Fail>
    ensures tasks { IfOk result (λ plan. length plan ≡ 2) }
    ensures calls { IfOk result (λ plan. IsPlan space plan) }
{
    let mut plan = Plan::new(alloc, 2)?;
    push_all(&mut plan, 0, &[map(16, 4)])?;
    push_all(&mut plan, 1, &[touch(17, 2), touch(20, 1)])?;
    Ok(plan)
}

#[test]
fn a_fault_reads_what_was_written(rt: HostRuntime) -> Result<(), Fail> {
    let plan = planned(rt.alloc())?;
    let (site, mut zero) = SeqSpace::open(rt.alloc(), plan)?;
    let mut one = site.split(&mut zero);
    site.begin(&rt, &mut zero, 0);
    site.begin(&rt, &mut one, 1);
    assert!(rt; write(&site, &rt, &mut zero) == Some(Reply::Num(16)));
    assert!(rt; fault(&site, &mut one) == Some(Ok(Reply::Good)));
    assert!(rt; site.front(&one) == 1);
    site.enter(&rt, &mut zero);
    let raced = Raced {
        before: 3,
        after: 3,
    };
    assert!(rt; fault(&site, &mut one) == Some(Err(raced)));
    assert!(rt; site.done(&one) == 1);
    site.leave(&mut zero);
    assert!(rt; fault(&site, &mut one) == Some(Ok(Reply::MapErr)));
    site.end(&mut one);
    site.gather(&mut zero, one);
    site.recall(&mut zero);
    site.end(&mut zero);
    Ok(())
}

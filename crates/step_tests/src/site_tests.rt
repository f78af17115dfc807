//! What no clause says: what a step does to a word, and a site with real passes.
use lock_core::{Bare, Op, Plan, Shadow, Site};
use std::test::Fail;
use word_bits::CallWords;

#[test]
fn steps_as_a_processor_does(rt: HostRuntime) {
    for (before, op, after) in [
        (5, Op::Load, 5),
        (5, Op::Store(7), 7),
        (5, Op::Swap(7), 7),
        (18_446_744_073_709_551_615, Op::Add(3), 2),
        (2, Op::Sub(3), 18_446_744_073_709_551_615),
        (9, Op::Or(6), 15),
        (15, Op::And(9), 9),
        (5, Op::Exchange(5, 8), 8),
        (5, Op::Exchange(6, 8), 5),
    ] {
        let mut shadow = Shadow::new();
        shadow.words[63] = before;
        assert!(rt; shadow.step(63, op) == before, "{before} {after}");
        assert!(rt; shadow.words[63] == after, "{before} {after}");
        assert!(rt; shadow.words[62] == 0, "{before} {after}");
    }
}

#[test]
fn a_gathered_pass_leaves_its_number(rt: HostRuntime) -> Result<(), Fail> {
    let plan = Plan::new(rt.alloc(), 2)?;
    let (site, mut one) = Site::<Bare>::open(rt.alloc(), plan)?;
    let mut two = site.split(&mut one);
    site.begin(&rt, &mut two, 1);
    site.end(&mut two);
    site.gather(&mut one, two);
    site.begin(&rt, &mut one, 1);
    assert!(rt; one.task() == Some(1));
    Ok(())
}

#[test]
fn a_new_site_has_no_signal(rt: HostRuntime) -> Result<(), Fail> {
    let mut plan = Plan::new(rt.alloc(), 2)?;
    plan.push(0, CallWords { a: 1, b: 15 })?;
    let (site, mut pass) = Site::<Bare>::open(rt.alloc(), plan)?;
    site.begin(&rt, &mut pass, 0);
    site.grown(&mut pass);
    site.stated(&mut pass);
    site.recall(&mut pass);
    assert!(rt; site.consume(&mut pass).is_none());
    Ok(())
}

//! A site with an owner word over an address space, on threads.
use crate::owner_calls::take;
use crate::owner_rounds::four_at_once;
use lock_core::SiteLock;
use mutex_word::OwnerSite;
use plan_runs::plans::{map_page, plan_with};
use std::test::Fail;
use vma_map::Areas;

/// Many rounds for each of four threads.
const ROUNDS: u32 = 10_000;

// That the log has each commit in its task's order, and that the guarded words are the state after
// it, is proved of each moment. Pages 0 to 3 are one area, and task 0 holds: the word is 8.
#[test]
fn the_log_of_four_threads_has_each_commit_once(rt: HostRuntime) -> Result<(), Fail> {
    let plan = plan_with::<Areas>(
        rt.alloc(),
        4,
        [
            (0, ROUNDS, map_page(0)),
            (1, ROUNDS, map_page(1)),
            (2, ROUNDS, map_page(2)),
            (3, ROUNDS, map_page(3)),
        ]
        .as_slice(),
    )?;
    let (site, mut pass) = OwnerSite::<Areas>::open(rt.alloc(), plan)?;
    let mut other = site.split(&mut pass);
    four_at_once(&rt, rt.alloc(), &site, &mut pass)?;
    site.begin(&rt, &mut pass, 0);
    assert!(rt; site.done(&pass) == ROUNDS);
    assert!(rt; take(&site, &mut pass));
    site.begin(&rt, &mut other, 2);
    assert!(rt; site.trylock_once(&mut other) == Err(8));
    assert!(rt; site.log_len(&mut pass) == 4 * ROUNDS);
    assert!(rt; site.word(&mut pass, 0) == 1);
    assert!(rt; site.word(&mut pass, 1) == (4 << 3) + 3);
    Ok(())
}

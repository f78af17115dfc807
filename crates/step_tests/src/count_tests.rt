//! Sites with a count, which has the flag writer 1, and 256 for each reader.
ghost use Rattle.std.specs.Prelude.{IfOk};
ghost use Rattle.step_tests.specs.CountStanding.{IsReady};

use lock_core::{Held, Nothing, Plan, SiteLock};
use rwsem_count::{CountPass, CountSite};
use std::alloc::{AllocError, Global};
use std::sync::Wait;
use std::test::Fail;

/// A site with a count, and the passes of its three tasks.
#[derive(Drop)]
struct Opened {
    site: CountSite<Nothing>,
    zero: CountPass<Nothing>,
    one: CountPass<Nothing>,
    two: CountPass<Nothing>,
}

/// A new site with a count, on which three tasks have begun.
fn open_three(rt: &impl Wait, alloc: Global) -> Result<Opened, AllocError>
    ensures zero { IfOk result (λ o. IsReady o.site o.zero) }
    ensures one { IfOk result (λ o. IsReady o.site o.one) }
    ensures two { IfOk result (λ o. IsReady o.site o.two) }
{
    let plan = Plan::new(alloc, 3)?;
    let (site, mut zero) = CountSite::<Nothing>::open(alloc, plan)?;
    let mut one = site.split(&mut zero);
    let mut two = site.split(&mut zero);
    site.begin(rt, &mut zero, 0);
    site.begin(rt, &mut one, 1);
    site.begin(rt, &mut two, 2);
    Ok(Opened {
        site,
        zero,
        one,
        two,
    })
}

#[test]
fn readers_keep_a_writer_out(rt: HostRuntime) -> Result<(), Fail> {
    let Opened {
        site,
        mut zero,
        mut one,
        mut two,
    } = open_three(&rt, rt.alloc())?;
    assert!(rt; site.read_add(&mut zero).is_ok());
    assert!(rt; site.read_try(&rt, &mut one).is_ok());
    assert!(rt; site.write_try(&mut two) == Err(512));
    assert!(rt; site.held(&zero) == Held::Shared);
    assert!(rt; site.up_read_once(&mut zero) == 256);
    assert!(rt; site.up_read_once(&mut one) == 0);
    Ok(())
}

#[test]
fn a_writer_keeps_a_reader_out(rt: HostRuntime) -> Result<(), Fail> {
    let Opened {
        site,
        mut zero,
        mut two,
        ..
    } = open_three(&rt, rt.alloc())?;
    assert!(rt; site.write_try(&mut two).is_ok());
    assert!(rt; site.read_try(&rt, &mut zero) == Err(1));
    assert!(rt; site.up_write_once(&mut two) == 0);
    Ok(())
}

#[test]
fn a_writer_downgrades_under_a_reader_in_transit(rt: HostRuntime) -> Result<(), Fail> {
    let Opened {
        site,
        mut zero,
        mut one,
        two: _,
    } = open_three(&rt, rt.alloc())?;
    assert!(rt; site.write_try(&mut zero).is_ok());
    assert!(rt; site.read_add(&mut one) == Err(257));
    assert!(rt; one.in_transit());
    assert!(rt; site.downgrade_once(&mut zero) == 512);
    assert!(rt; site.read_back(&mut one) == 256);
    assert!(rt; !one.in_transit());
    assert!(rt; site.up_read_once(&mut zero) == 0);
    Ok(())
}

#[test]
fn a_number_is_free_again_and_a_new_site_has_no_entry(rt: HostRuntime) -> Result<(), Fail> {
    let plan = Plan::new(rt.alloc(), 1)?;
    let (site, mut pass) = CountSite::<Nothing>::open(rt.alloc(), plan)?;
    let mut other = site.split(&mut pass);
    site.begin(&rt, &mut other, 0);
    site.end(&mut other);
    site.gather(&mut pass, other);
    site.begin(&rt, &mut pass, 0);
    site.grown(&mut pass);
    site.recall_count(&mut pass);
    assert!(rt; site.read_try(&rt, &mut pass).is_ok());
    assert!(rt; site.log_len(&mut pass) == 0);
    Ok(())
}

//! What interrupts a pass that waits for a spin lock.
ghost use Rattle.qspin_word.specs.SpinWordHandles.{IsInterruptible, SpinIdles};

use lock_core::{Pass, Site, SpinHost};
use std::sync::Wait;

/// A site whose passes wait for spin locks, with what an interrupt finds and leaves. A trait over a
/// host can't speak of `Site` itself.
pub trait SpinSite {
    type Pass;

    // The pass is one of the site's, has a number and notes how it stands with each lock, and a call
    // of it waits: for a lock, or, having it, for its successor.
    ghost ready: { Self → Self.Pass → Type 0 };

    // What a call leaves that is done meanwhile, and that is quiet or not.
    ghost idles: { Type 0 → Self → Self.Pass → Self.Pass → Type 0 };
}

impl<H: SpinHost> SpinSite for Site<H> {
    type Pass = Pass<H>;

    ghost ready = { IsInterruptible };

    ghost idles = { SpinIdles };
}

/// Something that is done in each turn of a pass that waits for a spin lock, as a kernel's
/// interrupt is done on a CPU that spins. It may take other locks meanwhile, and releases them.
pub trait Interrupt<S: SpinSite> {
    // It takes no lock and sees nothing of one.
    ghost silent: { Type 0 };

    fn hit<W: Wait>(&mut self, rt: &W, site: &S, pass: &mut S::Pass)
        requires ready { S.ready site.now pass.old }
        ensures idles { S.idles silent site.now pass.old pass.new };
}

/// Nothing interrupts.
#[derive(Drop)]
pub struct Quiet;

impl<H: SpinHost> Interrupt<Site<H>> for Quiet {
    ghost silent = { Unit {0} };

    fn hit<W: Wait>(&mut self, _rt: &W, _site: &Site<H>, _pass: &mut Pass<H>) {}
}

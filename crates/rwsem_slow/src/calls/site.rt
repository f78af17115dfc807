//! A semaphore, as a lock over a site. Beside its pass of the site, a pass has one of the spin
//! queue, and what it counts.
ghost use Rattle.std.specs.Prelude.{refl};
ghost use Rattle.rwsem_slow.specs.RwSemHandles.{plan_of, shown_of, SitsAt};

use super::{RwPass, RwSem};
use crate::SemRule;
use lock_core::{Pass, Site, SiteLock};
use word_bits::Object;

impl<O: Object> SiteLock<O> for RwSem<O> {
    ghost use Rattle.lock_core.specs.Faces.{same-put};
    ghost use Rattle.lock_core.specs.Sitting.{SitsIdle};
    ghost use Rattle.rwsem_slow.specs.Laws.RwSemSite.{sem-frame};

    type Rule = SemRule<O>;

    type Site = Site<SemRule<O>>;

    type Pass = RwPass<O>;

    ghost site_of = { λ s. s.site };

    ghost seat_of = { λ p. p.pass };

    ghost with_seat = { λ p w. record p { pass = w } };

    ghost calls_on = { plan_of };

    ghost view = { shown_of };

    ghost sits = { λ s p. SitsIdle O.object (plan_of s) (SitsAt s p) };

    fn site(&self) -> &Site<SemRule<O>> {
        &self.site
    }

    fn peek(pass: &RwPass<O>) -> &Pass<SemRule<O>> {
        &pass.pass
    }

    fn seat(pass: &mut RwPass<O>) -> &mut Pass<SemRule<O>> {
        &mut pass.pass
    }

    ghost plans = { λ s. refl };

    ghost faces = { λ p. record { hand = refl; spin = refl; steps = refl; past = refl } };

    ghost owns = { λ s p at. at.own.sits };

    ghost puts = { λ p w. refl };

    ghost whole = { λ p w same. same-put (λ put. record p { pass = put }) w p.pass same };

    ghost frame = { sem-frame O.object };
}

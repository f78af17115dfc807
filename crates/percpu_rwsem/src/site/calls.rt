//! The calls of a site, for a per-CPU semaphore. Beside its pass of the site, a pass has how many
//! counts it has seen zero, which no such call changes.
ghost use Rattle.std.specs.Prelude.{refl};
ghost use Rattle.percpu_rwsem.specs.PercpuHandles.{plan_of, shown_of, SitsAt};

use super::PercpuRwSem;
use crate::pass::PercpuPass;
use crate::rule::PercpuRule;
use lock_core::{Pass, Site, SiteLock};
use word_bits::Object;

impl<O: Object> SiteLock<O> for PercpuRwSem<O> {
    ghost use Rattle.lock_core.specs.Faces.{same-put};
    ghost use Rattle.percpu_rwsem.specs.Laws.PercpuSite.{percpu-frame};

    type Rule = PercpuRule<O>;

    type Site = Site<PercpuRule<O>>;

    type Pass = PercpuPass<O>;

    ghost site_of = { λ s. s.site };

    ghost seat_of = { λ p. p.pass };

    ghost with_seat = { λ p w. record p { pass = w } };

    ghost calls_on = { plan_of };

    ghost view = { shown_of };

    ghost sits = { SitsAt };

    fn site(&self) -> &Site<PercpuRule<O>> {
        &self.site
    }

    fn peek(pass: &PercpuPass<O>) -> &Pass<PercpuRule<O>> {
        &pass.pass
    }

    fn seat(pass: &mut PercpuPass<O>) -> &mut Pass<PercpuRule<O>> {
        &mut pass.pass
    }

    ghost plans = { λ s. refl };

    ghost faces = { λ p. record { hand = refl; spin = refl; steps = refl; past = refl } };

    ghost owns = { λ s p at. at.seat };

    ghost puts = { λ p w. refl };

    ghost whole = { λ p w same. same-put (λ put. record p { pass = put }) w p.pass same };

    ghost frame = { percpu-frame };
}

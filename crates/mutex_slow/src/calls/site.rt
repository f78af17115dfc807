//! A mutex, as a lock over a site. Beside its pass of the site, a pass has one of the spin queue,
//! and what it counts.
ghost use Rattle.std.specs.Prelude.{refl};
ghost use Rattle.mutex_slow.specs.MutexHandles.{plan_of, shown_of, SitsAt};

use super::{Mutex, MutexPass};
use crate::rule::MutexRule;
use lock_core::{Pass, Site, SiteLock};
use word_bits::Object;

impl<O: Object> SiteLock<O> for Mutex<O> {
    ghost use Rattle.lock_core.specs.Faces.{same-put};
    ghost use Rattle.lock_core.specs.Sitting.{SitsIdle};
    ghost use Rattle.mutex_slow.specs.Laws.MutexSite.{mutex-frame};

    type Rule = MutexRule<O>;

    type Site = Site<MutexRule<O>>;

    type Pass = MutexPass<O>;

    ghost site_of = { λ m. m.site };

    ghost seat_of = { λ p. p.pass };

    ghost with_seat = { λ p w. record p { pass = w } };

    ghost calls_on = { plan_of };

    ghost view = { shown_of };

    ghost sits = { λ m p. SitsIdle O.object (plan_of m) (SitsAt m p) };

    fn site(&self) -> &Site<MutexRule<O>> {
        &self.site
    }

    fn peek(pass: &MutexPass<O>) -> &Pass<MutexRule<O>> {
        &pass.pass
    }

    fn seat(pass: &mut MutexPass<O>) -> &mut Pass<MutexRule<O>> {
        &mut pass.pass
    }

    ghost plans = { λ m. refl };

    ghost faces = { λ p. record { hand = refl; spin = refl; steps = refl; past = refl } };

    ghost owns = { λ m p at. at.own.sits };

    ghost puts = { λ p w. refl };

    ghost whole = { λ p w same. same-put (λ put. record p { pass = put }) w p.pass same };

    ghost frame = { mutex-frame O.object };
}

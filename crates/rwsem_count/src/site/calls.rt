//! A site with a count, as a lock over a site.
ghost use Rattle.std.specs.Prelude.{refl};
ghost use Rattle.rwsem_count.specs.CountHandles.{plan_of, shown_of, SitsAt};

use super::CountSite;
use crate::pass::CountPass;
use crate::rule::CountRule;
use lock_core::{Pass, Site, SiteLock};
use word_bits::Object;

impl<O: Object> SiteLock<O> for CountSite<O> {
    ghost use Rattle.lock_core.specs.Faces.{same-put};
    ghost use Rattle.rwsem_count.specs.Laws.CountSite.{count-frame};

    type Rule = CountRule<O>;

    type Site = Site<CountRule<O>>;

    type Pass = CountPass<O>;

    ghost site_of = { λ s. s.site };

    ghost seat_of = { λ p. p.pass };

    ghost with_seat = { λ p w. record p { pass = w } };

    ghost calls_on = { plan_of };

    ghost view = { shown_of };

    ghost sits = { SitsAt };

    fn site(&self) -> &Site<CountRule<O>> {
        &self.site
    }

    fn peek(pass: &CountPass<O>) -> &Pass<CountRule<O>> {
        &pass.pass
    }

    fn seat(pass: &mut CountPass<O>) -> &mut Pass<CountRule<O>> {
        &mut pass.pass
    }

    ghost plans = { λ s. refl };

    ghost faces = { λ p. record { hand = refl; spin = refl; steps = refl; past = refl } };

    ghost owns = { λ s p at. at.seat };

    ghost puts = { λ p w. refl };

    ghost whole = { λ p w same. same-put (λ put. record p { pass = put }) w p.pass same };

    ghost frame = { count-frame };
}

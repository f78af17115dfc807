//! A site with an owner word, as a lock over a site: its pass has a pass of the site alone.
ghost use Rattle.std.specs.Prelude.{refl};
ghost use Rattle.mutex_word.specs.OwnerHandles.{plan_of, shown_of, SitsAt};

use super::{OwnerPass, OwnerSite};
use crate::rule::OwnerRule;
use lock_core::{Pass, Site, SiteLock};
use word_bits::Object;

impl<O: Object> SiteLock<O> for OwnerSite<O> {
    ghost use Rattle.lock_core.specs.Faces.{same-put};
    ghost use Rattle.mutex_word.specs.Laws.OwnerSite.{owner-frame};

    type Rule = OwnerRule<O>;

    type Site = Site<OwnerRule<O>>;

    type Pass = OwnerPass<O>;

    ghost site_of = { λ s. s.site };

    ghost seat_of = { λ p. p.pass };

    ghost with_seat = { λ p w. record p { pass = w } };

    ghost calls_on = { plan_of };

    ghost view = { shown_of };

    ghost sits = { SitsAt };

    fn site(&self) -> &Site<OwnerRule<O>> {
        &self.site
    }

    fn peek(pass: &OwnerPass<O>) -> &Pass<OwnerRule<O>> {
        &pass.pass
    }

    fn seat(pass: &mut OwnerPass<O>) -> &mut Pass<OwnerRule<O>> {
        &mut pass.pass
    }

    ghost plans = { λ s. refl };

    ghost faces = { λ p. record { hand = refl; spin = refl; steps = refl; past = refl } };

    ghost owns = { λ s p at. at };

    ghost puts = { λ p w. refl };

    ghost whole = { λ p w same. same-put (λ put. record p { pass = put }) w p.pass same };

    ghost frame = { owner-frame };
}

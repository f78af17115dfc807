//! A site with a sequence word, as a lock over a site: its pass has a pass of the site alone.
ghost use Rattle.std.specs.Prelude.{refl};
ghost use Rattle.seq_fault.specs.SeqHandles.{plan_of, shown_of, SitsAt};

use super::{SeqPass, SeqSite};
use crate::rule::SeqRule;
use lock_core::{Pass, Site, SiteLock};
use word_bits::Object;

impl<O: Object> SiteLock<O> for SeqSite<O> {
    ghost use Rattle.lock_core.specs.Faces.{same-put};

    type Rule = SeqRule<O>;

    type Site = Site<SeqRule<O>>;

    type Pass = SeqPass<O>;

    ghost site_of = { λ s. s.site };

    ghost seat_of = { λ p. p.pass };

    ghost with_seat = { λ p w. record p { pass = w } };

    ghost calls_on = { plan_of };

    ghost view = { shown_of };

    ghost sits = { SitsAt };

    fn site(&self) -> &Site<SeqRule<O>> {
        &self.site
    }

    fn peek(pass: &SeqPass<O>) -> &Pass<SeqRule<O>> {
        &pass.pass
    }

    fn seat(pass: &mut SeqPass<O>) -> &mut Pass<SeqRule<O>> {
        &mut pass.pass
    }

    ghost plans = { λ s. refl };

    ghost faces = { λ p. record { hand = refl; spin = refl; steps = refl; past = refl } };

    ghost owns = { λ s p at. at };

    ghost puts = { λ p w. refl };

    ghost whole = { λ p w same. same-put (λ put. record p { pass = put }) w p.pass same };

    ghost frame = { λ s p w at on beside hold. (on, record { face = record { hand = refl; spin = refl; steps = refl; past = refl }; fronts = beside.1; line = refl; swaps = refl; tally = refl }) };
}

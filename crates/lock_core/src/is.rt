//! A type by another name.
ghost use Rattle.std.specs.Prelude.{◌≡◌};

use crate::{Site, SiteRule};

/// The type T itself. A signature of a trait cannot name `Site<R>` where R is a type of the trait:
/// it names a type that is one.
pub trait Is<T> {
    ghost is: { Self → T };

    fn get(&self) -> &T
        ensures { result.now ≡ is self.now };
}

impl<R: SiteRule> Is<Site<R>> for Site<R> {
    ghost is = { λ s. s };

    fn get(&self) -> &Site<R> {
        self
    }
}

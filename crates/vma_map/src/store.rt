//! Where the areas of an address space are kept.
ghost use Rattle.std.specs.Prelude.{◌≡◌, ◌+◌, ◌<◌, ◌≤◌, List, Some, length};
ghost use Rattle.std.specs.List.{slice_get};
ghost use Rattle.word_bits.specs.declared.area.Area.{Area};
ghost use Rattle.vma_map.specs.Runs.{IsSpace, spliced};

use word_bits::Area;

/// A way to keep the areas of an address space, in order: in memory, or in words under a lock.
pub trait AreaStore {
    /// Where the areas are.
    type Place;

    /// What their holder gets at them with.
    type Hand;

    // The areas.
    ghost areas: { Self.Place → Self.Hand → List Area };

    // The hand may read the areas and change them.
    ghost has: { Self.Place → Self.Hand → Type 0 };

    // Beside the areas, the hand is as before.
    ghost keeps: { Self.Place → Self.Hand → Self.Hand → Type 0 };

    /// How many areas there are.
    fn len(place: &Self::Place, hand: &mut Self::Hand) -> usize
        requires has { has place.now hand.old }
        ensures has { has place.now hand.new }
        ensures kept { keeps place.now hand.old hand.new }
        ensures same { areas place.now hand.new ≡ areas place.now hand.old }
        ensures count { result ≡ length (areas place.now hand.old) };

    /// The area at a place in their order.
    fn get(place: &Self::Place, hand: &mut Self::Hand, at: usize) -> Area
        requires has { has place.now hand.old }
        requires inside { at < length (areas place.now hand.old) }
        ensures has { has place.now hand.new }
        ensures kept { keeps place.now hand.old hand.new }
        ensures same { areas place.now hand.new ≡ areas place.now hand.old }
        ensures area { slice_get (areas place.now hand.old) at ≡ Some result };

    /// Puts pieces in the place of so many areas.
    fn splice(place: &Self::Place, hand: &mut Self::Hand, at: usize, count: usize, pieces: &[Area])
        requires has { has place.now hand.old }
        requires within { at + count ≤ length (areas place.now hand.old) }
        requires space { IsSpace (spliced at count pieces.now (areas place.now hand.old)) }
        ensures has { has place.now hand.new }
        ensures kept { keeps place.now hand.old hand.new }
        ensures areas { areas place.now hand.new
            ≡ spliced at count pieces.now (areas place.now hand.old) };

    // The areas are in order, and not too many.
    ghost in_order: { (p : Self.Place) (h : Self.Hand) → has p h → IsSpace (areas p h) };

    ghost keeps_itself: { (p : Self.Place) (h : Self.Hand) → keeps p h h };

    ghost keeps_on: { (p : Self.Place) (h i j : Self.Hand) →
        keeps p h i → keeps p i j → keeps p h j };
}

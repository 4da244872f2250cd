//! Logical times of one type per depth of loops.
ghost use Rattle.std.specs.Prelude.{◌≡◌, ℕ, ◌+◌, ◌<◌, ◌≤◌, List, [], ◌∷◌, length, slice_index, false, refl};
ghost use Rattle.std.specs.Ordering.{is_eq, nat_cmp};
ghost use Rattle.fw_time.specs.Stamp.{leq, lub, same, in_domain, nest};

use crate::{Bounds, Stamp};

/// A logical time, which contracts see by its coordinates, outermost first.
///
/// `leq` is the order of the coordinates at each place, a partial order, and `lub` gives the least upper bound in it.
/// `Ord` is a total order, so that a time may be a key of a map. No call takes memory.
pub trait Time: Copy + Ord {
    // the coordinates, outermost first
    ghost coords: { Self → List ℕ };

    // how many coordinates each time of the type has
    ghost dimension: { ℕ };

    // the time of these coordinates
    ghost of_coords: { List ℕ → Self };

    /// Whether each coordinate is at most that of the other time.
    fn leq(&self, other: &Self) -> bool
        ensures { result ≡ leq (coords self.now) (coords other.now) };

    /// The least time that both are at most.
    fn lub(&self, other: &Self) -> Self
        ensures { coords result ≡ lub (coords self.now) (coords other.now) };

    /// The time as a stamp.
    fn coords(&self) -> Stamp
        requires { dimension ≤ 4 }
        ensures { result ≡ coords self.now };

    /// Whether it is a time of the domain, where that has no sides.
    fn in_domain(&self, bounds: &Bounds) -> bool
        ensures { bounds.now.sides ≡ false → result ≡ in_domain bounds.now (coords self.now) };

    /// The time that has the coordinates of a stamp.
    fn from_coords(stamp: &Stamp) -> Self
        requires { length stamp.now ≡ dimension }
        ensures { coords result ≡ stamp.now };

    // times with equal coordinates are equal
    ghost same_coords: { (x y : Self) → coords x ≡ coords y → x ≡ y };

    // the total order finds equal exactly times with equal coordinates
    ghost told_apart: { (x y : Self) → is_eq (Self.cmp x y) ≡ same (coords x) (coords y) };

    // each list of as many coordinates is that of a time
    ghost all_coords: { (s : List ℕ) → length s ≡ dimension → coords (of_coords s) ≡ s };

    // all times of the type have as many coordinates
    ghost same_dimension: { (x : Self) → length (coords x) ≡ dimension };

    // and at least one
    ghost positive_dimension: { (x : Self) → 0 < length (coords x) };
}

/// A time of one coordinate.
pub trait Scalar: Time {
    // the coordinate
    ghost coordinate: { Self → ℕ };

    /// The coordinate.
    fn coordinate(&self) -> u32
        ensures { result ≡ coordinate self.now };

    // it is the only one
    ghost one_coord: { (x : Self) → Self.coords x ≡ coordinate x ∷ [] };

    // of each time
    ghost one_dimension: { Self.dimension ≡ 1 };
}

/// An epoch: a time outside of all loops.
#[derive(Clone, Copy, Debug, PartialEq, Eq, PartialOrd, Ord)]
pub struct Epoch(pub u32);

impl Time for Epoch {
    ghost use Rattle.std.proofs.Common.{rules};
    ghost use Rattle.fw_time.specs.NestLaws.{single, single-apart, one-dimension};

    ghost coords = { λ t. t.0 ∷ [] };

    ghost dimension = { 1 };

    ghost of_coords = { λ s. record { 0 = slice_index s 0 } };

    fn leq(&self, other: &Self) -> bool {
        self.0 <= other.0
    }

    fn lub(&self, other: &Self) -> Self {
        Epoch(self.0.max(other.0))
    }

    fn coords(&self) -> Stamp {
        Stamp::new(&[self.0])
    }

    fn in_domain(&self, bounds: &Bounds) -> bool {
        bounds.greatest.len() == 1 && self.0 <= bounds.greatest.at(0)
    }

    fn from_coords(stamp: &Stamp) -> Self {
        Epoch(stamp.at(0))
    }

    ghost same_coords = { λ x y e. let h = single x.0 y.0 e in λ i. record { 0 = h i } };

    ghost told_apart = { λ x y. single-apart x.0 y.0 };

    ghost all_coords = { one-dimension };

    ghost same_dimension = { λ x. refl };

    ghost positive_dimension = { λ x. Prim.search rules };
}

impl Scalar for Epoch {
    ghost coordinate = { λ t. t.0 };

    fn coordinate(&self) -> u32 {
        self.0
    }

    ghost one_coord = { λ x. refl };

    ghost one_dimension = { refl };
}

/// A number of an edge that numbers its messages.
#[derive(Clone, Copy, Debug, PartialEq, Eq, PartialOrd, Ord)]
pub struct SeqNo(pub u32);

impl Time for SeqNo {
    ghost use Rattle.std.proofs.Common.{rules};
    ghost use Rattle.fw_time.specs.NestLaws.{single, single-apart, one-dimension};

    ghost coords = { λ t. t.0 ∷ [] };

    ghost dimension = { 1 };

    ghost of_coords = { λ s. record { 0 = slice_index s 0 } };

    fn leq(&self, other: &Self) -> bool {
        self.0 <= other.0
    }

    fn lub(&self, other: &Self) -> Self {
        SeqNo(self.0.max(other.0))
    }

    fn coords(&self) -> Stamp {
        Stamp::new(&[self.0])
    }

    fn in_domain(&self, bounds: &Bounds) -> bool {
        bounds.greatest.len() == 1 && self.0 <= bounds.greatest.at(0)
    }

    fn from_coords(stamp: &Stamp) -> Self {
        SeqNo(stamp.at(0))
    }

    ghost same_coords = { λ x y e. let h = single x.0 y.0 e in λ i. record { 0 = h i } };

    ghost told_apart = { λ x y. single-apart x.0 y.0 };

    ghost all_coords = { one-dimension };

    ghost same_dimension = { λ x. refl };

    ghost positive_dimension = { λ x. Prim.search rules };
}

impl Scalar for SeqNo {
    ghost coordinate = { λ t. t.0 };

    fn coordinate(&self) -> u32 {
        self.0
    }

    ghost one_coord = { λ x. refl };

    ghost one_dimension = { refl };
}

/// A time of a domain with sides: a coordinate for each side, of which those of the domain have one that is 0.
#[derive(Clone, Copy, Debug, PartialEq, Eq, PartialOrd, Ord)]
pub struct Both {
    /// The coordinate of the first side.
    pub first: u32,
    /// That of the second.
    pub second: u32,
}

impl Time for Both {
    ghost use Rattle.std.proofs.Common.{rules};
    ghost use Rattle.fw_time.specs.NestLaws.{single, single-apart, two-dimension, outer-same, counter-same, nest-apart};

    ghost coords = { λ t. t.first ∷ t.second ∷ [] };

    ghost dimension = { 2 };

    ghost of_coords = { λ s. record { first = slice_index s 0; second = slice_index s 1 } };

    fn leq(&self, other: &Self) -> bool {
        self.first <= other.first && self.second <= other.second
    }

    fn lub(&self, other: &Self) -> Self {
        Both {
            first: self.first.max(other.first),
            second: self.second.max(other.second),
        }
    }

    fn coords(&self) -> Stamp {
        Stamp::new(&[self.first, self.second])
    }

    fn in_domain(&self, bounds: &Bounds) -> bool
        ensures { result ≡ in_domain bounds.now (self.now.first ∷ self.now.second ∷ []) }
    {
        self.coords().in_domain(bounds)
    }

    fn from_coords(stamp: &Stamp) -> Self {
        Both {
            first: stamp.at(0),
            second: stamp.at(1),
        }
    }

    ghost same_coords = { λ x y e.
        let f = single x.first y.first (outer-same (x.first ∷ []) (y.first ∷ []) x.second y.second e) in
        let s = counter-same (x.first ∷ []) (y.first ∷ []) x.second y.second e in
        λ i. record { first = f i; second = s i } };

    ghost told_apart = { λ x y.
        nest-apart (nat_cmp x.first y.first) (x.first ∷ []) (y.first ∷ []) x.second y.second refl (single-apart x.first y.first) };

    ghost all_coords = { two-dimension };

    ghost same_dimension = { λ x. refl };

    ghost positive_dimension = { λ x. Prim.search rules };
}

/// A time of a loop: a time outside of it and the loop's counter.
#[derive(Clone, Copy, Debug, PartialEq, Eq, PartialOrd, Ord)]
pub struct Nest<T> {
    /// The time outside of the loop.
    pub outer: T,
    /// How often the loop was fed back.
    pub counter: u32,
}

impl<T: Time> Time for Nest<T> {
    ghost use Rattle.std.proofs.Common.{ap, sym, ◌∙◌};
    ghost use Rattle.fw_time.specs.Stamp.{outer, counter};
    ghost use Rattle.fw_time.specs.NestLaws.{outer-same, counter-same, nest-apart, dimension-nest, some-nest, dimension-outer, nest-outer, positive-from};

    ghost coords = { λ t. nest (T.coords t.outer) t.counter };

    ghost dimension = { T.dimension + 1 };

    ghost of_coords = { λ s. record { outer = T.of_coords (outer s); counter = counter s } };

    fn leq(&self, other: &Self) -> bool {
        self.outer.leq(&other.outer) && self.counter <= other.counter
    }

    fn lub(&self, other: &Self) -> Self {
        Nest {
            outer: self.outer.lub(&other.outer),
            counter: self.counter.max(other.counter),
        }
    }

    fn coords(&self) -> Stamp {
        self.outer.coords().nest(self.counter)
    }

    fn in_domain(&self, bounds: &Bounds) -> bool {
        if bounds.greatest.len() == 0 {
            return false;
        }
        let outer = Bounds {
            greatest: bounds.greatest.outer(),
            sides: false,
        };
        self.outer.in_domain(&outer) && self.counter <= bounds.greatest.counter()
    }

    fn from_coords(stamp: &Stamp) -> Self {
        Nest {
            outer: T::from_coords(&stamp.outer()),
            counter: stamp.counter(),
        }
    }

    ghost same_coords = { λ x y e.
        let o = T.same_coords x.outer y.outer (outer-same (T.coords x.outer) (T.coords y.outer) x.counter y.counter e) in
        let c = counter-same (T.coords x.outer) (T.coords y.outer) x.counter y.counter e in
        λ i. record { outer = o i; counter = c i } };

    ghost told_apart = { λ x y.
        nest-apart (T.cmp x.outer y.outer) (T.coords x.outer) (T.coords y.outer) x.counter y.counter
        (T.same_dimension x.outer ∙ sym (T.same_dimension y.outer)) (T.told_apart x.outer y.outer) };

    ghost all_coords = { λ s h.
        ap (λ u. nest u (counter s)) (T.all_coords (outer s) (dimension-outer s T.dimension h))
        ∙ nest-outer s (positive-from s T.dimension h) };

    ghost same_dimension = { λ x. dimension-nest (T.coords x.outer) x.counter T.dimension (T.same_dimension x.outer) };

    ghost positive_dimension = { λ x. some-nest (T.coords x.outer) x.counter };
}

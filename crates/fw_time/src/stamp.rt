//! Stamps and the bounds of their domains.
ghost use Rattle.std.specs.Prelude.{◌≡◌, ◌+◌, ◌^◌, ◌≤◌, ◌<◌, Some, nat_eq, refl, [], length, slice_index};
ghost use Rattle.std.specs.Cmp.{partial_equiv_from_equiv};
ghost use Rattle.std.specs.Cmp.Lexicographic.{pointwise, nat_list_eq_equiv, nat_list_cmp_total, texts_po, texts_ties};
ghost use Rattle.fw_time.specs.StampText.{stamp_text, dots_text};
ghost use Rattle.fw_time.specs.Padded.{padded};
ghost use Rattle.fw_time.specs.Stamp.{leq, lub, stamp_raised_at, is_of_side, in_domain, nest, outer, counter, stamp_cmp};

use std::cmp::Ordering;
use std::fmt;
use std::marker::Model;

/// A logical time of any domain: its coordinates, up to four, outermost first. Contracts see it as their list.
///
/// It holds its coordinates in itself, so that no call takes memory, and is copied whole: zeros stand behind the last one, and
/// calls go over all four places.
#[derive(Debug, Drop)]
pub struct Stamp {
    coords: [u32; 4],
    len: u32,
}

impl Model for Stamp {
    ghost use Rattle.std.specs.Prelude.{ℕ, ◌≡◌, ◌≤◌, List, length, take};
    ghost use Rattle.std.proofs.Common.{sym};
    ghost use Rattle.fw_time.specs.Padded.{padded, few_at};

    ghost Value = { List ℕ };

    ghost view = { λ stamp. take stamp.len stamp.coords };

    // at most four coordinates, and zeros behind them
    ghost invariant = { λ stamp. (stamp.len ≤ 4) × (stamp.coords ≡ padded 4 (take stamp.len stamp.coords)) };

    ghost inverse = { λ coords. record { coords = padded 4 coords; len = length coords } };

    ghost inverse_ok = { λ stamp h i. record { coords = sym h.1 i; len = few_at stamp.len stamp.coords h.0 h.1 i } };
}

impl PartialEq for Stamp {
    ghost eq = { pointwise nat_eq };

    ghost laws = { partial_equiv_from_equiv nat_list_eq_equiv };

    #[inline]
    fn eq(&self, other: &Stamp) -> bool {
        self.cmp(other).is_eq()
    }
}

impl Eq for Stamp {
    ghost laws = { nat_list_eq_equiv };
}

impl PartialOrd for Stamp {
    ghost partial_cmp = { λ s t. Some (stamp_cmp s t) };

    ghost laws = { texts_po };

    #[inline]
    fn partial_cmp(&self, other: &Stamp) -> Option<Ordering> {
        Some(self.cmp(other))
    }
}

// Written out, since maps of stamps compare most of their time: the derived order looks at groups of coordinates.
impl Ord for Stamp {
    ghost cmp = { stamp_cmp };

    ghost total = { nat_list_cmp_total };

    ghost matches_partial_cmp = { λ s t. refl };

    ghost matches_eq = { texts_ties };

    #[inline]
    fn cmp(&self, other: &Stamp) -> Ordering {
        let coords = &self.coords;
        let others = &other.coords;
        if coords[0] != others[0] {
            return coords[0].cmp(&others[0]);
        }
        // Most stamps have one coordinate.
        if self.len == 1 && other.len == 1 {
            return Ordering::Equal;
        }
        tied(self, other)
    }
}

impl Default for Stamp {
    ghost is_default = { λ stamp. stamp ≡ [] };

    #[inline]
    fn default() -> Self {
        Stamp {
            coords: [0; 4],
            len: 0,
        }
    }
}

impl Stamp {
    /// The stamp of these coordinates, outermost first.
    #[inline]
    pub fn new(coords: &[u32]) -> Self
        requires some { 0 < length coords.now }
        requires few { length coords.now ≤ 4 }
        ensures { result ≡ coords.now }
    {
        Stamp {
            coords: placed(coords),
            len: coords.len() as u32,
        }
    }

    /// The same stamp once more.
    #[inline]
    pub fn copy(&self) -> Self
        ensures { result ≡ self.now }
    {
        Stamp {
            coords: self.coords,
            len: self.len,
        }
    }

    /// How many coordinates it has.
    #[inline]
    pub fn len(&self) -> usize
        ensures value { result ≡ length self.now }
        ensures few { result ≤ 4 }
    {
        self.len as usize
    }

    /// A coordinate, counted from the outermost.
    #[inline]
    pub fn at(&self, i: usize) -> u32
        requires { i < length self.now }
        ensures { result ≡ slice_index self.now i }
    {
        let coords = &self.coords;
        coords[i]
    }

    /// Whether each coordinate is at most that of the other stamp. Stamps of unequal length are not comparable.
    #[inline]
    pub fn leq(&self, other: &Self) -> bool
        ensures { result ≡ leq self.now other.now }
    {
        let coords = &self.coords;
        let others = &other.coords;
        if self.len != other.len {
            return false;
        }
        if coords[0] > others[0] {
            return false;
        }
        self.len == 1 || at_most(coords, others)
    }

    /// The greater coordinate at each place. Of two stamps of one length it is the least that both are at most.
    #[inline]
    pub fn lub(&self, other: &Self) -> Self
        ensures { result ≡ lub self.now other.now }
    {
        Stamp {
            coords: greater(&self.coords, &other.coords),
            len: self.len.max(other.len),
        }
    }

    /// Whether it is a stamp of the domain.
    #[inline]
    pub fn in_domain(&self, bounds: &Bounds) -> bool
        ensures { result ≡ in_domain bounds.now self.now }
    {
        if bounds.sides && !is_of_side(&self.coords[..self.len as usize]) {
            return false;
        }
        self.leq(&bounds.greatest)
    }

    /// The stamp of a loop that has this outer stamp and this counter.
    #[inline]
    pub fn nest(&self, counter: u32) -> Self
        requires { length self.now < 4 }
        ensures { result ≡ nest self.now counter }
    {
        let mut coords = self.coords;
        coords[self.len as usize] = counter;
        Stamp {
            coords,
            len: self.len + 1,
        }
    }

    /// A loop's stamp without its counter.
    #[inline]
    pub fn outer(&self) -> Self
        requires { 0 < length self.now }
        ensures value { result ≡ outer self.now }
        ensures few { length result < 4 }
    {
        let mut coords = self.coords;
        coords[self.len as usize - 1] = 0;
        Stamp {
            coords,
            len: self.len - 1,
        }
    }

    /// The loop counter of a loop's stamp.
    #[inline]
    pub fn counter(&self) -> u32
        requires { 0 < length self.now }
        ensures { result ≡ counter self.now }
    {
        self.coords[self.len as usize - 1]
    }

    /// The least stamp of as many coordinates that has a greater coordinate at this place.
    pub fn raised(&self, place: usize) -> Self
        requires there { place < length self.now }
        requires fits { slice_index self.now place + 1 < 2 ^ 32 }
        ensures { result ≡ stamp_raised_at self.now place }
    {
        let were = &self.coords;
        let mut coords = [0; 4];
        coords[place] = were[place] + 1;
        Stamp {
            coords,
            len: self.len,
        }
    }

    /// The order by the coordinates from the outermost, in which a least stamp is wanted.
    #[inline]
    pub fn compare(&self, other: &Self) -> Ordering
        ensures { result ≡ stamp_cmp self.now other.now }
    {
        self.cmp(other)
    }
}

impl fmt::Display for Stamp {
    ghost use Rattle.std.specs.Prelude.{Some};

    ghost output = { λ stamp. Some (stamp_text stamp) };

    fn fmt<W: fmt::Write>(&self, f: &mut fmt::Formatter<W>) -> fmt::Result {
        let [first, rest @ ..] = &self.coords[..self.len as usize] else {
            return Ok(());
        };
        write!(f, "{first}")?;
        for coord in rest {
            write!(f, ".{coord}")?;
        }
        Ok(())
    }
}

// These coordinates in the first of four places, with zeros behind them.
fn placed(coords: &[u32]) -> [u32; 4]
    requires { length coords.now ≤ 4 }
    ensures { result ≡ padded 4 coords.now }
{
    let mut all = [0; 4];
    for i in 0..coords.len() {
        all[i] = coords[i];
    }
    all
}

// The order of stamps that may have the same first coordinate: by the coordinates from the outermost; where one begins with
// the other, by how many there are.
fn tied(stamp: &Stamp, other: &Stamp) -> Ordering
    ensures { result ≡ stamp_cmp stamp.now other.now }
{
    match order(&stamp.coords, &other.coords) {
        Ordering::Equal => stamp.len.cmp(&other.len),
        by => by,
    }
}

// The order by the coordinates from the outermost.
fn order(coords: &[u32; 4], others: &[u32; 4]) -> Ordering
    ensures { result ≡ stamp_cmp coords.now others.now }
{
    for i in 0..4 {
        if coords[i] != others[i] {
            return coords[i].cmp(&others[i]);
        }
    }
    Ordering::Equal
}

// Whether each coordinate is at most the other one at its place.
fn at_most(coords: &[u32; 4], others: &[u32; 4]) -> bool
    ensures { result ≡ leq coords.now others.now }
{
    for i in 0..4 {
        if coords[i] > others[i] {
            return false;
        }
    }
    true
}

// Whether one of two coordinates is 0, and the other is not.
fn is_of_side(coords: &[u32]) -> bool
    ensures { result ≡ is_of_side coords.now }
{
    match coords {
        [0, second] => *second > 0,
        [_, second] => *second == 0,
        _ => false,
    }
}

// The greater coordinate at each place.
fn greater(coords: &[u32; 4], others: &[u32; 4]) -> [u32; 4]
    ensures { result ≡ lub coords.now others.now }
{
    [
        coords[0].max(others[0]),
        coords[1].max(others[1]),
        coords[2].max(others[2]),
        coords[3].max(others[3]),
    ]
}

/// What makes a domain of stamps: the greatest coordinate at each place, and whether all such stamps count.
#[derive(Debug, Drop)]
pub struct Bounds {
    /// What each stamp of the domain is at most.
    pub greatest: Stamp,
    /// Whether only stamps of two coordinates count of which one is 0 and the other is not.
    pub sides: bool,
}

impl Bounds {
    ghost use Rattle.fw_time.specs.Stamp.{origin};

    /// Zeros at as many places: the least stamp of the domain, where it has no sides.
    pub fn origin(&self) -> Stamp
        ensures { result ≡ origin self.now.greatest }
    {
        let greatest = &self.greatest;
        Stamp {
            coords: [0; 4],
            len: greatest.len,
        }
    }
}

//! What holds of frontiers, and of the frontiers of every type of times. Each function carries its laws as clauses, and
//! does nothing.
ghost use Rattle.std.specs.Prelude.{◌≡◌, ℕ, Bool, true, false, not, ◌&&◌, ◌||◌, List, [], ◌∷◌, length, map};
ghost use Rattle.std.specs.List.{AllByRecursion};
ghost use Rattle.fw_time.specs.declared.stamp.Bounds.{Bounds as Domain};
ghost use Rattle.fw_time.specs.Stamp.{leq, glb, in_domain};
ghost use Rattle.fw_frontier.specs.Frontier.{IsFrontier, Within, some_above, without_above};
ghost use Rattle.fw_frontier.specs.Front.{inside, frontier_of, IsCanonical, IsFrontOf};
ghost use Rattle.fw_frontier.specs.Least.{AreLeastOf};
ghost use Rattle.fw_frontier.specs.Domain.{IsOfDomain};

use crate::{Frontier, Logical};

/// Only one list names a frontier.
pub fn one_list_names_a_frontier()
    ensures { (bounds : Domain) (xs ys : List (List ℕ)) (f : List ℕ → Bool)
        → IsFrontOf bounds xs f → IsFrontOf bounds ys f → xs ≡ ys }
{}

/// Only one list has the least of some stamps.
pub fn least_stamps_are_one_list()
    ensures { (ss xs ys : List (List ℕ)) → AreLeastOf ss xs → AreLeastOf ss ys → xs ≡ ys }
{}

/// With the least of some stamps outside, the same is inside as with all of them.
pub fn least_stamps_decide()
    ensures { (ss os : List (List ℕ)) (t : List ℕ) → AreLeastOf ss os → inside os t ≡ inside ss t }
{}

/// A list that has the least of some stamps has the least of its own.
pub fn least_stamps_stay()
    ensures { (ss os : List (List ℕ)) → AreLeastOf ss os → AreLeastOf os os }
{}

/// The lists that name frontiers of a domain are those that have the least of some of its stamps.
pub fn canonical_lists_are_least()
    ensures least { (bounds : Domain) (os : List (List ℕ)) → IsCanonical bounds os → AreLeastOf os os }
    ensures canonical { (bounds : Domain) (ss os : List (List ℕ))
        → AllByRecursion (λ s. in_domain bounds s ≡ true) ss → AreLeastOf ss os → IsCanonical bounds os }
{}

/// What a front has inside is a frontier.
pub fn fronts_are_frontiers()
    ensures { (bounds : Domain) (os : List (List ℕ)) → IsFrontier bounds (frontier_of bounds os) }
{}

/// Of the frontiers inside another, `cut_above` gives the largest that is without the stamp.
pub fn cut_is_largest()
    ensures { (bounds : Domain) (s : List ℕ) (f g : List ℕ → Bool) → IsFrontier bounds g → Within g f
        → in_domain bounds s ≡ true → g s ≡ false → Within g (without_above s f) }
{}

/// A front comes back from a type of times as the same list.
pub fn round_trip<T: Logical>()
    ensures { (bounds : Domain) (os ps : List (List ℕ)) (f : T.Frontier) → length bounds.greatest ≡ T.dimension
        → IsCanonical bounds os → ((t : T) → T.Frontier.inside f t ≡ inside os (T.coords t))
        → IsFrontOf bounds ps (λ t. in_domain bounds t && T.Frontier.inside f (T.of_coords t)) → ps ≡ os }
{}

/// A frontier without outside times past the domain has another inside where it has the other's times of the domain.
pub fn domain_decides<T: Logical>()
    ensures { (bounds : Domain) (f g : T.Frontier) → length bounds.greatest ≡ T.dimension → bounds.sides ≡ false
        → IsOfDomain T.coords T.of_coords bounds (T.Frontier.inside g)
        → ((t : T) → in_domain bounds (T.coords t) ≡ true → T.Frontier.inside f t ≡ true → T.Frontier.inside g t ≡ true)
        → (t : T) → T.Frontier.inside f t ≡ true → T.Frontier.inside g t ≡ true }
{}

/// What the calls make of frontiers without outside times past the domain, and of times of the domain, has none either.
pub fn stays_in_domain<T: Logical>()
    ensures constant { (bounds : Domain) (c : T.Frontier) (answer : Bool) → ((t : T) → T.Frontier.inside c t ≡ answer)
        → IsOfDomain T.coords T.of_coords bounds (T.Frontier.inside c) }
    ensures meet { (bounds : Domain) (a b c : T.Frontier)
        → IsOfDomain T.coords T.of_coords bounds (T.Frontier.inside a)
        → IsOfDomain T.coords T.of_coords bounds (T.Frontier.inside b)
        → ((t : T) → T.Frontier.inside c t ≡ (T.Frontier.inside a t && T.Frontier.inside b t))
        → IsOfDomain T.coords T.of_coords bounds (T.Frontier.inside c) }
    ensures join { (bounds : Domain) (a b c : T.Frontier)
        → IsOfDomain T.coords T.of_coords bounds (T.Frontier.inside a)
        → IsOfDomain T.coords T.of_coords bounds (T.Frontier.inside b)
        → ((t : T) → T.Frontier.inside c t ≡ (T.Frontier.inside a t || T.Frontier.inside b t))
        → IsOfDomain T.coords T.of_coords bounds (T.Frontier.inside c) }
    ensures cut { (bounds : Domain) (a c : T.Frontier) (s : T) → length bounds.greatest ≡ T.dimension
        → in_domain bounds (T.coords s) ≡ true
        → IsOfDomain T.coords T.of_coords bounds (T.Frontier.inside a)
        → ((t : T) → T.Frontier.inside c t ≡ (T.Frontier.inside a t && not (leq (T.coords s) (T.coords t))))
        → IsOfDomain T.coords T.of_coords bounds (T.Frontier.inside c) }
    ensures cover { (bounds : Domain) (c : T.Frontier) (tops : List T) → length bounds.greatest ≡ T.dimension
        → ((t : T) → T.Frontier.inside c t ≡ some_above (map T.coords tops) (glb (T.coords t) bounds.greatest))
        → IsOfDomain T.coords T.of_coords bounds (T.Frontier.inside c) }
    ensures front { (bounds : Domain) (c : T.Frontier) (os : List (List ℕ)) → length bounds.greatest ≡ T.dimension
        → AllByRecursion (λ o. in_domain bounds o ≡ true) os
        → ((t : T) → T.Frontier.inside c t ≡ inside os (T.coords t))
        → IsOfDomain T.coords T.of_coords bounds (T.Frontier.inside c) }
{}

/// The cover of the greatest time of a domain has all times inside.
pub fn greatest_covers_all<T: Logical>()
    ensures { (bounds : Domain) (c : T.Frontier) (top : T) → T.coords top ≡ bounds.greatest
        → ((t : T) → T.Frontier.inside c t ≡ some_above (T.coords top ∷ []) (glb (T.coords t) bounds.greatest))
        → (t : T) → T.Frontier.inside c t ≡ true }
{}

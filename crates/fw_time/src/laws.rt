//! What holds of the times of every type. Each function carries its laws as clauses, and does nothing.
ghost use Rattle.std.specs.Prelude.{◌≡◌, true};
ghost use Rattle.fw_time.specs.Stamp.{leq, lub};

use crate::Time;

/// `leq` is a partial order on the times of a type.
pub fn partial_order<T: Time>()
    ensures reflexive { (x : T) → leq (T.coords x) (T.coords x) ≡ true }
    ensures transitive { (x y z : T) → leq (T.coords x) (T.coords y) ≡ true
        → leq (T.coords y) (T.coords z) ≡ true → leq (T.coords x) (T.coords z) ≡ true }
    ensures antisymmetric { (x y : T) → leq (T.coords x) (T.coords y) ≡ true
        → leq (T.coords y) (T.coords x) ≡ true → x ≡ y }
{}

/// `lub` is the least upper bound of two times of a type.
pub fn least_upper_bound<T: Time>()
    ensures first { (x y : T) → leq (T.coords x) (lub (T.coords x) (T.coords y)) ≡ true }
    ensures second { (x y : T) → leq (T.coords y) (lub (T.coords x) (T.coords y)) ≡ true }
    ensures least { (x y z : T) → leq (T.coords x) (T.coords z) ≡ true
        → leq (T.coords y) (T.coords z) ≡ true → leq (lub (T.coords x) (T.coords y)) (T.coords z) ≡ true }
{}

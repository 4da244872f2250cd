//! Laws of totals, each a function that does nothing: its clause is the law.
ghost use Rattle.std.specs.Prelude.{◌&&◌, not, ℕ, Bool, List};
ghost use Rattle.fw_bag.specs.Arrivals.{Arrival, recs_inside};
ghost use Rattle.fw_frontier.specs.Frontier.{Within};
ghost use Rattle.fw_table.specs.Sums.{sums_at_keys};
ghost use Rattle.fw_totals.specs.Totals.{WritesOver};

/// Written over the totals of what came inside a frontier, the totals of the keys that changed since give those of what came inside
/// a greater one.
pub fn changes_join()
    ensures { (inside after : List ℕ → Bool) (came : List Arrival) → Within inside after
        → WritesOver (sums_at_keys (recs_inside (λ s. after s && not (inside s)) came) (recs_inside after came))
        (recs_inside inside came) (recs_inside after came) }
{}

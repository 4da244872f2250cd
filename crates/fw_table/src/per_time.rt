//! A content for each time, in a map.
ghost use Rattle.std.specs.Prelude.{◌≡◌, not, ℕ, Bool, List, ◌∷◌, OnOk, OnErr};
ghost use Rattle.fw_bag.specs.Arrivals.{Arrival, arrivals_inside, arrival};
ghost use Rattle.fw_table.specs.Content.{IsTable};

use crate::Content;
use fw_bag::Rec;
use fw_frontier::{Frontier, Logical};
use std::alloc::{AllocError, Global};
use std::collections::BTreeMap;

/// Takes in a rec that came at a time, on an in-edge by its place among them.
///
/// It fails where memory is refused; then the table is that of what came before.
#[tactic(auto, using(crate::proofs::TableSteps::table_more, crate::proofs::TableSteps::table_same))]
pub fn put_at<T: Logical, C: Content>(
    contents: &mut BTreeMap<T, C>,
    alloc: Global,
    side: usize,
    t: T,
    rec: Rec,
) -> Result<(), AllocError>
    ensures ok { (came : List Arrival) → IsTable T.cmp T.coords C.holds contents.old came
        → OnOk result (IsTable T.cmp T.coords C.holds contents.new (arrival side (T.coords t) rec ∷ came)) }
    ensures err { (came : List Arrival) → IsTable T.cmp T.coords C.holds contents.old came
        → OnErr result (IsTable T.cmp T.coords C.holds contents.new came) }
{
    if let Some(content) = contents.get_mut(&t) {
        return content.put(side, rec);
    }
    let mut content = C::empty(alloc);
    content.put(side, rec)?;
    contents.insert(t, content)?;
    Ok(())
}

/// Keeps what came at times outside. It takes no memory.
pub fn keep_outside<T: Logical, C: Content>(contents: &mut BTreeMap<T, C>, f: &T::Frontier)
    ensures { (kept : List ℕ → Bool) (came : List Arrival)
        → ((t : T) → kept (T.coords t) ≡ not (T.Frontier.inside f.now t))
        → IsTable T.cmp T.coords C.holds contents.old came
        → IsTable T.cmp T.coords C.holds contents.new (arrivals_inside kept came) }
{
    contents.retain(
        |t: &T, content: &mut C| -> bool
            ensures outside { result ≡ not (T.Frontier.inside f.entry.now t.now) }
            ensures stays { content.new ≡ content.old }
        { !f.contains(t) },
    );
}

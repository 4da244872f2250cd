//! What an event sends, as progress and traces are told it.
ghost use Rattle.std.specs.Prelude.{◌≡◌, IfOk};
ghost use Rattle.fw_node.specs.Sends.{sends_list};
ghost use Rattle.fw_events.specs.ToldSends.{told_list};

use fw_bag::Rec;
use fw_node::Sends;
use fw_time::Stamp;
use std::alloc::{AllocError, Global};

/// The recs that an event sends, with their stamps; one alone takes no memory.
#[derive(Drop)]
pub(crate) enum ToldSends {
    AtMostOne(Option<(Stamp, Rec)>),
    Many(Vec<(Stamp, Rec)>),
}

impl ToldSends {
    /// The recs of these sends. The error is want of memory.
    pub(crate) fn of(alloc: Global, sends: &Sends) -> Result<Self, AllocError>
        ensures { IfOk result (λ told. told_list told ≡ sends_list sends.now) }
    {
        if sends.len() <= 1 {
            return Ok(ToldSends::AtMostOne(sends.get(0)));
        }
        let mut recs = Vec::with_capacity(alloc, sends.len())?;
        for place in 0..sends.len() {
            if let Some(one) = sends.get(place) {
                recs.push(one)?;
            }
        }
        Ok(ToldSends::Many(recs))
    }

    /// The recs, in order.
    pub(crate) fn as_slice(&self) -> &[(Stamp, Rec)]
        ensures { result.now ≡ told_list self.now }
    {
        match self {
            ToldSends::AtMostOne(one) => one.as_slice(),
            ToldSends::Many(recs) => recs,
        }
    }
}

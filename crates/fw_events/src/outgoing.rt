//! What goes to the out-edges of a node at an event.
use fw_bag::Rec;
use fw_time::Stamp;

/// What an event makes a node send: recs at stamps, of the one cause that is the event's stamp.
#[derive(Clone, Copy)]
pub(crate) struct Outgoing<'a> {
    /// The event's stamp.
    pub(crate) cause: &'a Stamp,
    /// The recs, in order.
    pub(crate) recs: &'a [(Stamp, Rec)],
}

//! What an event makes a node send.
ghost use Rattle.std.specs.Prelude.{◌≡◌, length, slice_get};
ghost use Rattle.fw_node.specs.Sends.{messages_of, sends_list};

use fw_bag::Rec;
use fw_flow::{Causes, Message};
use fw_numbered::Numbered;
use fw_table::Sent;
use fw_time::Stamp;

/// What an event makes a node send, of which each out-edge carries some or all: recs at stamps, in order.
#[derive(Debug, Drop)]
pub enum Sends {
    /// Recs that are all at one stamp.
    AtOneStamp(Sent<Stamp>),
    /// Recs of a sequence: one number after the other, from the first one on.
    Numbered(Numbered),
}

impl Sends {
    /// How many recs there are.
    pub fn len(&self) -> usize
        ensures { result ≡ length (sends_list self.now) }
    {
        match self {
            Sends::AtOneStamp(sent) => sent.recs.len(),
            Sends::Numbered(sent) => sent.recs.len(),
        }
    }

    /// A message by its place, counted from 0, as an event at this stamp sends it; none past the last one. It takes no memory.
    pub fn message(&self, place: usize, cause: &Stamp) -> Option<Message>
        ensures { result ≡ slice_get (messages_of cause.now self.now) place }
    {
        let (at, rec) = self.get(place)?;
        Some(Message {
            at,
            rec,
            causes: Causes::of(cause.copy()),
        })
    }

    /// A rec with its stamp, by its place, counted from 0; none past the last one. It takes no memory.
    pub fn get(&self, place: usize) -> Option<(Stamp, Rec)>
        ensures { result ≡ slice_get (sends_list self.now) place }
    {
        match self {
            Sends::AtOneStamp(sent) => {
                let rec = sent.recs.as_slice().get(place)?;
                Some((sent.at.copy(), *rec))
            }
            Sends::Numbered(sent) => {
                let rec = sent.recs.as_slice().get(place)?;
                let number = sent.first + place as u64;
                Some((Stamp::new(&[number as u32]), *rec))
            }
        }
    }
}

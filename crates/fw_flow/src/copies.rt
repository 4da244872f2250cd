//! Copies of what nodes record and offer, and of lowerings. The error of each call is want of memory.
ghost use Rattle.std.specs.Prelude.{◌≡◌, IfOk};

use crate::{Counted, Cut, Lowering, OfEdge, Recorded, Stamps};
use std::alloc::AllocError;

impl Cut {
    /// The same cut once more.
    pub fn copy(&self) -> Result<Self, AllocError>
        ensures { IfOk result (λ cut. cut ≡ self.now) }
    {
        match self {
            Cut::Present => Ok(Cut::Present),
            Cut::At(front) => Ok(Cut::At(front.copy()?)),
        }
    }
}

impl Lowering {
    /// The same lowering once more.
    pub fn copy(&self) -> Result<Self, AllocError>
        ensures { IfOk result (λ lowering. lowering ≡ self.now) }
    {
        Ok(Lowering {
            node: self.node,
            part: self.part,
            to: self.to.copy()?,
            by: self.by,
        })
    }
}

impl OfEdge {
    /// The same frontier of the edge once more.
    pub fn copy(&self) -> Result<Self, AllocError>
        ensures { IfOk result (λ of_edge. of_edge ≡ self.now) }
    {
        Ok(OfEdge {
            edge: self.edge,
            front: self.front.copy()?,
        })
    }
}

impl Counted {
    /// The same messages once more.
    pub fn copy(&self) -> Self
        ensures { result ≡ self.now }
    {
        Counted {
            edge: self.edge,
            at: self.at.copy(),
            causes: self.causes.copy(),
            count: self.count,
        }
    }
}

impl Recorded {
    /// The same record once more.
    pub fn copy(&self) -> Result<Self, AllocError>
        ensures { IfOk result (λ recorded. recorded ≡ self.now) }
    {
        Ok(Recorded {
            front: self.front.copy()?,
            notified: self.notified.copy()?,
            delivered: self.delivered.copy()?,
            discarded: self.discarded.copy()?,
        })
    }
}

impl Stamps {
    /// The same stamps once more.
    pub fn copy(&self) -> Result<Self, AllocError>
        ensures { IfOk result (λ stamps. stamps ≡ self.now) }
    {
        Ok(Stamps {
            delivered: self.delivered.copy()?,
            notified: self.notified.copy()?,
            sent: self.sent.copy()?,
        })
    }
}

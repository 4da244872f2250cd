//! A talk in a box, for whoever holds it behind a pointer: what it has is let go here alone.
ghost use Rattle.std.specs.Prelude.{◌≡◌, IfOk};

use crate::Talk;
use fw_loose::Loose;
use std::alloc::{AllocError, Global};

impl Talk {
    /// In a box. The error is want of memory: then the talk is let go.
    pub fn boxed(self, alloc: Global) -> Result<Box<Self>, AllocError>
        ensures { IfOk result (λ talk. talk.value ≡ self) }
    {
        Ok(Box::new(alloc, self)?)
    }

    /// What the box of a talk is made of.
    pub fn loosen(talk: Box<Self>) -> Loose<Self, Global>
        ensures { result.value ≡ talk.value }
    {
        Loose::of(talk)
    }

    /// The box of a talk, made again.
    pub fn tighten(loose: Loose<Self, Global>) -> Box<Self>
        ensures { result.value ≡ loose.value }
    {
        loose.into_box()
    }

    /// Lets a talk go.
    pub fn close(talk: Box<Self>) {
        drop(talk);
    }
}

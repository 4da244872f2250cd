//! A certificate of a choice.
ghost use Rattle.std.specs.Prelude.{◌≡◌, IfOk};

use fw_flow::{Lowering, Trail};
use std::alloc::{AllocError, Global};
use std::marker::Model;

/// Lowerings that are to show that a choice is the largest, in order. Contracts see their list.
#[derive(Debug, Drop)]
pub struct Certificate {
    entries: Vec<Lowering>,
}

impl Model for Certificate {
    ghost use Rattle.std.specs.Prelude.{List};
    ghost use Rattle.fw_flow.specs.declared.trail.Lowering.{Lowering};

    ghost Value = { List Lowering };

    ghost view = { λ certificate. certificate.entries.items };
}

impl Certificate {
    /// These lowerings.
    pub fn of(entries: Vec<Lowering>) -> Self
        ensures { result ≡ entries.items }
    {
        Certificate { entries }
    }

    /// The lowerings, in order.
    pub fn as_slice(&self) -> &[Lowering]
        ensures { result.now ≡ self.now }
    {
        &self.entries
    }
}

/// The certificate that the trail of a descent is. The error is want of memory.
pub fn explain(alloc: Global, trail: &Trail) -> Result<Certificate, AllocError>
    ensures { IfOk result (λ certificate. certificate ≡ trail.now) }
{
    let entries = copied(alloc, trail.as_slice())?;
    Ok(Certificate { entries })
}

/// The same lowerings once more. The error is want of memory.
fn copied(alloc: Global, lowerings: &[Lowering]) -> Result<Vec<Lowering>, AllocError>
    ensures { IfOk result (λ copy. copy.items ≡ lowerings.now) }
{
    let mut copy = Vec::new(alloc);
    for lowering in lowerings {
        copy.push(lowering.copy()?)?;
    }
    Ok(copy)
}

//! A talk as one pointer, which a caller in another language may hold: null for none.
ghost use Rattle.std.specs.Prelude.{◌≡◌, MatchOption};
ghost use Rattle.std.specs.Coded.{coded_option};
ghost use Rattle.fw_talk.specs.contracts.talk.Talk.{the_row};
ghost use Rattle.std.specs.declared.option.Option.{Option};
ghost use Rattle.std.specs.declared.option.Option.TheVariants.{None, Some};
ghost use Rattle.falkirk_c.specs.Held.{held};

use fw_loose::Loose;
use fw_talk::Talk;
use std::alloc::Global;
use std::marker::Model;
use std::mem::replace;
use std::ptr::null_mut;

/// A pointer that owns the talk behind it, or null.
#[repr(C)]
pub struct Handle {
    /// Where the talk lies.
    pub at: *mut (),
    /// The talk, if there is one.
    pub ghost holds: { Option the_row.Denot } by { coded_option the_row.coded },
}

impl Model for Handle {
    ghost also_owns = { λ h. held h.at h.holds };
}

impl Handle {
    /// No talk.
    pub fn empty() -> Handle
        ensures { result.holds ≡ None }
    {
        Handle { at: null_mut() }
    }

    /// The talk that this box is made of.
    pub fn full(loose: Loose<Talk, Global>) -> Handle
        ensures { result.holds ≡ Some loose.value }
    {
        let Loose { at, alloc: _ } = loose;
        Handle { at: at as *mut () }
    }

    /// What the box of its talk is made of, if it holds one.
    pub fn into_loose(self, alloc: Global) -> Option<Loose<Talk, Global>>
        ensures { MatchOption result (self.holds ≡ None) (λ l. self.holds ≡ Some l.value) }
    {
        let Handle { at } = self;
        if at.is_null() {
            None
        } else {
            Some(Loose {
                at: at as *mut Talk,
                alloc,
            })
        }
    }

    /// Gives up its talk.
    pub fn take(&mut self, alloc: Global) -> Option<Box<Talk>>
        ensures taken { MatchOption result (self.old.holds ≡ None) (λ b. self.old.holds ≡ Some b.value) }
        ensures emptied { self.new.holds ≡ None }
    {
        match replace(self, Handle::empty()).into_loose(alloc) {
            None => None,
            Some(loose) => Some(Talk::tighten(loose)),
        }
    }

    /// Holds this talk. One that it held is let go.
    pub fn put(&mut self, alloc: Global, talk: Box<Talk>)
        ensures { self.new.holds ≡ Some talk.value }
    {
        replace(self, Handle::full(Talk::loosen(talk))).close(alloc);
    }

    /// Lets its talk go.
    pub fn close(self, alloc: Global) {
        if let Some(loose) = self.into_loose(alloc) {
            Talk::close(Talk::tighten(loose));
        }
    }
}

unsafe impl Send for Handle {}

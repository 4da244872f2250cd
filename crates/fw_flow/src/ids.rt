//! Places of nodes, edges and loops in a dataflow.
ghost use Rattle.std.specs.Prelude.{◌≡◌};

use std::fmt;
use std::marker::Model;

/// A node, by its place in the order of lines, from 0. Contracts see the place.
#[derive(Clone, Copy, Debug, PartialEq, Eq)]
pub struct NodeId {
    place: u32,
}

impl Model for NodeId {
    ghost use Rattle.std.specs.Prelude.{ℕ};

    ghost Value = { ℕ };

    ghost view = { λ id. id.place };

    ghost inverse = { λ n. record { place = n } };
}

/// An edge, by its place in the order of lines, from 0. Contracts see the place.
#[derive(Clone, Copy, Debug, PartialEq, Eq)]
pub struct EdgeId {
    place: u32,
}

impl Model for EdgeId {
    ghost use Rattle.std.specs.Prelude.{ℕ};

    ghost Value = { ℕ };

    ghost view = { λ id. id.place };

    ghost inverse = { λ n. record { place = n } };
}

/// A loop, by its place in the order of lines, from 0. Contracts see the place.
#[derive(Clone, Copy, Debug, PartialEq, Eq)]
pub struct LoopId {
    place: u32,
}

impl Model for LoopId {
    ghost use Rattle.std.specs.Prelude.{ℕ};

    ghost Value = { ℕ };

    ghost view = { λ id. id.place };

    ghost inverse = { λ n. record { place = n } };
}

impl NodeId {
    /// The node at a place, from 0.
    pub const fn at(place: u32) -> Self
        ensures { result ≡ place }
    {
        NodeId { place }
    }

    /// Its place.
    pub const fn place(self) -> u32
        ensures { result ≡ self }
    {
        self.place
    }
}

impl fmt::Display for NodeId {
    ghost use Rattle.std.specs.Prelude.{Some};
    ghost use Rattle.std.specs.Fmt.{decimal};

    ghost output = { λ id. Some (decimal id) };

    fn fmt<W: fmt::Write>(&self, f: &mut fmt::Formatter<W>) -> fmt::Result {
        write!(f, "{}", self.place)
    }
}

impl EdgeId {
    /// The edge at a place, from 0.
    pub const fn at(place: u32) -> Self
        ensures { result ≡ place }
    {
        EdgeId { place }
    }

    /// Its place.
    pub const fn place(self) -> u32
        ensures { result ≡ self }
    {
        self.place
    }
}

impl fmt::Display for EdgeId {
    ghost use Rattle.std.specs.Prelude.{Some};
    ghost use Rattle.std.specs.Fmt.{decimal};

    ghost output = { λ id. Some (decimal id) };

    fn fmt<W: fmt::Write>(&self, f: &mut fmt::Formatter<W>) -> fmt::Result {
        write!(f, "{}", self.place)
    }
}

impl LoopId {
    /// The loop at a place, from 0.
    pub const fn at(place: u32) -> Self
        ensures { result ≡ place }
    {
        LoopId { place }
    }

    /// Its place.
    pub const fn place(self) -> u32
        ensures { result ≡ self }
    {
        self.place
    }
}

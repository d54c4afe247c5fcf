// What is listed at a place of a text, which specs/ defines.
#![tactic(auto)]

ghost use Rattle.std.specs.Prelude.{Some};
ghost use Rattle.places.specs.Listing.{OneListing};
ghost use Rattle.places.specs.Shown.{shown};
ghost use Rattle.places.specs.Following.{NextStandsBehind};
ghost use Rattle.places.specs.Near.{OnlyNear};

use std::fmt;

// A reading: the rule, counted from 1, or 0 for a single byte; how many bytes it has with its trailing part, and without.
#[derive(Clone, Copy, PartialEq, Eq)]
pub struct Reading {
    pub rule: usize,
    pub total: usize,
    pub head: usize,
}

impl fmt::Display for Reading {
    ghost output = { λ reading. Some (shown reading) };

    fn fmt<W: fmt::Write>(&self, f: &mut fmt::Formatter<W>) -> fmt::Result {
        write!(f, "{}/{}/{}", self.rule, self.total, self.head)
    }
}

// Theorem: at each place there is one listing, and no other.
pub fn one_listing()
    ensures { OneListing }
{}

// Theorem: what is found after a reading of a listing is the next one.
pub fn next_stands_behind()
    ensures { NextStandsBehind }
{}

// Theorem: a listing looks no further than 1,024 bytes.
pub fn only_near_is_listed()
    ensures { OnlyNear }
{}

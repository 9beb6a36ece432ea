// The standings and kinds of locations. Every function is total: past the tables a location stands
// as nothing, and no change reaches it.
ghost use Rattle.std.specs.Prelude.{ℕ, ◌/◌, ◌%◌, ◌^◌, ◌≡◌, get_or};
ghost use Rattle.value.specs.Test.{◌=?◌};
ghost use Rattle.load.specs.Clauses.{blank, byte_bit, state};
ghost use Rattle.load.specs.Scan as S;

use crate::{Location, Locations, Scan};
use program::{MOST_LOCATIONS, byte, put};

// Standings. They are bytes and no enum: the tables are arrays of bytes by a rule of the project (docs/DECISIONS.md),
// and a deployment that awaits its React has WAITING and a bit for each source that is supplied.
impl Location {
    pub const VALUE: u8 = 1;

    pub const FREE_CELL: u8 = 2;

    pub const KEPT_CELL: u8 = 3;

    pub const FREE_POINT: u8 = 4;

    pub const USED_POINT: u8 = 5;

    pub const UNSET_SINK: u8 = 6;

    pub const SET_SINK: u8 = 7;

    pub const REACTED: u8 = 127;

    pub const WAITING: u8 = 128;
}

impl Scan {
    pub(crate) fn standing_at(&self, l: u8) -> u8
        ensures { result ≡ S.standing_at self.now l }
    {
        byte(&self.standing, l as usize)
    }

    pub(crate) fn kind_at(&self, l: u8) -> u8
        ensures { result ≡ S.kind_at self.now l }
    {
        byte(&self.kind, l as usize)
    }

    pub(crate) fn is_value(&self, l: u8) -> bool
        ensures { result ≡ S.is_value self.now l }
    {
        self.standing_at(l) == Location::VALUE
    }

    pub(crate) fn is_cell(&self, l: u8) -> bool
        ensures { result ≡ S.is_cell self.now l }
    {
        let s = self.standing_at(l);
        (Location::FREE_CELL <= s) & (s <= Location::KEPT_CELL)
    }

    pub(crate) fn is_point(&self, l: u8) -> bool
        ensures { result ≡ S.is_point self.now l }
    {
        let s = self.standing_at(l);
        (Location::FREE_POINT <= s) & (s <= Location::USED_POINT)
    }

    pub(crate) fn is_deployment(&self, l: u8) -> bool
        ensures { result ≡ S.is_deployment self.now l }
    {
        Location::REACTED <= self.standing_at(l)
    }

    // Whether source x of the deployment at l is supplied.
    pub(crate) fn is_supplied(&self, l: u8, x: u8) -> bool
        ensures { result ≡ S.is_supplied self.now l x }
    {
        has_source(self.standing_at(l), x)
    }
}

impl Locations {
    // Before anything stands anywhere.
    pub(crate) fn blank() -> Locations
        ensures { result ≡ blank }
    {
        Locations {
            standing: [0; MOST_LOCATIONS],
            kind: [0; MOST_LOCATIONS],
        }
    }

    // What they say of location l; past them nothing stands there.
    pub(crate) fn seen(&self, l: u8) -> Location
        ensures standing { result.standing ≡ get_or self.now.standing l 0 }
        ensures kind { result.kind ≡ get_or self.now.kind l 0 }
    {
        let at = l as usize;
        Location {
            standing: byte(&self.standing, at),
            kind: byte(&self.kind, at),
        }
    }

    // Gives location l another standing and kind.
    pub(crate) fn stand(&mut self, l: usize, s: u8, k: u8)
        ensures { (n : ℕ) → state self.new n ≡ S.stand (state self.old n) l s k }
    {
        put(&mut self.standing, l, s);
        put(&mut self.kind, l, k);
    }

    // Gives location l another standing alone.
    pub(crate) fn restand(&mut self, l: u8, s: u8)
        ensures { let before = state self.old in
            ((n : ℕ) → state self.new n ≡ S.stand (before n) l s (S.kind_at (before n) l)) }
    {
        put(&mut self.standing, l as usize, s);
    }
}

// Whether a deployment of this standing has source x supplied.
pub(crate) fn has_source(standing: u8, x: u8) -> bool
    ensures { result ≡ (standing / 2 ^ x % 2 =? 1) }
{
    standing as u16 / bit(x) % 2 == 1
}

// The weight of bit x of a byte; 256, which no byte reaches, for a higher one.
pub(crate) fn bit(x: u8) -> u16
    ensures { result ≡ byte_bit x }
{
    1 << x.min(8)
}

// Whether a deployment of this standing has each of its n sources supplied, and no React yet.
pub(crate) fn is_ready(standing: u8, n: u8) -> bool
    ensures { result ≡ (standing =? S.ready_at n) }
{
    (n < 8) & (standing as u16 == Location::WAITING as u16 + (bit(n) - 1))
}

// Whether a location may have this standing at its reactor's end: no React, AllocPoly, Keep or sink
// is missing there.
pub(crate) fn settled(standing: u8) -> bool
    ensures { result ≡ S.settled standing }
{
    (standing < Location::FREE_CELL)
        | (standing == Location::KEPT_CELL)
        | (standing == Location::USED_POINT)
        | (standing == Location::SET_SINK)
        | (standing == Location::REACTED)
}

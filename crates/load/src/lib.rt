// The load check: which programs are accepted, and why another is refused. Sections 2 and 5 of the
// manual.
//
// A program is at most 65,535 bytes. The check reads its header and tables as a whole, and looks for
// the first byte that is not legal only where there is one; then its commands once, in order, and stops
// at the first that is refused, whose number is sought only then. It is linear in the program's length;
// what it knows of a reactor's locations is two tables of 174 bytes, which are lent to the scan and
// changed in place.
#![tactic(auto)]

use program::MOST_LOCATIONS;

mod calls;
mod giving;
mod known;
mod reactor;
mod refuse;
mod standing;
mod tables;
mod take;

pub use calls::{check, judge};

// A standing and a kind for each of up to 174 locations.
#[derive(Drop)]
pub struct Locations {
    pub standing: [u8; MOST_LOCATIONS],
    pub kind: [u8; MOST_LOCATIONS],
}

// The same and the index of the next command, as one value: for the number of a refusal. The definitions
// of specs/ speak of it.
#[derive(Clone, Copy)]
pub struct Scan {
    pub standing: [u8; MOST_LOCATIONS],
    pub kind: [u8; MOST_LOCATIONS],
    pub next: u8,
}

// What goes from command to command beside the locations: the index of the next command, and how many R
// commands before it have a result. Words, since two bytes would be packed into one and taken apart again
// at each command: a tenth more instructions.
#[derive(Clone, Copy)]
pub struct Progress {
    pub next: usize,
    pub results: usize,
}

// What the tables say of one location.
#[derive(Clone, Copy)]
pub struct Location {
    pub standing: u8,
    pub kind: u8,
}

// A line of a file of vectors, read byte by byte.
//
// Its fields, with a space between: 0 the number and 1 the place that is due, in decimal; 2 the
// bytes of the program, in hexadecimal, or `=` for the program of the line before; from 3 on, where
// there are any, words, as `n:` and the bytes of n words in hexadecimal, the words that are not
// written being zero. A figure's line has `?` for the memory that it asks for, which is read as no words.
// A text's line has the text where others have a program, and then `n!` and the n bytes of output space
// after the call, of which the last ones, as long as they are as before, may be left out.
ghost use Rattle.std.specs.Prelude.{◌<◌};

use image::MOST_WORDS;
use machine::{Answer, number, place};

// The fields are numbers and no enum: what a field is differs by the kind of file.

// Memory before and after.
pub const MEMORY: u8 = 3;

pub const MEMORY_AFTER: u8 = 4;

pub const READINGS: u8 = 5;

// Sink space before and after.
pub const SINKS: u8 = 6;

pub const SINKS_AFTER: u8 = 7;

// A preview's line has work memory where others have memory after; it ends with work memory and sink
// space after.
pub const WORK: u8 = 4;

pub const WORK_AFTER: u8 = 7;

pub const SINKS_LAST: u8 = 8;

// A text's line has output space after the call.
pub const OUTPUT_AFTER: u8 = 3;

const FIELDS: usize = 9;

// Bytes for each field.
const FIELD: usize = 4 * MOST_WORDS;

// Bytes for all fields of a line.
pub const ROOM: usize = FIELDS * FIELD;

// What is read of a field: its decimal number, and how many hexadecimal digits it has.
#[derive(Clone, Copy)]
struct Field {
    number: u32,
    digits: u32,
}

const UNREAD: Field = Field {
    number: 0,
    digits: 0,
};

// What is read of a line: the field that it has come to, and whether bytes are read there; its fields; and how many
// digits the program of the line before has.
#[derive(Clone, Copy)]
pub struct Line {
    field: u8,
    hex: bool,
    fields: [Field; FIELDS],
    kept: u32,
    ghost field_in_range: { field < 9 },
}

impl Line {
    // The line after one whose program has so many digits.
    fn after(kept: u32) -> Line {
        Line {
            field: 0,
            hex: false,
            fields: [UNREAD; FIELDS],
            kept,
        }
    }

    pub fn first() -> Line {
        Line::after(0)
    }

    // The line after this one.
    pub fn following(self) -> Line {
        Line::after(self.fields[2].digits)
    }

    // One more byte of the line; the bytes that it spells go into the room.
    pub fn step(&mut self, b: u8, room: &mut [u8; ROOM]) {
        match b {
            b' ' => self.next_field(),
            b':' | b'!' => self.hex = true,
            b'=' => self.fields[2].digits = self.kept,
            _ => self.digit(value_of(b), room),
        }
    }

    fn next_field(&mut self) {
        self.field = self.field % SINKS_LAST + 1;
        self.hex = self.field == 2;
    }

    // Both go round at seven digits; no field of a vector comes so far. A number is read digit by digit, since a
    // piece of the file may end within it.
    fn digit(&mut self, d: u8, room: &mut [u8; ROOM]) {
        let at = self.field;
        let field = self.fields[at as usize];
        let next = if self.hex {
            put_digit(room, at, field.digits, d);
            Field {
                digits: field.digits % 1000000 + 1,
                ..field
            }
        } else {
            Field {
                number: field.number % 1000000 * 10 + u32::from(d),
                ..field
            }
        };
        self.fields[at as usize] = next;
    }

    pub fn number(self) -> u32 {
        self.fields[0].number
    }

    // Whether these are the line's number and place.
    pub fn says(self, answer: Answer) -> bool {
        (self.fields[0].number == number(answer) as u32)
            & (self.fields[1].number as usize == place(answer))
    }

    pub fn program<'a>(self, room: &'a [u8]) -> &'a [u8] {
        bytes_of(room, 2, self.fields[2].digits)
    }

    // How many words a field has, and the bytes of those that are written.
    pub fn count(self, field: u8) -> usize {
        self.fields
            .get(field as usize)
            .map_or(0, |read| read.number as usize)
    }

    pub fn words<'a>(self, field: u8, room: &'a [u8]) -> &'a [u8] {
        let digits = self
            .fields
            .get(field as usize)
            .map_or(0, |read| read.digits);
        bytes_of(room, field, digits)
    }
}

// The value of a hexadecimal digit; `to_digit` takes capitals too, and gives 32 bits.
fn value_of(b: u8) -> u8 {
    match b {
        b'0'..=b'9' => b - b'0',
        b'a'..=b'f' => b - b'a' + 10,
        _ => 0,
    }
}

// Where the byte of digit i of a field stands in the room.
fn place_of(field: u8, i: u32) -> usize {
    field as usize * FIELD + (i / 2) as usize
}

fn put_digit(room: &mut [u8; ROOM], field: u8, i: u32, d: u8) {
    if let Some(byte) = room.get_mut(place_of(field, i)) {
        *byte = if i % 2 == 0 { d % 16 * 16 } else { *byte | d };
    }
}

// The bytes of so many digits of a field, and none where the room does not have them.
fn bytes_of<'a>(room: &'a [u8], field: u8, digits: u32) -> &'a [u8] {
    room.get(place_of(field, 0)..place_of(field, digits))
        .unwrap_or(&[])
}

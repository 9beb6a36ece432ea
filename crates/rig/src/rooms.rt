// A call on a memory of bytes, in a room of words. There are rooms of six sizes, so that a small memory takes a small
// stack.
ghost use Rattle.std.specs.Prelude.{◌/◌, ◌≤◌, ◌≡◌, length};
ghost use Rattle.machine.specs.Clauses.{turned};
ghost use Rattle.rig.specs.Clauses.{room_of, Level, call_of, saves, call_held};

use crate::bytes::{load, save};
use crate::pack::ran;
use image::MOST_WORDS;
use machine::{Answer, start, turn};

// Which call is made. A preview makes its turn on the words of this memory, and its work memory gets those then. With
// a trait or a closure for the call there would be each of the six rooms three times.
#[derive(Clone, Copy)]
pub(crate) enum Call<'a> {
    Start,
    Turn,
    Preview(&'a [u8]),
}

// A call with all that it reads.
#[derive(Clone, Copy)]
pub(crate) struct Request<'a> {
    pub(crate) call: Call<'a>,
    pub(crate) program: &'a [u8],
    pub(crate) readings: &'a [u32],
}

impl<'a> Request<'a> {
    // The room gets the words that the call is made on.
    fn fill(self, memory: &[u8], room: &mut [u32])
        requires room_len { length room.old ≡ length memory.now / 4 }
        requires level { Level self.call memory.now }
        ensures { room.new ≡ room_of self.entry.call memory.now }
    {
        match self.call {
            Call::Start | Call::Turn => load(memory, room),
            Call::Preview(source) => load(source, room),
        }
    }

    // The call on words.
    fn on_words(self, memory: &mut [u32], sinks: &mut [u32]) -> Answer
        ensures { let t = call_of self.entry.call self.entry.program.now memory.old self.entry.readings.now sinks.old in
            turned result memory.new sinks.new ≡ t }
    {
        match self.call {
            Call::Start => start(self.program, memory),
            Call::Turn | Call::Preview(_) => turn(self.program, memory, self.readings, sinks),
        }
    }

    // Whether memory gets the words in the room once the call has given this answer.
    fn saves(self, answer: Answer) -> bool
        ensures { result ≡ saves self.entry.call answer }
    {
        match self.call {
            Call::Start | Call::Turn => true,
            Call::Preview(_) => ran(answer),
        }
    }

    // The call in a room of as many words as memory has.
    fn in_words(self, room: &mut [u32], memory: &mut [u8], sinks: &mut [u32]) -> Answer
        requires room_len { length room.old ≡ length memory.old / 4 }
        requires level { Level self.call memory.old }
        ensures { let r = self.entry in
            let t = call_held r.call r.program.now memory.old r.readings.now sinks.old in
            turned result memory.new sinks.new ≡ t }
    {
        self.fill(memory, room);
        let a = self.on_words(room, sinks);
        if self.saves(a) {
            save(room, memory);
        }
        a
    }

    // The call in the first words of a room of WORDS words. It stays a function of its own: merged into its caller,
    // all six rooms would stand in one frame.
    #[inline(never)]
    fn in_room<const WORDS: usize>(self, memory: &mut [u8], sinks: &mut [u32]) -> Answer
        requires room_enough { length memory.old / 4 ≤ WORDS }
        requires room_few { WORDS ≤ MOST_WORDS }
        requires level { Level self.call memory.old }
        ensures { let r = self.entry in
            let t = call_held r.call r.program.now memory.old r.readings.now sinks.old in
            turned result memory.new sinks.new ≡ t }
    {
        let n = memory.len() / 4;
        let mut room = [0u32; WORDS];
        self.in_words(&mut room[..n], memory, sinks)
    }

    // The call in the smallest room that will do.
    pub(crate) fn on_bytes(self, memory: &mut [u8], sinks: &mut [u32]) -> Answer
        requires room_enough { length memory.old / 4 ≤ MOST_WORDS }
        requires level { Level self.call memory.old }
        ensures { let r = self.entry in
            let t = call_held r.call r.program.now memory.old r.readings.now sinks.old in
            turned result memory.new sinks.new ≡ t }
    {
        match memory.len() / 4 {
            0..=64 => self.in_room::<64>(memory, sinks),
            65..=256 => self.in_room::<256>(memory, sinks),
            257..=1024 => self.in_room::<1024>(memory, sinks),
            1025..=4096 => self.in_room::<4096>(memory, sinks),
            4097..=8192 => self.in_room::<8192>(memory, sinks),
            _ => self.in_room::<MOST_WORDS>(memory, sinks),
        }
    }
}

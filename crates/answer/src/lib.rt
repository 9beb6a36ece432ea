// 5.7 What a call answers: a number and a place. This is the one page of numbers.
#![tactic(auto)]

ghost use Rattle.std.specs.Prelude.{◌≡◌};
ghost use Rattle.answer.specs.Answer.{number_of, place_of, refusal_number, refusal_place};

// 5.11 to 5.35 Why a call is refused, by rising numbers; each case has its place.
#[derive(Clone, Copy)]
pub enum Refusal {
    // 1 The program's length is not what its counts call for: its bytes.
    ProgramLength(usize),
    // 2 A byte of the header or of a table is not legal: that byte, from 0.
    TableByte(usize),
    // 3 No command of this sequence, x or a content out of range, or an unused byte not zero: its first byte.
    Command(usize),
    // 4 An operand names nothing that it may name: the command's first byte, and so for 5, 6, 19 to 21 and 25.
    Operand(usize),
    // 5 A port does not exist, or kinds differ.
    PortOrKind(usize),
    // 6 A source is supplied, or an own sink set, a second time.
    SetTwice(usize),
    // 7 A React, AllocPoly, Keep or Sink is missing at a reactor's end: its entry's first byte.
    Missing(usize),
    // 8 Memory has fewer than 2 words or more than 16,384: its words.
    MemoryLength(usize),
    // 9 The image is not sound for the program: the deployment at fault, its first word, or 0.
    UnsoundImage(usize),
    // 10 There is not one pair of readings for each global: the words of the readings.
    ReadingsLength(usize),
    // 11 A reading is not legal: that reading, from 0.
    Reading(usize),
    // 12 The sink space is too small: the words that it needs.
    SinkSpace(usize),
    // 13 The clock has run out: 0.
    Clock,
    // 14 Memory has no room for a new deployment: its reactor.
    NoRoom(usize),
    // 15 A new deployment would be too deep: its reactor.
    TooDeep(usize),
    // 16 A word or bracket of a text stands where the form has no place for it: its first byte, or the text's length.
    TextForm(usize),
    // 17 A name of a text is unknown, unfit or repeated, or an operator has not as many operands as it takes: its word.
    TextName(usize),
    // 18 The output space is too small for the bytes: how many they are, or 0 where no program can be as large.
    OutputSpace(usize),
    // 19 A React before all sources are supplied, or a Consume before the React.
    TooEarly(usize),
    // 20 A Supply or a second React after the React, a second AllocPoly or Keep.
    TooLate(usize),
    // 21 An AllocMono of a reactor that does not come before its own.
    NotLower(usize),
    // 22 The work memory of a preview is not as long as the memory: the work memory's words.
    WorkLength(usize),
    // 23 A reactor that main needs leads back to itself, so there is no figure: the lowest such reactor.
    Circular(usize),
    // 24 The figure is larger than any memory: 0.
    FigureTooLarge,
    // 25 A primitive that is withdrawn.
    Withdrawn(usize),
}

// The answer of every call: done, with the size that the call is asked for; or refused.
pub type Answer = Result<usize, Refusal>;

impl Refusal {
    pub fn number(self) -> u8
        ensures { result ≡ refusal_number self }
    {
        match self {
            Refusal::ProgramLength(_) => 1,
            Refusal::TableByte(_) => 2,
            Refusal::Command(_) => 3,
            Refusal::Operand(_) => 4,
            Refusal::PortOrKind(_) => 5,
            Refusal::SetTwice(_) => 6,
            Refusal::Missing(_) => 7,
            Refusal::MemoryLength(_) => 8,
            Refusal::UnsoundImage(_) => 9,
            Refusal::ReadingsLength(_) => 10,
            Refusal::Reading(_) => 11,
            Refusal::SinkSpace(_) => 12,
            Refusal::Clock => 13,
            Refusal::NoRoom(_) => 14,
            Refusal::TooDeep(_) => 15,
            Refusal::TextForm(_) => 16,
            Refusal::TextName(_) => 17,
            Refusal::OutputSpace(_) => 18,
            Refusal::TooEarly(_) => 19,
            Refusal::TooLate(_) => 20,
            Refusal::NotLower(_) => 21,
            Refusal::WorkLength(_) => 22,
            Refusal::Circular(_) => 23,
            Refusal::FigureTooLarge => 24,
            Refusal::Withdrawn(_) => 25,
        }
    }

    pub fn place(self) -> usize
        ensures { result ≡ refusal_place self }
    {
        match self {
            Refusal::ProgramLength(q) => q,
            Refusal::TableByte(q) => q,
            Refusal::Command(q) => q,
            Refusal::Operand(q) => q,
            Refusal::PortOrKind(q) => q,
            Refusal::SetTwice(q) => q,
            Refusal::Missing(q) => q,
            Refusal::MemoryLength(q) => q,
            Refusal::UnsoundImage(q) => q,
            Refusal::ReadingsLength(q) => q,
            Refusal::Reading(q) => q,
            Refusal::SinkSpace(q) => q,
            Refusal::Clock => 0,
            Refusal::NoRoom(q) => q,
            Refusal::TooDeep(q) => q,
            Refusal::TextForm(q) => q,
            Refusal::TextName(q) => q,
            Refusal::OutputSpace(q) => q,
            Refusal::TooEarly(q) => q,
            Refusal::TooLate(q) => q,
            Refusal::NotLower(q) => q,
            Refusal::WorkLength(q) => q,
            Refusal::Circular(q) => q,
            Refusal::FigureTooLarge => 0,
            Refusal::Withdrawn(q) => q,
        }
    }
}

// The number of an answer: 0, or that of its refusal.
pub fn number(answer: Answer) -> u8
    ensures { result ≡ number_of answer }
{
    match answer {
        Ok(_) => 0,
        Err(why) => why.number(),
    }
}

// Its place: the size, or the place of its refusal.
pub fn place(answer: Answer) -> usize
    ensures { result ≡ place_of answer }
{
    match answer {
        Ok(size) => size,
        Err(why) => why.place(),
    }
}

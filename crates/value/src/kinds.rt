// Kinds, and the bytes that programs have for them: 0 a number, 1 a truth, 2 + s a reactor of shape s.

// 1.6 What the values of a location are.
#[derive(Clone, Copy, Debug, PartialEq, Eq)]
pub enum Kind {
    Number,
    Truth,
    // Of this shape.
    Reactor(u8),
}

impl From<u8> for Kind {
    ghost use Rattle.std.specs.Prelude.{◌≡◌};
    ghost use Rattle.value.specs.Clauses.{byte_of};

    ghost from_gives = { λ byte kind. byte_of kind ≡ byte };

    fn from(byte: u8) -> Self {
        match byte {
            0 => Kind::Number,
            1 => Kind::Truth,
            _ => Kind::Reactor(byte - 2),
        }
    }
}

//! The reader's cursor: what is left of the text, and its place. It only moves on.
ghost use Rattle.std.specs.Prelude.{ℕ, ◌+◌, ◌^◌, ◌<◌, length};

mod moves;

/// What is left of the text, and the place where that begins. Places in the rest are numbers of the machine.
#[derive(Clone, Copy)]
pub struct Cursor<'a> {
    pub rest: &'a [u8],
    pub place: usize,
    ghost room: { place + length rest.now < 2 ^ 64 },
}

// ITEM or TEXT while it is put together: what was put, in a fixed room.
ghost use Rattle.std.specs.Prelude.{◌≡◌, ◌+◌, ◌≤◌, ◌++◌, List, ℕ, [], length, take};
ghost use Rattle.utils.specs.Message.{decimal};
ghost use Rattle.messages.specs.Messages.{quoted, room};

use std::marker::Model;

// The most bytes of a part: those of the longest TEXT.
const ROOM: usize = 91;

#[derive(Drop)]
pub(crate) struct Part {
    bytes: [u8; ROOM],
    count: usize,
}

impl Model for Part {
    ghost Value = { List ℕ };

    ghost view = { λ p. take p.count p.bytes };

    ghost invariant = { λ p. p.count ≤ 91 };
}

impl Part {
    pub(crate) fn new() -> Part
        ensures { result ≡ [] }
    {
        Part {
            bytes: [0; ROOM],
            count: 0,
        }
    }

    pub(crate) fn as_slice(&self) -> &[u8]
        ensures { result.now ≡ self.now }
    {
        &self.bytes[..self.count]
    }

    pub(crate) fn put(&mut self, word: &[u8])
        requires { length self.old + length word.now ≤ room }
        ensures value { self.new ≡ self.old ++ word.now }
        ensures long { length self.new ≡ length self.old + length word.now }
    {
        self.count = utils::put(&mut self.bytes, self.count, word);
    }

    pub(crate) fn put_decimal(&mut self, n: u32)
        requires { length self.old + 10 ≤ room }
        ensures value { self.new ≡ self.old ++ decimal n }
        ensures short { length self.new ≤ length self.old + 10 }
    {
        self.count = utils::put_decimal(&mut self.bytes, self.count, n);
    }

    #[tactic(auto, unfolding(crate::specs::Messages::quoted))]
    pub(crate) fn put_quoted(&mut self, word: &[u8])
        requires { length self.old + length word.now + 2 ≤ room }
        ensures value { self.new ≡ self.old ++ quoted word.now }
        ensures long { length self.new ≡ length self.old + length word.now + 2 }
    {
        self.put(b"'");
        self.put(word);
        self.put(b"'");
    }
}

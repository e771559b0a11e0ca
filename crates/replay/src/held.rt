// Whether an answer's numbers and the lent slices are what the file says.
ghost use Rattle.std.specs.Prelude.{◌≡◌, ℕ, length, map};
ghost use Rattle.std.specs.Str.{bytes_eq};
ghost use Rattle.replay.specs.Lists.{room, list_at};
ghost use Rattle.replay.specs.Held.{filled, rest_of, keeping, answer_held, holding};

use crate::lists::Kind;
use crate::parts::Part;
use crate::{Outcome, lists, number_at};
use utils::numbers;

// What every lent cell and byte holds before a call, which must write over all of them, or leave all alone.
pub const OLD_CELL: u32 = 2863311530;

pub const OLD_BYTE: u8 = 170;

// How much longer than its size a slice is that is lent whole.
pub const SPARE: usize = 16;

// What a slice that is lent has: cells, or bytes.
pub trait Lent: Copy {
    ghost use Rattle.replay.specs.declared.lists.Kind.{Kind};

    ghost KIND: { Kind };

    ghost OLD: { Self };

    ghost value: { Self → ℕ };

    // What the file's list of it has.
    const KIND: Kind;

    const OLD: Self;

    fn value(self) -> u32
        ensures { result ≡ value self };
}

impl Lent for u32 {
    ghost use Rattle.replay.specs.declared.lists.Kind.TheVariants.{Numbers};
    ghost use Rattle.replay.specs.Held.{old_cell};

    ghost KIND = { Numbers };

    ghost OLD = { old_cell };

    ghost value = { λ cell. cell };

    const KIND: Kind = Kind::Numbers;

    const OLD: u32 = OLD_CELL;

    fn value(self) -> u32 {
        self
    }
}

impl Lent for u8 {
    ghost use Rattle.replay.specs.declared.lists.Kind.TheVariants.{Bytes};
    ghost use Rattle.replay.specs.Held.{old_byte};

    ghost KIND = { Bytes };

    ghost OLD = { old_byte };

    ghost value = { λ byte. byte };

    const KIND: Kind = Kind::Bytes;

    const OLD: u8 = OLD_BYTE;

    fn value(self) -> u32 {
        u32::from(self)
    }
}

// Whether a slice is a list and behind it `rest` alone.
fn same<T: Lent>(got: &[T], list: &[u32], rest: u32) -> bool
    ensures { result ≡ bytes_eq (map T.value got.now) (filled rest (length got.now) list.now) }
{
    if got.len() < list.len() {
        return false;
    }
    let (front, behind) = got.split_at(list.len());
    front
        .iter()
        .zip(list)
        .all(|(x, wanted)| x.value() == *wanted)
        && behind.iter().all(|x| x.value() == rest)
}

// What stands behind a list: zeros, but what stood there before where a slice was too short.
fn rest_of(number: u32, old: u32) -> u32
    ensures { result ≡ rest_of number old }
{
    if number == numbers::SHORT_BUFFER {
        old
    } else {
        0
    }
}

// One thing more, and the place after it: the first part that differs stays.
fn kept(seen: Outcome, part: Part, same: bool, next: usize) -> Outcome
    ensures { result ≡ keeping seen part same next }
{
    Outcome {
        part: seen.part.or((!same).then_some(part)),
        number: seen.number,
        next,
    }
}

// The numbers of an answer, each with its part, held to those that stand in the file from a place on.
pub fn holds_numbers(data: &[u8], from: usize, got: &[(Part, u32)]) -> Outcome
    ensures { result ≡ answer_held «data».now from got.now }
{
    let unseen = Outcome {
        part: None,
        number: number_at(data, from).value,
        next: from,
    };
    got.iter().fold(unseen, |seen, (part, number)| {
        let wanted = number_at(data, seen.next);
        kept(seen, *part, *number == wanted.value, wanted.next)
    })
}

// A slice, held to the file's next list by way of `room`.
fn held_by<T: Lent>(data: &[u8], seen: Outcome, part: Part, room: &mut [u32], got: &[T]) -> Outcome
    ensures { result ≡ holding seen part (map T.value got.now)
        (list_at T.KIND «data».now (length room.old) seen.next) (T.value T.OLD) }
{
    let list = lists::load(data, seen.next, T::KIND, room);
    let rest = rest_of(seen.number, T::OLD.value());
    kept(seen, part, same(got, &room[..list.count], rest), list.next)
}

// A slice, held to the file's next list, and behind it to what it must hold after the answer's number.
pub fn holds<T: Lent>(data: &[u8], seen: Outcome, part: Part, got: &[T]) -> Outcome
    ensures { result ≡ holding seen part (map T.value got.now)
        (list_at T.KIND «data».now room seen.next) (T.value T.OLD) }
{
    let mut room = [0u32; lists::ROOM];
    held_by(data, seen, part, &mut room, got)
}

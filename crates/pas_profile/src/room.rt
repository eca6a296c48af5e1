//! Rooms of a fixed size.

ghost use Rattle.std.specs.Prelude.{◌≡◌, ◌<◌, ◌≤◌, ◌^◌, [], true, length, vec_capacity};

use crate::event::Event;
use std::alloc::Global;
use std::marker::Model;

/// Memory was wanting.
#[derive(Clone, Copy, Debug, PartialEq, Eq, Drop)]
pub struct NoMemory;

/// Room for a fixed number of items, in the order in which they came. Adding one takes no memory.
#[derive(Drop)]
pub struct Room<T> {
    items: Vec<T>,
    bound: u32,
    ghost reserved: { bound ≤ vec_capacity items },
    ghost within: { length items.items ≤ bound },
    ghost limited: { bound < 2 ^ 32 },
}

/// Room for an actor's events, in the order in which they were made.
pub type EventRoom = Room<Event>;

impl<T> Model for Room<T> {
    ghost use Rattle.pas_profile.specs.Rooms.{Holding, holding_code};

    ghost Value = { Holding T };

    ghost coded = { holding_code T.code };

    ghost view = { λ room. record { items = room.items.items; bound = room.bound; within = room.within; limited = room.limited } };
}

/// Whether the first memory has no item, and each of the two is large enough for all items of the other's room.
fn can_exchange<T>(items: &Vec<T>, bound: u32, other: &Vec<T>, other_bound: u32) -> bool
    ensures { result ≡ true → (items.now.items ≡ []) × (bound ≤ vec_capacity other.now) × (other_bound ≤ vec_capacity items.now) }
{
    items.is_empty()
        && other.capacity() >= bound as usize
        && items.capacity() >= other_bound as usize
}

impl<T: Drop> Room<T> {
    ghost use Rattle.std.specs.Prelude.{◌≡◌, ◌<◌, ◌≤◌, ◌+◌, ◌++◌, ◌∷◌, [], IfOk, length};

    /// A room for so many items, with none in it.
    pub fn try_new(alloc: Global, bound: u32) -> Result<Room<T>, NoMemory>
        ensures empty { IfOk result (λ room. room.items ≡ []) }
        ensures size { IfOk result (λ room. room.bound ≡ bound) }
    {
        match Vec::with_capacity(alloc, bound as usize) {
            Ok(items) => Ok(Room { items, bound }),
            Err(_) => Err(NoMemory),
        }
    }

    /// A room as `try_new` gives it, of which the memory for the first `touched` items, or for all, was touched: this item was written there. The
    /// first touch of memory takes long, and so may be left to a thread that has nothing else to do. One write for each of these items.
    pub fn try_new_touched(
        alloc: Global,
        bound: u32,
        touched: u32,
        item: T,
    ) -> Result<Room<T>, NoMemory>
    where
        T: Copy,
        ensures empty { IfOk result (λ room. room.items ≡ []) }
        ensures size { IfOk result (λ room. room.bound ≡ bound) }
    {
        let mut room = Room::try_new(alloc, bound)?;
        for _ in 0..bound.min(touched) {
            room.push(item);
        }
        room.clear();
        Ok(room)
    }

    /// Moves this room, which has no item yet, into the memory of another, where that is large enough. What the other held is forgotten, and
    /// the memory that is left is let go. Takes no memory.
    pub fn move_into(&mut self, other: Room<T>)
        requires { self.old.items ≡ [] }
        ensures empty { self.new.items ≡ [] }
        ensures size { self.new.bound ≡ self.old.bound }
    {
        let Room {
            mut items,
            bound: _,
        } = other;
        if items.capacity() >= self.bound as usize {
            items.clear();
            self.items = items;
        }
    }

    /// For how many more items there is room.
    #[inline]
    pub fn spare(&self) -> u32
        ensures { result + length self.now.items ≡ self.now.bound }
    {
        self.bound - self.items.len() as u32
    }

    /// Adds an item at the end. There must be room for one.
    #[inline]
    pub fn push(&mut self, item: T)
        requires { length self.old.items < self.old.bound }
        ensures added { self.new.items ≡ self.old.items ++ item ∷ [] }
        ensures size { self.new.bound ≡ self.old.bound }
    {
        self.items.push_reserved(item);
    }

    /// Takes all items out.
    pub fn clear(&mut self)
        ensures empty { self.new.items ≡ [] }
        ensures size { self.new.bound ≡ self.old.bound }
    {
        self.items.clear();
    }

    /// Moves the items of another room to the end of this one, where there must be room for them. The other is empty then, with the room that
    /// it had. Where this room is empty and the memory of each is large enough for all items of the other, the two memories are exchanged and
    /// no item is moved. Otherwise the cost is a copy of each item of the other.
    pub fn append(&mut self, other: &mut Room<T>)
        requires { length self.old.items + length other.old.items ≤ self.old.bound }
        ensures added { self.new.items ≡ self.old.items ++ other.old.items }
        ensures none { other.new.items ≡ [] }
        ensures size { self.new.bound ≡ self.old.bound }
        ensures other_size { other.new.bound ≡ other.old.bound }
    {
        if can_exchange(&self.items, self.bound, &other.items, other.bound) {
            std::mem::swap(&mut self.items, &mut other.items);
            return;
        }
        let Ok(()) = self.items.append(&mut other.items) else {
            unreachable!();
        };
    }

    /// The items in order.
    #[inline]
    pub fn as_slice(&self) -> &[T]
        ensures { result.now ≡ self.now.items }
    {
        &self.items
    }
}

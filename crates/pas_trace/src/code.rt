//! Operations in eight bytes.
ghost use Rattle.std.specs.Prelude.{◌≡◌, ◌≤◌, ◌<◌, ◌^◌, ◌*◌, ◌+◌, List, IfSome, length, slice_index, true, false};
ghost use Rattle.pas_trace.specs.{Codes.{kind_in, actor_in, heap_in, name_in, said_by, unlined, is_rare, IsPlaced}, declared.plan.Op.Op};

use crate::plan::{Op, What};
use std::mem::size_of;

/// The kinds of codes.
const REQUEST: u32 = 0;

const FREE: u32 = 1;

const FREE_SIZED: u32 = 2;

const RARE: u32 = 3;

/// How many actors, heaps and names a code can tell apart, and the sizes and the logarithms of alignments that it holds.
const ACTORS: u8 = 32;

const HEAPS: u8 = 32;

const NAMES: u32 = 1 << 20;

const SIZES: u32 = 1 << 28;

const LOGARITHMS: u32 = 16;

/// An operation in eight bytes, without its line. Requests and frees by name are held as they are. Of an operation of another kind it has the
/// place in a list of whole ones.
#[derive(Clone, Copy, PartialEq, Eq, Drop)]
pub struct Code {
    head: u32,
    tail: u32,
}

const _: () = prove!(size_of::<Code>() == 8);

impl Code {
    /// The code of an operation. None where it is a request or a free of no plan, or of another kind: one that is guarded, a free by address,
    /// a reallocation, a flush, a stop or a chore.
    #[inline(always)]
    pub fn of(op: Op) -> Option<Code>
        ensures { IfSome result (λ code. (is_rare code ≡ false) × ((rare : List Op) → said_by rare code ≡ unlined op)) }
    {
        match op.what {
            What::Alloc {
                name,
                heap,
                size,
                align,
            } => {
                let logarithm = align.trailing_zeros();
                if size >= SIZES || logarithm >= LOGARITHMS || 1 << logarithm != align {
                    return None;
                }
                Code::with(REQUEST, op.actor, heap, name, 16 * size + logarithm)
            }
            What::Free { name } => Code::with(FREE, op.actor, 0, name, 0),
            What::FreeSized { name, room } => Code::with(FREE_SIZED, op.actor, 0, name, room),
            _ => None,
        }
    }

    /// The code of the operation at this place of a list of whole ones.
    pub fn at(place: u32) -> Code
        ensures { (is_rare result ≡ true) × (result.tail ≡ place) }
    {
        Code {
            head: RARE,
            tail: place,
        }
    }

    /// A code of these numbers. None where one is too great.
    #[inline(always)]
    fn with(kind: u32, actor: u8, heap: u8, name: u32, tail: u32) -> Option<Code>
        requires { kind < 3 }
        ensures { IfSome result (λ code. (kind_in code ≡ kind) × (actor_in code ≡ actor) × (heap_in code ≡ heap) × (name_in code ≡ name) × (code.tail ≡ tail)) }
    {
        if actor >= ACTORS || heap >= HEAPS || name >= NAMES {
            return None;
        }
        let above = actor as u32 + 32 * (heap as u32 + 32 * name);
        Some(Code {
            head: kind + 4 * above,
            tail,
        })
    }

    /// The operation, with 0 in place of its line, beside the list of whole ones. Constant time.
    #[inline(always)]
    pub fn op(self, rare: &[Op]) -> Op
        requires { IsPlaced (length rare.now) self }
        ensures { result ≡ said_by rare.now self }
    {
        let name = self.head / 4096;
        let what = match self.head % 4 {
            REQUEST => What::Alloc {
                name,
                heap: (self.head / 128 % 32) as u8,
                size: self.tail / 16,
                align: 1 << (self.tail % 16),
            },
            FREE => What::Free { name },
            FREE_SIZED => What::FreeSized {
                name,
                room: self.tail,
            },
            _ => return Op {
                line: 0,
                ..rare[self.tail as usize]
            },
        };
        Op {
            line: 0,
            actor: (self.head / 4 % 32) as u8,
            what,
        }
    }
}

//! Slots of a class: those of a mask of grains, and those that an actor holds.
ghost use Rattle.std.specs.Prelude.{◌≡◌, ℕ, ◌<◌, ◌↔◌, IsTrue};
ghost use Rattle.pas_profile.specs.Classes.{IsClass, IsSlotStart, class_grains};
ghost use Rattle.pas_bits.specs.Masks.{is_set, AreSet};
ghost use Rattle.pas_segregated.specs.Masks.{is_start, start_of, AreStarts};

use pas_bits::Mask4;
use pas_profile::classes::class_size;

/// Slots of one page that an actor holds and that no block covers yet.
#[derive(Clone, Copy, PartialEq, Eq, Drop)]
pub struct Slots {
    pub page: u32,
    /// The heap and the class of the page.
    pub heap: u8,
    pub class: u8,
    /// One bit for each slot that is left: that of its first grain.
    pub starts: Mask4,
    /// Whether the actor has the page's right as long as it has these slots.
    pub right: bool,
}

impl Default for Slots {
    ghost use Rattle.pas_segregated.specs.Stops.{AreNone};

    ghost is_default = { λ s. AreNone s };

    /// No slots, of no page, without a right. It stands for nothing that an actor has: lists with places for slots ask for it.
    fn default() -> Slots {
        Slots {
            page: 0,
            heap: 0,
            class: 0,
            starts: Mask4([0; 4]),
            right: false,
        }
    }
}

/// The first grains of the slots of each class, as masks of 256 bits.
const STARTS: [[u64; 4]; 20] = [
    [
        0xffffffffffffffff,
        0xffffffffffffffff,
        0xffffffffffffffff,
        0xffffffffffffffff,
    ],
    [
        0x5555555555555555,
        0x5555555555555555,
        0x5555555555555555,
        0x5555555555555555,
    ],
    [
        0x9249249249249249,
        0x4924924924924924,
        0x2492492492492492,
        0x1249249249249249,
    ],
    [
        0x1111111111111111,
        0x1111111111111111,
        0x1111111111111111,
        0x1111111111111111,
    ],
    [
        0x1084210842108421,
        0x2108421084210842,
        0x4210842108421084,
        0x0421084210842108,
    ],
    [
        0x1041041041041041,
        0x4104104104104104,
        0x0410410410410410,
        0x0041041041041041,
    ],
    [
        0x8102040810204081,
        0x4081020408102040,
        0x2040810204081020,
        0x0020408102040810,
    ],
    [
        0x0101010101010101,
        0x0101010101010101,
        0x0101010101010101,
        0x0101010101010101,
    ],
    [
        0x1004010040100401,
        0x0100401004010040,
        0x4010040100401004,
        0x0001004010040100,
    ],
    [
        0x1001001001001001,
        0x0100100100100100,
        0x0010010010010010,
        0x0001001001001001,
    ],
    [
        0x0100040010004001,
        0x4001000400100040,
        0x0040010004001000,
        0x0000400100040010,
    ],
    [
        0x0001000100010001,
        0x0001000100010001,
        0x0001000100010001,
        0x0001000100010001,
    ],
    [
        0x1000010000100001,
        0x0100001000010000,
        0x0010000100001000,
        0x0000000010000100,
    ],
    [
        0x0001000001000001,
        0x0100000100000100,
        0x0000010000010000,
        0x0000000001000001,
    ],
    [
        0x0100000010000001,
        0x0001000000100000,
        0x0000010000001000,
        0x0000000100000010,
    ],
    [
        0x0000000100000001,
        0x0000000100000001,
        0x0000000100000001,
        0x0000000100000001,
    ],
    [
        0x0000010000000001,
        0x0100000000010000,
        0x0000000100000000,
        0x0000000000000100,
    ],
    [
        0x0001000000000001,
        0x0000000100000000,
        0x0000000000010000,
        0x0000000000000001,
    ],
    [
        0x0100000000000001,
        0x0001000000000000,
        0x0000010000000000,
        0x0000000000000000,
    ],
    [
        0x0000000000000001,
        0x0000000000000001,
        0x0000000000000001,
        0x0000000000000001,
    ],
];

/// The first grains of the slots of the class.
fn all_starts(class: u8) -> Mask4
    requires { IsClass class }
    ensures { (g : ℕ) → is_set result g ≡ is_start class g }
{
    Mask4(STARTS[class as usize])
}

/// The slots of the class all of whose grains are in the mask, by their first grains.
pub fn whole_slots(grains: &Mask4, class: u8) -> Mask4
    requires class { IsClass class }
    ensures { (g : ℕ) → IsTrue (is_set result g) ↔ (IsSlotStart class g × AreSet grains.now g (class_grains class)) }
{
    let length = (class_size(class) / 16) as u8;
    grains.runs(length).both(&all_starts(class))
}

/// All grains of these slots of the class, which are given by their first grains.
pub fn covered(starts: &Mask4, class: u8) -> Mask4
    requires class { IsClass class }
    requires starts { AreStarts class starts.now }
    ensures { (g : ℕ) → is_set result g ≡ is_set starts.now (start_of class g) }
{
    starts.spread((class_size(class) / 16) as u8)
}

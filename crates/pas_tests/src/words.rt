ghost use Rattle.std.specs.Prelude.{◌≤◌};
ghost use Rattle.pas_profile.specs.{Classes.IsClass, Profiles.IsValid};

use pas_profile::classes::class_size;
use pas_profile::*;
use std::alloc::Global;

/// The largest region of sixteen classes.
const SIXTEEN: Profile = Profile {
    pages: 4096,
    threads: 16,
    age: 1_000_000,
    heaps: 32,
    shared: 0,
    classes: 16,
};

/// The largest region of twenty.
const TWENTY: Profile = Profile {
    pages: 16_384,
    classes: 20,
    ..SIXTEEN
};

/// The sizes of all classes, written out once more.
const SIZES: [u32; 20] = [
    16, 32, 48, 64, 80, 96, 112, 128, 160, 192, 224, 256, 320, 384, 448, 512, 640, 768, 896, 1024,
];

/// Whether the class has this size, and a page of it so many slots.
fn has_slots(class: u8, size: u32, slots: u32) -> bool
    requires { IsClass class }
{
    class_size(class) == size && 4096u32.checked_div(size) == Some(slots)
}

/// Whether just the lowest so many grains of a page of the class are usable, all but the last 64 among them.
fn has_usable(class: u8, usable: u32) -> bool
    requires { IsClass class }
{
    let [first, second, third, last] = slot_mask(class);
    let ones = last.trailing_ones();
    [first, second, third] == [u64::MAX; 3] && 192 + ones == usable && last.count_ones() == ones
}

#[test]
fn classes_have_their_sizes_slots_and_usable_grains(rt: HostRuntime) {
    let slots = [
        256, 128, 85, 64, 51, 42, 36, 32, 25, 21, 18, 16, 12, 10, 9, 8, 6, 5, 4, 4,
    ];
    let usable = [
        256, 256, 255, 256, 255, 252, 252, 256, 250, 252, 252, 256, 240, 240, 252, 256, 240, 240,
        224, 256,
    ];
    for class in 0..20u8 {
        let at = class as usize;
        assert!(rt; has_slots(class, SIZES[at], slots[at]) && has_usable(class, usable[at]));
    }
}

/// Whether heap 31 of the region admits the request, which goes this way and gets a room of so many bytes.
fn goes(profile: &Profile, size: u32, align: u32, way: Route, bytes: u32) -> bool
    requires { IsValid profile.now }
{
    profile.admits(size, align, 31)
        && profile.route(size, align) == way
        && profile.room_for(size, align) == bytes
}

/// Whether the class serves the size in a region that has it, and a bit-fit page with this room in a region of sixteen classes that hasn't.
fn is_served(class: u8, size: u32, room: u32, whole: u32) -> bool {
    let way = Route::Class(class);
    let is_few = if class < 16 {
        goes(&SIXTEEN, size, 16, way, room)
    } else {
        goes(&SIXTEEN, size, 16, Route::Bitfit, whole)
    };
    is_few && goes(&TWENTY, size, 16, way, room)
}

#[test]
fn each_class_serves_the_sizes_up_to_its_own(rt: HostRuntime) {
    let least = [
        0, 17, 33, 49, 65, 81, 97, 113, 129, 161, 193, 225, 257, 321, 385, 449, 513, 641, 769, 897,
    ];
    let whole = [
        16, 32, 48, 64, 80, 96, 112, 128, 144, 176, 208, 240, 272, 336, 400, 464, 528, 656, 784,
        912,
    ];
    for class in 0..20u8 {
        let at = class as usize;
        assert!(rt; is_served(class, least[at], SIZES[at], whole[at]));
        assert!(rt; is_served(class, SIZES[at], SIZES[at], SIZES[at]));
    }
}

/// Sizes and alignments, with the routes and the bytes of their rooms in a region of sixteen and in one of twenty classes.
const REQUESTS: [(u32, u32, Route, u32, Route, u32); 19] = [
    (1, 16, Route::Class(0), 16, Route::Class(0), 16),
    (24, 16, Route::Class(1), 32, Route::Class(1), 32),
    (130, 128, Route::Class(11), 256, Route::Class(11), 256),
    (0, 512, Route::Class(15), 512, Route::Class(15), 512),
    (512, 16, Route::Class(15), 512, Route::Class(15), 512),
    (513, 16, Route::Bitfit, 528, Route::Class(16), 640),
    (513, 256, Route::Bitfit, 528, Route::Class(17), 768),
    (600, 512, Route::Bitfit, 608, Route::Class(19), 1024),
    (769, 128, Route::Bitfit, 784, Route::Class(18), 896),
    (769, 256, Route::Bitfit, 784, Route::Class(19), 1024),
    (16, 1024, Route::Bitfit, 16, Route::Class(19), 1024),
    (1024, 1024, Route::Bitfit, 1024, Route::Class(19), 1024),
    (1024, 2048, Route::Bitfit, 1024, Route::Bitfit, 1024),
    (1025, 16, Route::Bitfit, 1040, Route::Bitfit, 1040),
    (2048, 16, Route::Bitfit, 2048, Route::Bitfit, 2048),
    (2049, 16, Route::Large, 4096, Route::Large, 4096),
    (4097, 16, Route::Large, 8192, Route::Large, 8192),
    (
        16_777_216,
        4096,
        Route::Large,
        16_777_216,
        Route::Large,
        16_777_216,
    ),
    (0, 4096, Route::Bitfit, 16, Route::Bitfit, 16),
];

#[test]
fn requests_have_their_routes_and_rooms(rt: HostRuntime) {
    for (size, align, way, bytes, other_way, other_bytes) in &REQUESTS {
        assert!(rt; goes(&SIXTEEN, *size, *align, *way, *bytes));
        assert!(rt; goes(&TWENTY, *size, *align, *other_way, *other_bytes));
    }
    assert!(rt; goes(&TWENTY, 67_108_864, 16, Route::Large, 67_108_864));
}

/// Whether a region may have so many pages, threads, heaps and classes, and this age.
fn is_allowed(pages: u32, threads: u8, age: u64, heaps: u8, classes: u8) -> bool {
    let profile = Profile {
        pages,
        threads,
        age,
        heaps,
        shared: 8,
        classes,
    };
    profile.is_valid()
}

#[test]
fn profiles_have_limits(rt: HostRuntime) {
    assert!(rt; SIXTEEN.is_valid() && TWENTY.is_valid());
    let pages = [1, 4096, 0, 4097, 1, 1, 1, 1, 1, 1];
    let threads = [1, 16, 1, 1, 0, 17, 1, 1, 1, 1];
    let ages = [1, 1_000_000, 1, 1, 1, 1, 0, 1_000_001, 1, 1];
    let heaps = [1, 32, 1, 1, 1, 1, 1, 1, 0, 33];
    for at in 0..10 {
        let is_valid = at < 2;
        assert!(rt; is_allowed(pages[at], threads[at], ages[at], heaps[at], 16) == is_valid);
    }
}

#[test]
fn numbers_of_classes_have_limits(rt: HostRuntime) {
    let pages = [1, 4097, 16_384, 0, 16_385, 1, 1, 1, 1];
    let classes = [20, 20, 20, 20, 20, 0, 15, 17, 21];
    for at in 0..9 {
        let is_valid = at < 3;
        assert!(rt; is_allowed(pages[at], 1, 1, 1, classes[at]) == is_valid);
    }
}

#[test]
fn requests_have_limits(rt: HostRuntime) {
    let sizes = [16777217, 16, 16, 16, 16];
    let aligns = [16, 8, 48, 8192, 16];
    let heaps = [0, 0, 0, 0, 32];
    for at in 0..5 {
        assert!(rt; !SIXTEEN.admits(sizes[at], aligns[at], heaps[at]));
    }
    assert!(rt; TWENTY.admits(67_108_864, 16, 0) && !TWENTY.admits(67_108_865, 16, 0));
}

#[test]
fn words_record_deeds(rt: HostRuntime) {
    let shared = Directory {
        heap: 31,
        kind: Kind::Shared,
    };
    let last_class = Directory {
        heap: 0,
        kind: Kind::Class(19),
    };
    assert!(rt; shared.number() == 734 && deed_word(shared) == 73493);
    assert!(rt; read_deed(73493) == Some(shared));
    assert!(rt; last_class.number() == 19 && deed_word(last_class) == 65555);
    assert!(rt; read_deed(65555) == Some(last_class));
    for word in [0, 65535, 65559, 73728] {
        assert!(rt; read_deed(word).is_none());
    }
}

#[test]
fn words_record_lives(rt: HostRuntime) {
    assert!(rt; life_word(0, 2, true) == 0x8000020000000000 && life_word(1, 0, false) == 1);
    assert!(rt; read_life(0x8000020000000000) == (0, 2, true) && read_life(1) == (1, 0, false));
}

#[test]
fn the_largest_regions_have_their_words(rt: HostRuntime) {
    let layout = Layout::new(&SIXTEEN);
    assert!(rt; layout.words() == 1125219);
    assert!(rt; layout.index(Word::Life(1, 255)) == 260);
    assert!(rt; layout.index(Word::Eligible(735, 64)) == 1125218);
    let layout = Layout::new(&TWENTY);
    assert!(rt; layout.words() == 4498659);
    assert!(rt; layout.index(Word::Life(16_384, 255)) == 4308989);
    assert!(rt; layout.index(Word::Eligible(735, 256)) == 4498658);
}

const EVENT: Event = Event::Back { actor: 1, page: 7 };

/// Whether a room for two events takes them.
fn takes_two(alloc: Global) -> Result<bool, NoMemory> {
    let mut room = EventRoom::try_new(alloc, 2)?;
    room.push(EVENT);
    let spare = room.spare();
    room.push(EVENT);
    Ok([spare, room.spare()] == [1, 0] && room.as_slice() == [EVENT, EVENT].as_slice())
}

#[test]
fn rooms_take_their_events(rt: HostRuntime) {
    assert!(rt; matches!(takes_two(rt.alloc()), Ok(true)));
}

/// Whether an empty room takes an event in the memory of a room of this size, so much of which was touched.
fn moves_into(alloc: Global, size: u32, touched: u32) -> Result<bool, NoMemory>
    requires { 1 ≤ size }
{
    let mut before = EventRoom::try_new_touched(alloc, size, touched, EVENT)?;
    let is_sized = before.spare() == size;
    before.push(EVENT);
    let mut room = EventRoom::try_new(alloc, 2)?;
    room.move_into(before);
    let is_empty = room.spare() == 2 && room.as_slice().is_empty();
    room.push(EVENT);
    Ok(is_sized && is_empty && room.as_slice() == [EVENT].as_slice())
}

#[test]
fn rooms_move_into_memory_that_was_touched(rt: HostRuntime) {
    assert!(rt; matches!(moves_into(rt.alloc(), 1, 1), Ok(true)));
    assert!(rt; matches!(moves_into(rt.alloc(), 2, 5), Ok(true)));
    assert!(rt; matches!(moves_into(rt.alloc(), 3, 0), Ok(true)));
}

#[test]
fn addresses_have_pages_and_grains(rt: HostRuntime) {
    let address = Address(3 * 4096 + 5 * 16);
    let block = Block {
        name: Name { address, turn: 0 },
        room: 4128,
        heap: 0,
    };
    assert!(rt; [address.page(), address.grain(), block.grains()] == [3, 773, 258]);
}

#[test]
fn refusals_have_numbers(rt: HostRuntime) {
    let whys = [
        Why::Ended.number(),
        Why::NoBlock.number(),
        Why::SizeDiffers(48).number(),
    ];
    assert!(rt; whys == [1, 2, 3]);
    let faults = [FreeFault::Outside.number(), FreeFault::Unaligned.number()];
    let wants = [NoRoom::NoSpace.number(), NoRoom::Held(7).number()];
    assert!(rt; faults == [1, 2] && wants == [1, 2]);
}

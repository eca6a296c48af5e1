//! The route of a request, and the room that it gets.
ghost use Rattle.std.specs.Prelude.{◌≡◌, ◌≤◌, ◌%◌, ◌==◌};
ghost use Rattle.pas_profile.specs.{Classes.{IsAlignment, IsClassCount}, Routes.{route_of, room_of}};

use crate::classes::{CLASS_SIZES, class_size};
use crate::directory::Route;
use crate::limits::{GRAIN_BYTES, MOST_BITFIT, PAGE_BYTES};

/// The smallest class of at least so many grains, by the number of grains.
const CLASS_BY_GRAINS: [u8; 65] = [
    0, 0, 1, 2, 3, 4, 5, 6, 7, 8, 8, 9, 9, 10, 10, 11, 11, 12, 12, 12, 12, 13, 13, 13, 13, 14, 14,
    14, 14, 15, 15, 15, 15, 16, 16, 16, 16, 16, 16, 16, 16, 17, 17, 17, 17, 17, 17, 17, 17, 18, 18,
    18, 18, 18, 18, 18, 18, 19, 19, 19, 19, 19, 19, 19, 19,
];

/// Whether a size in whole grains is a multiple of the alignment. Nearly every alignment is a grain, which needs no division.
#[inline(always)]
fn is_multiple(size: u32, align: u32) -> bool
    requires whole { size % 16 ≡ 0 }
    requires align { IsAlignment align }
    ensures { result ≡ (size % align == 0) }
{
    align == GRAIN_BYTES || size % align == 0
}

/// The route of a request for so many bytes at a multiple of the alignment, in a region of sixteen or twenty classes: the smallest of
/// its classes that is large enough and a multiple of the alignment; where there is none, a bit-fit page up to 2,048 bytes, and whole
/// pages above. At most as many steps as there are classes.
pub fn route(classes: u8, size: u32, align: u32) -> Route
    requires classes { IsClassCount classes }
    requires align { IsAlignment align }
    ensures { result ≡ route_of classes size align }
{
    let grains = size.div_ceil(GRAIN_BYTES) as usize;
    if grains < CLASS_BY_GRAINS.len() {
        for class in CLASS_BY_GRAINS[grains]..classes {
            if is_multiple(CLASS_SIZES[class as usize], align) {
                return Route::Class(class);
            }
        }
    }
    if size <= MOST_BITFIT {
        Route::Bitfit
    } else {
        Route::Large
    }
}

/// The room of the block for such a request: the size of its class, or the size rounded up to whole grains on a bit-fit page, and to
/// whole pages otherwise. Size 0 counts as 1.
pub fn room_for(classes: u8, size: u32, align: u32) -> u32
    requires classes { IsClassCount classes }
    requires size { size ≤ 67108864 }
    requires align { IsAlignment align }
    ensures { result ≡ room_of classes size align }
{
    let least = size.max(1);
    match route(classes, size, align) {
        Route::Class(class) => class_size(class),
        Route::Bitfit => least.div_ceil(GRAIN_BYTES) * GRAIN_BYTES,
        Route::Large => least.div_ceil(PAGE_BYTES) * PAGE_BYTES,
    }
}

//! Laws of the profile's numbers: each function does nothing, and its contract is a fact that holds of all arguments.

ghost use Rattle.std.specs.Prelude.{◌≡◌, ◌≢◌, ◌<◌, ◌≤◌, ◌+◌, ◌*◌, ◌%◌, ◌^◌, ℕ, Some, None, true, false};
ghost use Rattle.pas_profile.specs.{Classes.{IsClass, IsAlignment, IsSlotStart, class_grains}, Directories.{IsDirectory, number_of, deed_word_of}};
ghost use Rattle.pas_profile.specs.{Directories.directory_read, Layouts.index_of, Profiles.{IsAdmitted, IsDirectoryOf, IsWordIn}, Requests.directory_for};
ghost use Rattle.pas_profile.specs.{Lives.{life_word_of, turn_of, grains_of, is_live}, Routes.{Suits, IsRouteOf, IsRoomFor, route_of, room_of}};

use crate::directory::Directory;
use crate::profile::Profile;
use crate::word::{Layout, Word};

/// Distinct words of a region have distinct places.
#[tactic(auto, using(crate::proofs::Places::word_from_place))]
pub fn distinct_words_have_distinct_places(layout: &Layout, one: Word, other: Word)
    requires first { IsWordIn layout.now.pages layout.now.heaps one }
    requires second { IsWordIn layout.now.pages layout.now.heaps other }
    ensures { one ≢ other → index_of layout.now.pages one ≢ index_of layout.now.pages other }
{}

/// Distinct directories have distinct numbers, each below 23 times the number of heaps.
pub fn distinct_directories_have_distinct_numbers(one: Directory, other: Directory)
    requires first { IsDirectory one }
    requires second { IsDirectory other }
    ensures apart { one ≢ other → number_of one ≢ number_of other }
    ensures below { number_of one < 23 * 32 }
{}

/// Reading a deed word gives the directory that it was made from. No deed word is 0, which stands for a page with no directory.
pub fn deed_words_are_read(directory: Directory)
    requires { IsDirectory directory }
    ensures read { directory_read (deed_word_of directory) ≡ Some directory }
    ensures set { deed_word_of directory ≢ 0 }
{}

/// A word is read as a directory only where it is that directory's deed word, and as none where it is no deed word.
#[tactic(auto, using(crate::proofs::Codecs::read_is, crate::proofs::Codecs::read_none))]
pub fn only_deed_words_are_read(word: u64)
    ensures read { (d : Directory) → directory_read word ≡ Some d → IsDirectory d × (word ≡ deed_word_of d) }
    ensures other { ((d : Directory) → IsDirectory d → word ≢ deed_word_of d) → directory_read word ≡ None }
{}

/// Reading the life word of a block gives its turn, its grains, and that it lives.
pub fn life_words_are_read(turn: u64, grains: u32)
    requires turn { turn < 2 ^ 40 }
    requires grains { grains < 2 ^ 23 }
    ensures turn { turn_of (life_word_of turn grains true) ≡ turn }
    ensures grains { grains_of (life_word_of turn grains true) ≡ grains }
    ensures live { is_live (life_word_of turn grains true) ≡ true }
{}

/// Where no block lives the life word is the turn alone, and is read as such.
pub fn turns_are_read(turn: u64)
    requires { turn < 2 ^ 40 }
    ensures alone { life_word_of turn 0 false ≡ turn }
    ensures turn { turn_of turn ≡ turn }
    ensures grains { grains_of turn ≡ 0 }
    ensures ended { is_live turn ≡ false }
{}

/// The route is the smallest class of the region that is large enough and a multiple of the alignment. Where there is none it is a
/// bit-fit page up to 2,048 bytes, and whole pages above.
#[tactic(auto, using(crate::proofs::Sizes::route_is))]
pub fn routes_are_smallest(classes: u8, size: u32, align: u32)
    requires { IsAlignment align }
    ensures { IsRouteOf classes size align (route_of classes size align) }
{}

/// The room of a request is large enough for it, and of whole grains.
#[tactic(auto, using(crate::proofs::Requests::room_is))]
pub fn rooms_are_large_enough(classes: u8, size: u32, align: u32)
    requires { IsAlignment align }
    ensures { IsRoomFor size (room_of classes size align) }
{}

/// The directory of an admitted request is one of the profile.
#[tactic(auto, using(crate::proofs::Requests::directory_is))]
pub fn requests_have_directories(profile: Profile, size: u32, align: u32, heap: u8)
    requires { IsAdmitted profile size align heap }
    ensures { IsDirectoryOf profile (directory_for profile heap size align) }
{}

/// Two slots of a class that share a grain are one, and no slot reaches past the page.
pub fn slots_are_apart(class: u8, one: u8, other: u8)
    requires class { IsClass class }
    requires first { IsSlotStart class one }
    requires second { IsSlotStart class other }
    ensures apart { one < other + class_grains class → other < one + class_grains class → one ≡ other }
    ensures within { one + class_grains class ≤ 256 }
{}

/// A slot of a class that suits a request begins at a multiple of the request's alignment.
pub fn slots_are_aligned(class: u8, grain: u8, page: u32, size: u32, align: u32)
    requires class { IsClass class }
    requires slot { IsSlotStart class grain }
    requires align { IsAlignment align }
    requires suits { Suits size align class }
    ensures { (page * 4096 + grain * 16) % align ≡ 0 }
{}

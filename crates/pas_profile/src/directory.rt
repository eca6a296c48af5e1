//! Directories of pages, and the deed words that record them.
ghost use Rattle.std.specs.Prelude.{◌≡◌, ◌<◌, ◌^◌};
ghost use Rattle.pas_profile.specs.Directories.{IsDirectory, deed_word_of, directory_read};

use crate::limits::MOST_CLASSES;

/// What a page serves: blocks of one class, bit-fit blocks of mixed sizes, partial views of several classes, or whole pages.
#[derive(Clone, Copy, PartialEq, Eq, Drop)]
pub enum Kind {
    Class(u8),
    Bitfit,
    Shared,
    Large,
}

/// How a request is served: by a page of a class, by a bit-fit page, or by whole pages.
#[derive(Clone, Copy, PartialEq, Eq, Drop)]
pub enum Route {
    Class(u8),
    Bitfit,
    Large,
}

/// A heap and a kind. The deed of a page is its directory, written once and never changed.
#[derive(Clone, Copy, PartialEq, Eq, Drop)]
pub struct Directory {
    pub heap: u8,
    pub kind: Kind,
}

impl Kind {
    ghost use Rattle.pas_profile.specs.Directories.{kind_number};

    /// The number of the kind: that of the class, 20 for bit-fit, 21 for shared, 22 for large.
    pub fn number(&self) -> u8
        ensures { result ≡ kind_number self.now }
    {
        match self {
            Kind::Class(class) => *class,
            Kind::Bitfit => 20,
            Kind::Shared => 21,
            Kind::Large => 22,
        }
    }
}

impl Directory {
    ghost use Rattle.pas_profile.specs.Directories.{number_of};

    /// The number of the directory among all of the region: `heap * 23` and the number of its kind.
    pub fn number(&self) -> u16
        ensures { result ≡ number_of self.now }
    {
        self.heap as u16 * 23 + self.kind.number() as u16
    }
}

/// The word that records the directory as a page's deed.
pub fn deed_word(directory: Directory) -> u64
    requires { IsDirectory directory }
    ensures { result ≡ deed_word_of directory }
{
    65536 + directory.heap as u64 * 256 + directory.kind.number() as u64
}

/// The directory that a deed word records. None exactly where the word is 0 or no deed word.
pub fn read_deed(word: u64) -> Option<Directory>
    ensures { result ≡ directory_read word }
{
    if word < 65536 || word >= 65536 + 32 * 256 {
        return None;
    }
    let heap = ((word - 65536) / 256) as u8;
    let kind = match (word % 256) as u8 {
        20 => Kind::Bitfit,
        21 => Kind::Shared,
        22 => Kind::Large,
        class if class < MOST_CLASSES => Kind::Class(class),
        _ => return None,
    };
    Some(Directory { heap, kind })
}

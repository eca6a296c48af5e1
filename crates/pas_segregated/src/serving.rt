//! Exclusive pages serve a search.
use crate::taking::take_slots;
use pas_bits::Mask4;
use pas_profile::Directory;
use pas_rights::leave;
use pas_search::Serving;
use pas_steps::Desk;

/// Exclusive pages of a class.
#[derive(Clone, Copy)]
pub struct Exclusive {
    pub class: u8,
}

impl Serving for Exclusive {
    ghost use Rattle.pas_segregated.specs.Takes.{exclusive, fewer_slots};

    type Found = Mask4;

    ghost rule = { λ s. exclusive s.class };

    /// All free slots of the page, by their first grains. The page is backed then, and its right is kept.
    ///
    /// None where no slot is free with all its grains. At most 27 steps.
    fn serve<D: Desk>(&self, desk: &mut D, page: u32, directory: Directory) -> Option<Mask4> {
        let starts = take_slots(desk, page, directory, self.class);
        if starts.is_empty() {
            leave(desk, page, directory);
            return None;
        }
        desk.back(page);
        Some(starts)
    }

    ghost fewer = { λ s. fewer_slots s.class };
}

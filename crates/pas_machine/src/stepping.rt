//! Steps of a machine, one kind of event at a time.
ghost use Rattle.std.specs.Prelude.{ℕ, ◌≡◌};
ghost use Rattle.pas_profile.specs.declared.event.Event.{Event as TheEvent};
ghost use Rattle.pas_machine.specs.Machines.{profile_of, Steps};

use crate::fault::{Illegal, StepFault};
use crate::looking::{cover, note_end};
use crate::machine::Machine;
use crate::places::Place;
use pas_profile::{Block, Directory, Event, Name, Why};

impl Machine {
    /// Takes the event, where it may come next.
    ///
    /// Illegal with the first reason that applies, exactly where one does. NoMemory only for a give, where 2^64 - 1 blocks were given at its
    /// address before, so that one more can't be counted. After both the machine is as it was. A step takes no memory. It costs some looks, and
    /// for a give, an end and an unback one look and one write at most for each grain and each page of the run or of the page.
    pub fn step(&mut self, event: &Event) -> Result<(), StepFault>
        ensures profile { profile_of self.new ≡ profile_of self.old }
        ensures steps { Steps self.old self.new event.now result }
    {
        match *event {
            Event::Deed {
                page,
                directory,
                ..
            } => self.deed(page, directory),
            Event::Back { page, .. } => self.back(page),
            Event::Unback { page, epoch, .. } => self.unback(page, epoch),
            Event::Give { block, .. } => self.give(block),
            Event::End { name, epoch, .. } => self.end(name, epoch),
            Event::Reject { name, why, .. } => self.reject(name, why),
        }
    }

    fn deed(&mut self, page: u32, directory: Directory) -> Result<(), StepFault>
        ensures profile { profile_of self.new ≡ profile_of self.old }
        ensures steps { (k : ℕ) → Steps self.old self.new (TheEvent.Deed k page directory) result }
    {
        if let Some(reason) = self.deed_reason(page, directory) {
            return Err(StepFault::Illegal(reason));
        }
        self.pages[page as usize].directory = Some(directory);
        Ok(())
    }

    fn back(&mut self, page: u32) -> Result<(), StepFault>
        ensures profile { profile_of self.new ≡ profile_of self.old }
        ensures steps { (k : ℕ) → Steps self.old self.new (TheEvent.Back k page) result }
    {
        if let Some(reason) = self.back_reason(page) {
            return Err(StepFault::Illegal(reason));
        }
        self.pages[page as usize].backed = true;
        Ok(())
    }

    fn unback(&mut self, page: u32, epoch: u64) -> Result<(), StepFault>
        ensures profile { profile_of self.new ≡ profile_of self.old }
        ensures steps { (k : ℕ) → Steps self.old self.new (TheEvent.Unback k page epoch) result }
    {
        if let Some(reason) = self.unback_reason(page, epoch) {
            return Err(StepFault::Illegal(reason));
        }
        self.pages[page as usize].backed = false;
        Ok(())
    }

    fn give(&mut self, block: Block) -> Result<(), StepFault>
        ensures profile { profile_of self.new ≡ profile_of self.old }
        ensures steps { (k : ℕ) → Steps self.old self.new (TheEvent.Give k block) result }
    {
        if let Some(reason) = self.give_reason(&block) {
            return Err(StepFault::Illegal(reason));
        }
        let first = block.name.address.grain() as usize;
        let gives = self.places[first].gives;
        if gives == u64::MAX {
            return Err(StepFault::NoMemory);
        }
        self.places[first] = Place {
            lives: true,
            heap: block.heap,
            room: block.room,
            gives: gives + 1,
        };
        cover(
            &mut self.covered,
            first,
            first + block.grains() as usize,
            true,
        );
        Ok(())
    }

    fn end(&mut self, name: Name, epoch: u64) -> Result<(), StepFault>
        ensures profile { profile_of self.new ≡ profile_of self.old }
        ensures steps { (k : ℕ) → Steps self.old self.new (TheEvent.End k name epoch) result }
    {
        let block = match self.ending(&name) {
            Ok(block) => block,
            Err(reason) => return Err(StepFault::Illegal(reason)),
        };
        let first = name.address.grain() as usize;
        let until = first + block.grains() as usize;
        self.places[first] = Place::bare(self.places[first].gives);
        cover(&mut self.covered, first, until, false);
        note_end(&mut self.pages, first / 256, (until + 255) / 256, epoch);
        Ok(())
    }

    fn reject(&self, name: Name, why: Why) -> Result<(), StepFault>
        ensures { (k : ℕ) → Steps self.now self.now (TheEvent.Reject k name why) result }
    {
        match self.reject_reason(&name, why) {
            Some(reason) => Err(StepFault::Illegal(reason)),
            None => Ok(()),
        }
    }
}

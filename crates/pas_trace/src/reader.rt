//! The reader: what it keeps of the lines before, and how it takes a line.
ghost use Rattle.std.specs.Prelude.{◌≡◌, ◌<◌, ◌≤◌, ◌+◌, ◌∷◌, ◌^◌, [], ℕ, List, Some, None, Ok, Err, OnOk, IfOk, MatchOption, MatchResult, true, false};
ghost use Rattle.std.specs.Prelude.{if◌then◌else◌, length};
ghost use Rattle.pas_profile.specs.Profiles.{IsValid};
ghost use Rattle.pas_trace.specs.Reasons.{reason_of, cost_of, cost_of_request, cost_of_wish, guard_checks, is_guard_number, records_of_chore, started};
ghost use Rattle.pas_trace.specs.{Reasons.{is_thread, first_failed}, Items.item_of_line, Wishes.{asking, IsFit}, Texts.lines_of, Lexed.{Say, AreLexed}};
ghost use Rattle.pas_trace.specs.{Gathering.{HasGathered, is_scripting}, Scripts.IsScripting, Plans.{IsReading, bounds_of, bounds_upto, all_bounds}};
ghost use Rattle.pas_trace.specs.{Plans.{request_kept, fault_at}, Told.{Tells, IsReady, CanSample, IsCounted, IsOperated, IsNextPhase, IsGuarding, IsAdded}};
ghost use Rattle.pas_trace.specs.Told.{IsTaken, IsFirstTaken, AreTaken, IsRead, IsBegun, IsOutlined, IsPlanned, IsScripted, IsChecked, AreTested, few_told};
ghost use Rattle.pas_trace.specs.{Told.{thread_told, sizing_told, freed_told, told_checks, reason_told}, declared.item.{Item.Item, Wish.Wish}};

use crate::counts::{Counts, MOST_OPERATIONS, MOST_RECORDS};
use crate::fault::{ReadFault, Reason, TraceFault};
use crate::fronts::{allocation_line, free_line};
use crate::gathered::Gathered;
use crate::header::{Header, read_header};
use crate::item::{Item, Request, Wish};
use crate::items::read_item;
use crate::lines::next_line;
use crate::names::{Names, Owner};
use crate::outline::Outline;
use crate::plan::{Bounds, Chore, Op, Plan, What};
use crate::requests::{cost_of_request, is_aligning, request_kept};
use crate::samples::Samples;
use crate::script::Script;
use pas_profile::limits::PAGE_BYTES;
use pas_profile::{Address, Name, Profile};
use std::alloc::{AllocError, Global};

/// The most threads of a guarded trace: each has a keeper, and there are at most 16 actors beside the scavenger.
const MOST_GUARDED: u8 = 8;

/// The greatest number of a `guard` line.
const MOST_SAMPLED: u64 = 1_000_000;

/// What the lines so far come to.
#[derive(Drop)]
pub struct Reader {
    alloc: Global,
    header: Header,
    /// The marks of shared heaps.
    shared: u32,
    /// Whether an operation or a `phase` line was read.
    started: bool,
    /// The number of the line that was read last.
    line: u32,
    /// The number of `phase` lines.
    phase: u32,
    names: Names,
    samples: Samples,
    counts: Counts,
    gathered: Gathered,
}

impl Reader {
    /// A reader that has read the header.
    fn new(alloc: Global, header: Header, gathered: Gathered) -> Reader
        requires valid { IsValid header.profile }
        requires first { HasGathered ([] ∷ []) gathered }
        ensures tells { Tells result [] }
        ensures header { result.header ≡ header }
        ensures gathered { result.gathered ≡ gathered }
    {
        Reader {
            alloc,
            header,
            shared: 0,
            started: false,
            line: 1,
            phase: 0,
            names: Names::new(alloc),
            samples: Samples::new(),
            counts: Counts::new(&header.profile),
            gathered,
        }
    }

    /// The version of the text.
    pub(crate) fn version(&self) -> u8
        ensures { result ≡ self.now.header.version }
    {
        self.header.version
    }

    /// Whether the thread is one of the region's.
    #[inline(always)]
    fn has_thread(&self, thread: u64) -> bool
        ensures { result ≡ is_thread self.now.header.profile thread }
    {
        thread >= 1 && thread <= self.header.profile.threads as u64
    }

    /// The checks of every operation.
    #[inline(always)]
    fn check_counts(&self, cost: u32) -> Result<u32, Reason>
        ensures { IsChecked (first_failed (few_told self.now cost)) cost result }
    {
        if self.counts.operations >= MOST_OPERATIONS {
            return Err(Reason::TooManyOps);
        }
        if self.counts.bound as u64 + cost as u64 > MOST_RECORDS as u64 {
            return Err(Reason::TraceTooLarge);
        }
        Ok(cost)
    }

    /// The checks of an operation of a thread that has no others.
    #[inline(always)]
    fn check_thread(&self, thread: u64, cost: u32) -> Result<u32, Reason>
        ensures { IsChecked (first_failed (thread_told self.now thread cost)) cost result }
    {
        if !self.has_thread(thread) {
            return Err(Reason::BadThread);
        }
        self.check_counts(cost)
    }

    /// The checks of a size and an alignment.
    #[inline(always)]
    fn check_sizing(&self, size: u64, align: u64) -> Result<(), Reason>
        requires { IsValid self.now.header.profile }
        ensures { AreTested (sizing_told self.now size align) result }
    {
        if size > PAGE_BYTES as u64 * self.header.profile.pages as u64 {
            return Err(Reason::BadSize);
        }
        if !is_aligning(align) {
            return Err(Reason::BadAlign);
        }
        Ok(())
    }

    /// The checks of a request.
    #[inline(always)]
    fn check_request(&self, thread: u64, request: Request) -> Result<u32, Reason>
        requires { IsValid self.now.header.profile }
        ensures { IsChecked (reason_told self.now thread (asking request)) (cost_of_request self.now.samples.guard request.size) result }
    {
        if !self.has_thread(thread) {
            return Err(Reason::BadThread);
        }
        if request.heap >= self.header.profile.heaps as u64 {
            return Err(Reason::BadHeap);
        }
        self.check_sizing(request.size, request.align)?;
        if self.names.owner(request.name).thread != 0 {
            return Err(Reason::NameTaken);
        }
        self.check_counts(cost_of_request(self.samples.guard, request.size as u32))
    }

    /// The checks of a trace name that is freed. Another thread than the one that allocated waits for a later phase.
    #[inline(always)]
    fn check_freed(&self, thread: u64, name: u32) -> Result<(), Reason>
        ensures { AreTested (freed_told self.now thread name) result }
    {
        let owner = self.names.owner(name);
        if owner.thread == 0 {
            return Err(Reason::NameUnknown);
        }
        if thread != owner.thread as u64 && owner.phase == self.phase {
            return Err(Reason::TooEarly);
        }
        Ok(())
    }

    /// The checks of a free by trace name.
    #[inline(always)]
    fn check_free(&self, thread: u64, name: u32) -> Result<u32, Reason>
        ensures { IsChecked (reason_told self.now thread (Wish.Frees name)) 1 result }
    {
        if !self.has_thread(thread) {
            return Err(Reason::BadThread);
        }
        self.check_freed(thread, name)?;
        self.check_counts(1)
    }

    /// .. that names a size and an alignment.
    fn check_sized_free(&self, thread: u64, name: u32, size: u64, align: u64) -> Result<u32, Reason>
        requires { IsValid self.now.header.profile }
        ensures { IsChecked (reason_told self.now thread (Wish.FreesSized name size align)) 1 result }
    {
        if !self.has_thread(thread) {
            return Err(Reason::BadThread);
        }
        self.check_sizing(size, align)?;
        self.check_freed(thread, name)?;
        self.check_counts(1)
    }

    /// The checks of a free by address and turn that names a size and an alignment.
    fn check_sized_raw(&self, thread: u64, size: u64, align: u64) -> Result<u32, Reason>
        requires { IsValid self.now.header.profile }
        ensures { (address turn : ℕ) → IsChecked (reason_told self.now thread (Wish.FreesRawSized address turn size align)) 1 result }
    {
        if !self.has_thread(thread) {
            return Err(Reason::BadThread);
        }
        self.check_sizing(size, align)?;
        self.check_counts(1)
    }

    /// The checks of a reallocation.
    #[inline(never)]
    fn check_remake(
        &self,
        thread: u64,
        name: u32,
        old: u32,
        size: u64,
        align: u64,
    ) -> Result<u32, Reason>
        requires { IsValid self.now.header.profile }
        ensures { IsChecked (reason_told self.now thread (Wish.Remakes name old size align)) (cost_of_request self.now.samples.guard size + 1) result }
    {
        if !self.has_thread(thread) {
            return Err(Reason::BadThread);
        }
        self.check_sizing(size, align)?;
        if self.names.owner(name).thread != 0 {
            return Err(Reason::NameTaken);
        }
        self.check_freed(thread, old)?;
        self.check_counts(cost_of_request(self.samples.guard, size as u32) + 1)
    }

    /// The cost of an operation of a thread that passes its checks, or the first reason that applies.
    #[inline(always)]
    fn check_wish(&self, thread: u64, wish: Wish) -> Result<u32, Reason>
        requires { IsValid self.now.header.profile }
        ensures { IsChecked (reason_told self.now thread wish) (cost_of_wish self.now.samples.guard wish) result }
    {
        match wish {
            Wish::Asks {
                name,
                heap,
                size,
                align,
            } => {
                let request = Request {
                    name,
                    heap,
                    size,
                    align,
                };
                self.check_request(thread, request)
            }
            Wish::Frees { name } => self.check_free(thread, name),
            Wish::FreesSized { name, size, align } => {
                self.check_sized_free(thread, name, size, align)
            }
            Wish::FreesRaw { .. } => self.check_thread(thread, 1),
            Wish::FreesRawSized { size, align, .. } => { self.check_sized_raw(thread, size, align) }
            Wish::Remakes {
                name,
                old,
                size,
                align,
            } => self.check_remake(thread, name, old, size, align),
            Wish::Flushes => self.check_thread(thread, 0),
            Wish::Stops => self.check_thread(thread, 0),
        }
    }

    /// The same of an operation of the scavenger.
    #[inline(always)]
    fn check_chore(&self, chore: Chore) -> Result<u32, Reason>
        requires { IsValid self.now.header.profile }
        ensures { IsChecked (first_failed (few_told self.now (records_of_chore self.now.header.profile chore))) (records_of_chore self.now.header.profile chore) result }
    {
        match chore {
            Chore::Tick(_) => self.check_counts(1),
            Chore::Pass => self.check_counts(1 + self.header.profile.pages),
            Chore::Idle(_) => self.check_counts(self.header.profile.threads as u32),
        }
    }

    /// The checks of a `guard` line.
    #[inline(never)]
    fn check_guard(&self, number: Option<u64>) -> Result<u32, Reason>
        ensures { IsChecked (first_failed (guard_checks self.now.header.profile self.now.started self.now.samples.guard number)) 0 result }
    {
        if self.started {
            return Err(Reason::BadWord);
        }
        if self.samples.guard != 0 {
            return Err(Reason::BadWord);
        }
        if !is_guard_number(number) {
            return Err(Reason::BadNumber);
        }
        if self.header.profile.threads > MOST_GUARDED {
            return Err(Reason::BadThread);
        }
        Ok(0)
    }

    /// The cost of an item that passes its checks, or the first reason that applies.
    #[inline(always)]
    fn check(&self, item: Item) -> Result<u32, Reason>
        requires { IsValid self.now.header.profile }
        ensures { IsChecked (first_failed (told_checks self.now item)) (cost_of self.now.header.profile self.now.samples.guard item) result }
    {
        match item {
            Item::Blank => Ok(0),
            Item::NextPhase => Ok(0),
            Item::Shares(heap) => {
                if heap < self.header.profile.heaps as u64 {
                    Ok(0)
                } else {
                    Err(Reason::BadHeap)
                }
            }
            Item::Guards(number) => self.check_guard(number),
            Item::Operates { thread, wish } => self.check_wish(thread, wish),
            Item::Scavenges(chore) => self.check_chore(chore),
        }
    }

    /// Counts an operation of the line and adds it to the phase.
    #[inline(always)]
    fn count(&mut self, actor: u8, what: What, cost: u32) -> Result<(), AllocError>
        requires { IsReady self.old.counts actor cost }
        ensures { OnOk result (IsCounted self.old self.new actor what cost) }
    {
        self.started = true;
        self.counts.add(actor, cost);
        let line = self.line;
        self.gathered.add(Op { line, actor, what })
    }

    /// The same, out of line: with a copy of it for each kind of operation `add` would be too large to stand in line itself.
    #[inline(never)]
    fn count_rare(&mut self, actor: u8, what: What, cost: u32) -> Result<(), AllocError>
        requires { IsReady self.old.counts actor cost }
        ensures { OnOk result (IsCounted self.old self.new actor what cost) }
    {
        self.count(actor, what, cost)
    }

    /// Adds an operation of the thread, and gives it the name that the operation makes.
    #[inline(always)]
    fn operate(&mut self, thread: u8, wish: Wish, cost: u32) -> Result<(), AllocError>
        requires ready { IsReady self.old.counts thread cost }
        requires can { CanSample self.old.samples thread }
        requires valid { IsValid self.old.header.profile }
        requires fits { IsFit self.old.header.profile wish }
        ensures { OnOk result (IsOperated self.old self.new thread wish cost) }
    {
        match wish {
            Wish::Asks {
                name,
                heap,
                size,
                align,
            } => {
                let phase = self.phase;
                let owner = Owner {
                    thread,
                    heap: heap as u8,
                    phase,
                };
                self.names.give(name, owner)?;
                let guarded = self.samples.sample(thread, size as u32);
                let keeper = self.header.profile.threads + thread;
                let what = request_kept(
                    guarded,
                    keeper,
                    name,
                    heap as u8,
                    size as u32,
                    align as u32,
                );
                self.count(thread, what, cost)
            }
            Wish::Frees { name } => self.count(thread, What::Free { name }, cost),
            Wish::FreesSized { name, size, align } => {
                let room = self.header.profile.room_for(size as u32, align as u32);
                self.count(thread, What::FreeSized { name, room }, cost)
            }
            Wish::FreesRaw { address, turn } => {
                let address = Address(address);
                let block = Name { address, turn };
                self.count_rare(thread, What::Raw { block }, cost)
            }
            Wish::FreesRawSized {
                address,
                turn,
                size,
                align,
            } => {
                let room = self.header.profile.room_for(size as u32, align as u32);
                let address = Address(address);
                let block = Name { address, turn };
                self.count_rare(thread, What::RawSized { block, room }, cost)
            }
            Wish::Remakes {
                name,
                old,
                size,
                align,
            } => {
                let phase = self.phase;
                let heap = self.names.owner(old).heap;
                let owner = Owner {
                    thread,
                    heap,
                    phase,
                };
                self.names.give(name, owner)?;
                let what = What::Remake {
                    name,
                    old,
                    heap,
                    size: size as u32,
                    align: align as u32,
                };
                self.count_rare(thread, what, cost)
            }
            Wish::Flushes => self.count_rare(thread, What::Flush, cost),
            Wish::Stops => self.count_rare(thread, What::Stop, cost),
        }
    }

    /// Begins the next phase.
    fn next_phase(&mut self) -> Result<(), AllocError>
        requires { self.old.phase < 2 ^ 25 }
        ensures { OnOk result (IsNextPhase self.old self.new) }
    {
        self.started = true;
        self.phase += 1;
        let alloc = self.alloc;
        self.gathered.next_phase(alloc)
    }

    /// From now on of each thread's requests for whole pages one in so many is guarded.
    #[inline(never)]
    fn begin_guarding(&mut self, number: Option<u64>)
        requires header { IsValid self.old.header.profile }
        requires small { self.old.counts.bound ≤ 2000000 }
        requires number { is_guard_number number ≡ true }
        ensures { IsGuarding self.old self.new number }
    {
        let Some(every) = number else {
            unreachable!();
        };
        self.samples.guard = every as u32;
        self.counts.add_keepers(&self.header.profile);
    }

    /// Adds an item that passed its checks.
    #[inline(always)]
    fn add(&mut self, item: Item, cost: u32) -> Result<(), AllocError>
        requires tells { (items : List Item) × Tells self.old items × (reason_of self.old.header.profile items item ≡ None) }
        requires cost { cost ≡ cost_of self.old.header.profile self.old.samples.guard item }
        requires line { self.old.line < 2 ^ 25 }
        ensures { OnOk result (IsAdded self.old self.new item) }
    {
        self.line += 1;
        match item {
            Item::Blank => Ok(()),
            Item::NextPhase => self.next_phase(),
            Item::Shares(heap) => {
                self.shared |= 1u32 << heap;
                Ok(())
            }
            Item::Guards(number) => {
                self.begin_guarding(number);
                Ok(())
            }
            Item::Operates { thread, wish } => self.operate(thread as u8, wish, cost),
            Item::Scavenges(chore) => self.count_rare(0, chore.what(), cost),
        }
    }

    /// The fault of the next line.
    #[cold]
    fn fault(&self, reason: Reason) -> ReadFault
        requires { self.now.line < 2 ^ 25 }
        ensures { result ≡ ReadFault.Trace (fault_at (self.now.line + 1) reason) }
    {
        ReadFault::Trace(TraceFault {
            line: self.line + 1,
            reason,
        })
    }

    /// Takes what a line says.
    #[inline(always)]
    fn take_item(&mut self, item: Item) -> Result<(), ReadFault>
        requires tells { (items : List Item) × Tells self.old items }
        requires line { self.old.line < 2 ^ 25 }
        ensures { (items : List Item) (line : List ℕ) → Tells self.old items → item_of_line self.old.header.version self.old.started line ≡ Ok item → IsTaken self.old items line self.new result }
    {
        match self.check(item) {
            Ok(cost) => match self.add(item, cost) {
                Ok(()) => Ok(()),
                Err(AllocError) => Err(ReadFault::NoMemory),
            },
            Err(reason) => Err(self.fault(reason)),
        }
    }

    /// Reads a line of whatever kind.
    #[inline(never)]
    fn take(&mut self, line: &[u8]) -> Result<(), ReadFault>
        requires tells { (items : List Item) × Tells self.old items }
        requires line { self.old.line < 2 ^ 25 }
        ensures { (items : List Item) → Tells self.old items → IsTaken self.old items line.now self.new result }
    {
        match read_item(self.header.version, self.started, line) {
            Ok(item) => self.take_item(item),
            Err(reason) => Err(self.fault(reason)),
        }
    }

    /// Reads the first line of a text, and answers the text after it, or None where the text has no line. Lines of the two
    /// commonest kinds are read in one pass over their bytes, and each is taken where its kind is known, so that the code
    /// that checks it asks for the kind no more.
    #[inline(always)]
    fn read_line<'a>(&mut self, text: &'a [u8]) -> Result<Option<&'a [u8]>, ReadFault>
        requires tells { (items : List Item) × Tells self.old items }
        requires line { self.old.line < 2 ^ 25 }
        ensures { (items : List Item) → Tells self.old items → MatchResult result (λ o. MatchOption o ((lines_of text.now ≡ []) × (self.new ≡ self.old)) (λ rest. IsFirstTaken self.old items text.now rest.now self.new (Ok tt))) (λ fault. (rest : List ℕ) × IsFirstTaken self.old items text.now rest self.new (Err fault)) }
    {
        if let Some((item, rest)) = allocation_line(text) {
            self.take_item(item)?;
            return Ok(Some(rest));
        }
        if let Some((item, rest)) = free_line(text) {
            self.take_item(item)?;
            return Ok(Some(rest));
        }
        let Some((line, rest)) = next_line(text) else {
            return Ok(None);
        };
        self.take(line)?;
        Ok(Some(rest))
    }

    /// Reads the lines of a text.
    #[inline(never)]
    pub(crate) fn read_lines(&mut self, text: &[u8]) -> Result<(), ReadFault>
        requires tells { (items : List Item) × Tells self.old items }
        requires size { self.old.line + length text.now ≤ 2 ^ 24 + 1 }
        ensures read { (items : List Item) → Tells self.old items → IsRead self.old items text.now self.new result }
        ensures few { OnOk result (self.new.line ≤ self.old.line + length text.now) }
    {
        let mut rest = text;
        while let Some(after) = self.read_line(rest)? {
            rest = after;
        }
        Ok(())
    }

    /// The same, out of line.
    #[inline(never)]
    fn take_rare(&mut self, item: Item) -> Result<(), ReadFault>
        requires tells { (items : List Item) × Tells self.old items }
        requires line { self.old.line < 2 ^ 25 }
        ensures { (items : List Item) (line : List ℕ) → Tells self.old items → item_of_line self.old.header.version self.old.started line ≡ Ok item → IsTaken self.old items line self.new result }
    {
        self.take_item(item)
    }

    /// Takes what a line says. The two commonest kinds have code of their own, which no longer asks for the kind.
    #[inline(always)]
    fn take_by_kind(&mut self, item: &Item) -> Result<(), ReadFault>
        requires tells { (items : List Item) × Tells self.old items }
        requires line { self.old.line < 2 ^ 25 }
        ensures { (items : List Item) (line : List ℕ) → Tells self.old items → item_of_line self.old.header.version self.old.started line ≡ Ok item.now → IsTaken self.old items line self.new result }
    {
        match *item {
            Item::Operates {
                thread,
                wish: Wish::Asks {
                    name,
                    heap,
                    size,
                    align,
                },
            } => {
                let wish = Wish::Asks {
                    name,
                    heap,
                    size,
                    align,
                };
                self.take_item(Item::Operates { thread, wish })
            }
            Item::Operates {
                thread,
                wish: Wish::Frees { name },
            } => {
                let wish = Wish::Frees { name };
                self.take_item(Item::Operates { thread, wish })
            }
            _ => self.take_rare(*item),
        }
    }

    /// Takes what lines say, one after another.
    #[inline(never)]
    fn take_items(&mut self, items: &[Item]) -> Result<(), ReadFault>
        requires tells { (told : List Item) × Tells self.old told }
        requires said { (lines : List (List ℕ)) × Say self.old.header.version lines items.now }
        requires size { self.old.line + length items.now ≤ 2 ^ 24 + 1 }
        ensures taken { (told : List Item) (lines : List (List ℕ)) → Tells self.old told → Say self.old.header.version lines items.now → AreTaken self.old told lines self.new result }
        ensures few { OnOk result (self.new.line ≤ self.old.line + length items.now) }
    {
        for item in items {
            self.take_by_kind(item)?;
        }
        Ok(())
    }

    /// Takes what the lines of a text say, and then reads the text that is left of it.
    pub(crate) fn take_lexed(&mut self, items: &[Item], left: &[u8]) -> Result<(), ReadFault>
        requires tells { (told : List Item) × Tells self.old told }
        requires lexed { (text : List ℕ) × AreLexed self.old.header.version text items.now left.now × (self.old.line + length text ≤ 2 ^ 24 + 1) }
        ensures read { (told : List Item) (text : List ℕ) → Tells self.old told → AreLexed self.old.header.version text items.now left.now → IsRead self.old told text self.new result }
        ensures few { OnOk result ((text : List ℕ) → AreLexed self.old.header.version text items.now left.now → self.new.line ≤ self.old.line + length text) }
    {
        self.take_items(items)?;
        self.read_lines(left)
    }

    /// Adds the bounds of the keepers to those of the scavenger and the threads: a deed for each page, and what a keeper may make for its thread.
    fn add_keeper_bounds(&self, bounds: &mut Vec<u32>) -> Result<(), AllocError>
        requires tells { (items : List Item) × Tells self.now items }
        requires threads { (items : List Item) → Tells self.now items → bounds.old.items ≡ bounds_upto self.now.header.profile items (self.now.header.profile.threads + 1) }
        ensures { OnOk result ((items : List Item) → Tells self.now items → bounds.new.items ≡ all_bounds self.now.header.profile items) }
    {
        if self.samples.guard == 0 {
            return Ok(());
        }
        for thread in 1..self.header.profile.threads as usize + 1 {
            bounds.push(self.header.profile.pages + self.samples.kept[thread])?;
        }
        Ok(())
    }

    /// The bounds of the actors: for a thread a deed for each page and its costs, for the scavenger its costs, and then those of the keepers.
    fn bounds(&self) -> Result<Bounds, AllocError>
        requires { (items : List Item) × Tells self.now items }
        ensures { IfOk result (λ bounds. (items : List Item) → Tells self.now items → bounds_of bounds ≡ all_bounds self.now.header.profile items) }
    {
        let mut bounds = Vec::new(self.alloc);
        bounds.push(self.counts.costs[0])?;
        for thread in 1..self.header.profile.threads as usize + 1 {
            bounds.push(self.header.profile.pages + self.counts.costs[thread])?;
        }
        self.add_keeper_bounds(&mut bounds)?;
        Ok(Bounds { bounds })
    }

    /// What a plan of the lines has beside its phases, and what was gathered of these.
    fn finish(self) -> Result<(Outline, Gathered), AllocError>
        requires { (items : List Item) × Tells self items }
        ensures outline { IfOk result (λ p. (items : List Item) → Tells self items → IsOutlined self.header items p.0) }
        ensures gathered { IfOk result (λ p. p.1 ≡ self.gathered) }
    {
        let bounds = self.bounds()?;
        let names_limit = self.names.limit();
        let Reader {
            header,
            shared,
            samples,
            counts,
            gathered,
            ..
        } = self;
        let Header { version, profile } = header;
        let outline = Outline {
            version,
            profile: Profile { shared, ..profile },
            guard: samples.guard,
            bounds,
            total: counts.bound,
            names_limit,
        };
        Ok((outline, gathered))
    }

    /// The plan of the lines.
    fn finish_plan(self) -> Result<Plan, AllocError>
        requires tells { (items : List Item) × Tells self items }
        requires gathers { is_scripting self.gathered ≡ false }
        ensures { IfOk result (λ plan. (items : List Item) → Tells self items → IsPlanned self.header items plan) }
    {
        let (outline, gathered) = self.finish()?;
        let Gathered::Whole(whole) = gathered else {
            unreachable!();
        };
        Ok(outline.plan(whole.finish()?))
    }

    /// The script of the lines.
    fn finish_script(self) -> Result<Script, AllocError>
        requires tells { (items : List Item) × Tells self items }
        requires gathers { is_scripting self.gathered ≡ true }
        ensures { IfOk result (λ script. (items : List Item) → Tells self items → IsScripted self.header items script) }
    {
        let (outline, gathered) = self.finish()?;
        let Gathered::Coded(coded) = gathered else {
            unreachable!();
        };
        Ok(outline.script(coded.finish()?))
    }

    /// The plan of the lines, or that memory was wanting.
    pub(crate) fn planned(self) -> Result<Plan, ReadFault>
        requires tells { (items : List Item) × Tells self items }
        requires gathers { is_scripting self.gathered ≡ false }
        ensures { MatchResult result (λ plan. (items : List Item) → Tells self items → IsPlanned self.header items plan) (λ fault. fault ≡ ReadFault.NoMemory) }
    {
        match self.finish_plan() {
            Ok(plan) => Ok(plan),
            Err(AllocError) => Err(ReadFault::NoMemory),
        }
    }

    /// .. and their script
    pub(crate) fn scripted(self) -> Result<Script, ReadFault>
        requires tells { (items : List Item) × Tells self items }
        requires gathers { is_scripting self.gathered ≡ true }
        ensures { MatchResult result (λ script. (items : List Item) → Tells self items → IsScripted self.header items script) (λ fault. fault ≡ ReadFault.NoMemory) }
    {
        match self.finish_script() {
            Ok(script) => Ok(script),
            Err(AllocError) => Err(ReadFault::NoMemory),
        }
    }
}

/// Whether a `guard` line may have the number, from 1 to 1,000,000.
fn is_guard_number(number: Option<u64>) -> bool
    ensures { result ≡ is_guard_number number }
{
    match number {
        Some(every) => every >= 1 && every <= MOST_SAMPLED,
        None => false,
    }
}

/// The fault of a text whose first line is no header.
const NO_HEADER: ReadFault = ReadFault::Trace(TraceFault {
    line: 1,
    reason: Reason::BadHeader,
});

/// A reader that has read the header of a text and gathers for what is given, a plan or a script, and the text after the first line. BadHeader where
/// that line is no header.
pub(crate) fn begun(
    alloc: Global,
    text: &[u8],
    gathered: Gathered,
) -> Result<(Reader, &[u8]), ReadFault>
    requires { HasGathered ([] ∷ []) gathered }
    ensures { MatchResult result (λ p. IsBegun (is_scripting gathered) text.now p.0 p.1.now) (λ fault. IsReading text.now (Err fault)) }
{
    let Some((line, rest)) = next_line(text) else {
        return Err(NO_HEADER);
    };
    let Some(header) = read_header(line) else {
        return Err(NO_HEADER);
    };
    Ok((Reader::new(alloc, header, gathered), rest))
}

/// The plan of a text of at most 16 MiB, or the fault of its lowest faulty line. NoMemory only where an allocation fails.
/// One pass over the bytes, in linear time.
pub fn read_trace(alloc: Global, text: &[u8]) -> Result<Plan, ReadFault>
    requires { length text.now ≤ 16777216 }
    ensures { IsReading text.now result }
{
    let (mut reader, rest) = begun(alloc, text, Gathered::for_plan(alloc))?;
    reader.read_lines(rest)?;
    reader.planned()
}

/// The script of a text of at most 16 MiB, with the faults of `read_trace`. One pass over the bytes, in linear time.
pub fn read_script(alloc: Global, text: &[u8]) -> Result<Script, ReadFault>
    requires { length text.now ≤ 16777216 }
    ensures { IsScripting text.now result }
{
    let (mut reader, rest) = begun(alloc, text, Gathered::for_script(alloc))?;
    reader.read_lines(rest)?;
    reader.scripted()
}

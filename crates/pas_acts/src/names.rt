//! What the names of a trace stand for in a phase: kept once, for all threads, but for each thread's own requests.
ghost use Rattle.std.specs.Prelude.{◌≡◌, ◌<◌, ◌^◌, vec_len};
ghost use Rattle.pas_answers.specs.Names.{names_held};

use pas_answers::names::{Meaning, Names};
use pas_profile::{Block, NoMemory, Room};
use pas_trace::{Op, What};
use std::alloc::Global;

/// A request of a thread: its name, and what it came to. 16 bytes.
#[derive(Clone, Copy, Drop)]
pub struct Request {
    name: u32,
    meaning: Meaning,
}

/// A thread's own requests of a phase, in order. There is room for a fixed number, so that adding one takes no memory.
pub type Requests = Room<Request>;

/// What the names stood for when the phase began, and for each name that is asked for in the phase its place among those that its thread asks for in
/// it. All threads of a phase share it. 16 bytes a name.
#[derive(Drop)]
pub struct NameBook {
    names: Names,
    places: Vec<u32>,
    ghost whole: { vec_len places ≡ names_held names },
}

/// How many names each actor asked for so far in a phase.
#[derive(Drop)]
struct Counts {
    of: [u32; 256],
}

impl Counts {
    ghost use Rattle.std.specs.Prelude.{◌≡◌, ◌+◌, ◌<◌, ◌^◌, ◌==◌, ℕ, if◌then◌else◌, slice_index_or};

    fn new() -> Counts
        ensures { (k : ℕ) → slice_index_or result.of k 0 ≡ 0 }
    {
        Counts { of: [0; 256] }
    }

    /// Counts one more of this actor; how many there were before.
    fn add(&mut self, actor: u8) -> u32
        requires { slice_index_or self.old.of actor 0 + 1 < 2 ^ 32 }
        ensures before { result ≡ slice_index_or self.old.of actor 0 }
        ensures one { (k : ℕ) → slice_index_or self.new.of k 0 ≡ (if actor == k then result + 1 else slice_index_or self.old.of k 0) }
    {
        let count = self.of[actor as usize];
        self.of[actor as usize] = count + 1;
        count
    }
}

impl Request {
    ghost use Rattle.std.specs.Prelude.{◌≡◌, map};
    ghost use Rattle.pas_answers.specs.{Answers.named, Names.MayPack};
    ghost use Rattle.pas_acts.specs.NameBooks.{named_of, request_at};

    /// The request of this name, which came to this block.
    #[inline]
    pub fn of(name: u32, block: Option<Block>) -> Request
        requires { MayPack block }
        ensures { named_of result ≡ named name block }
    {
        Request {
            name,
            meaning: Meaning::of(block),
        }
    }

    /// What the request at this place came to, where it has the name.
    #[inline]
    fn at(requests: &[Request], place: usize, name: u32) -> Option<Option<Block>>
        ensures { result ≡ request_at (map named_of requests.now) place name }
    {
        if place < requests.len() {
            let request = requests[place];
            if request.name == name {
                Some(request.meaning.block())
            } else {
                None
            }
        } else {
            None
        }
    }
}

impl NameBook {
    ghost use Rattle.std.specs.Prelude.{◌≡◌, ◌<◌, ◌^◌, ◌==◌, ℕ, List, [], ◌∷◌, None, if◌then◌else◌, IfOk, MatchOption, length};
    ghost use Rattle.pas_profile.specs.declared.profile.Profile.{Profile as TheProfile};
    ghost use Rattle.pas_trace.specs.{EveryPlan.AreSound, Acts.own_acts};
    ghost use Rattle.pas_answers.specs.{Fit.AreBelow, Names.{block_in, block_named, names_held}};
    ghost use Rattle.pas_acts.specs.NameBooks.{requests_in, room_for, names_of, name_asked, names_asked, place_in, ArePlaced, AreWithin, known_in};

    /// No name stands for a block. There is room for the names below the limit.
    pub fn try_new(alloc: Global, limit: usize) -> Result<NameBook, NoMemory>
        ensures empty { IfOk result (λ book. (name : ℕ) → block_named book.names name ≡ None) }
        ensures room { IfOk result (λ book. names_held book.names ≡ limit) }
    {
        let Ok(names) = Names::try_new(alloc, limit) else {
            return Err(NoMemory);
        };
        match vec![in alloc; 0; limit] {
            Ok(places) => Ok(NameBook { names, places }),
            Err(_) => Err(NoMemory),
        }
    }

    /// The number below which names have room.
    pub fn room(&self) -> usize
        ensures { result ≡ names_held self.now.names }
    {
        self.places.len()
    }

    /// The place of a name that is asked for in the phase; of another any number.
    #[inline]
    fn place(&self, name: u32) -> u32
        ensures { result ≡ place_in self.now name }
    {
        match self.places.get(name as usize) {
            Some(place) => *place,
            None => 0,
        }
    }

    /// The name has this place from now on.
    fn set_place(&mut self, name: u32, place: u32)
        requires { name < names_held self.old.names }
        ensures place { (n : ℕ) → place_in self.new n ≡ (if name == n then place else place_in self.old n) }
        ensures names { self.new.names ≡ self.old.names }
    {
        self.places[name as usize] = place;
    }

    /// The name stands for this from now on.
    fn set_name(&mut self, name: u32, meaning: Meaning)
        requires { name < names_held self.old.names }
        ensures block { (n : ℕ) → block_named self.new.names n ≡ (if name == n then block_in meaning else block_named self.old.names n) }
        ensures room { names_held self.new.names ≡ names_held self.old.names }
    {
        self.names.set_meaning(name, meaning);
    }

    /// The name that an operation asks for, if any.
    #[inline(always)]
    fn asked_name(op: Op) -> Option<u32>
        ensures { MatchOption result (name_asked op.what ≡ []) (λ name. name_asked op.what ≡ name ∷ []) }
    {
        match op.what {
            What::Alloc { name, .. } => Some(name),
            What::Guarded { name, .. } => Some(name),
            What::Remake { name, .. } => Some(name),
            _ => None,
        }
    }

    /// Notes the places of the names that are asked for in a phase of these operations. One look at each operation.
    pub fn note(&mut self, ops: &[Op])
        requires few { length ops.now < 2 ^ 32 }
        requires below { AreBelow (names_held self.old.names) ops.now }
        requires sound { (f : TheProfile) × (asked : List ℕ) × AreSound f asked ops.now }
        ensures placed { (k : ℕ) → ArePlaced self.new 0 (names_asked (own_acts k ops.now)) }
        ensures names { self.new.names ≡ self.old.names }
    {
        let mut counts = Counts::new();
        for op in ops {
            match NameBook::asked_name(*op) {
                Some(name) => {
                    let place = counts.add(op.actor);
                    self.set_place(name, place);
                }
                None => {}
            }
        }
    }

    /// Takes the requests of a thread over, after the phase: each name stands for what its request came to. There are no requests then.
    #[tactic(auto, using(crate::proofs::Noting::within_at, crate::proofs::Noting::over_next))]
    pub fn take(&mut self, requests: &mut Requests)
        requires within { AreWithin (names_held self.old.names) (names_of (requests_in requests.old)) }
        ensures names { (n : ℕ) → block_named self.new.names n ≡ known_in self.old requests.old n }
        ensures room { names_held self.new.names ≡ names_held self.old.names }
        ensures empty { requests_in requests.new ≡ [] }
        ensures bound { room_for requests.new ≡ room_for requests.old }
    {
        let made = requests.as_slice();
        let count = made.len();
        for done in 0..count {
            let Request { name, meaning } = made[count - 1 - done];
            self.set_name(name, meaning);
        }
        requests.clear();
    }

    /// What the name stands for to the thread with these requests: what its own request came to, or what the book says. Takes one look at its place.
    #[inline]
    #[tactic(auto, using(crate::proofs::Noting::at_place))]
    pub fn meaning(&self, requests: &Requests, name: u32) -> Option<Block>
        requires { ArePlaced self.now 0 (names_of (requests_in requests.now)) }
        ensures { result ≡ known_in self.now requests.now name }
    {
        match Request::at(requests.as_slice(), self.place(name) as usize, name) {
            Some(block) => block,
            None => self.names.get(name),
        }
    }
}

//! Requests and frees of one actor.
ghost use Rattle.std.specs.Prelude.{◌+◌, ◌≤◌};
ghost use Rattle.pas_steps.specs.{Clear.HasNothing, Desks.CanCall};

use pas_bestfit::alloc;
use pas_free_log::{end_one, may_end};
use pas_profile::limits::GRAIN_BYTES;
use pas_profile::{Block, Name, NoRoom};
use pas_steps::Desk;
use std::io;

/// How many requests are made.
const REQUESTS: u32 = 1000;

/// How many blocks live at most.
const SLOTS: usize = 64;

/// For how many events there has to be room: three for each request, and one for the free before it.
pub const EVENTS: u32 = 4 * REQUESTS;

/// The next number of a row that repeats after 2^32 of them.
fn next(number: u32) -> u32 {
    number.wrapping_mul(1_664_525).wrapping_add(1_013_904_223)
}

/// Asks for a block of so many grains of heap 0, at most 256. At most three events.
fn request<D: Desk>(desk: &mut D, grains: u32) -> Result<Block, NoRoom>
    requires grains { grains ≤ 256 }
    requires can { CanCall (D.standing desk.old) HasNothing }
    requires room { 3 ≤ D.spare_of desk.old }
    ensures can { CanCall (D.standing desk.new) HasNothing }
    ensures room { D.spare_of desk.old ≤ D.spare_of desk.new + 3 }
{
    alloc(desk, 0, grains * GRAIN_BYTES)
}

/// Ends the block of this name, where there may be one. At most one event.
fn free<D: Desk>(desk: &mut D, name: Name)
    requires can { CanCall (D.standing desk.old) HasNothing }
    requires room { 1 ≤ D.spare_of desk.old }
    ensures can { CanCall (D.standing desk.new) HasNothing }
    ensures room { D.spare_of desk.old ≤ D.spare_of desk.new + 1 }
{
    if may_end(desk.profile(), name) {
        end_one(desk, name);
    }
}

/// Makes the requests, each for 1 to 64 grains, and prints what came of them. At most four events for each.
pub fn churn<R: Print, D: Desk>(rt: &R, desk: &mut D) -> io::Result<()>
    requires can { CanCall (D.standing desk.old) HasNothing }
    requires room { 4000 ≤ D.spare_of desk.old }
{
    let mut held: [Option<Name>; SLOTS] = [None; SLOTS];
    let mut seed = 1u32;
    for done in 0..REQUESTS {
        seed = next(seed);
        let slot = (seed >> 16) as usize % SLOTS;
        if let Some(name) = held[slot] {
            free(desk, name);
            held[slot] = None;
            println!(rt; "free {}", name.address.0)?;
        }
        let grains = 1 + (seed >> 24) % 64;
        match request(desk, grains) {
            Ok(block) => {
                held[slot] = Some(block.name);
                println!(rt; "give {grains} {}", block.name.address.0)?;
            }
            Err(_) => println!(rt; "none {grains}")?,
        }
    }
    Ok(())
}

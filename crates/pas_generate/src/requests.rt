//! Random requests.
ghost use Rattle.std.specs.Prelude.{◌≡◌, ◌*◌, ◌^◌};
ghost use Rattle.pas_generate.specs.{Draws.{drawn, moved}, Requests.{after_request, request_from}};

use crate::draws::Draws;
use crate::operation::Request;

/// Draws a request: of sixteen, thirteen have a class, two are of at most a bit-fit size, and one is larger.
pub(crate) fn draw_request(draws: &mut Draws) -> Request
    ensures request { result ≡ request_from draws.old.state }
    ensures state { draws.new.state ≡ after_request draws.old.state }
{
    let heap = draws.draw(6) as u8;
    match draws.draw(16) {
        0 => Request {
            heap,
            size: 2049 + draws.draw(6144) as u16,
            align: 16,
        },
        1 | 2 => Request {
            heap,
            size: 513 + draws.draw(1536) as u16,
            align: 16,
        },
        _ => Request {
            heap,
            size: draws.draw(513) as u16,
            align: draw_align(draws),
        },
    }
}

/// Draws an alignment: 16, 32 or 64.
fn draw_align(draws: &mut Draws) -> u8
    ensures align { result ≡ 16 * 2 ^ drawn (moved draws.old.state) 3 }
    ensures state { draws.new.state ≡ moved draws.old.state }
{
    16 << draws.draw(3)
}

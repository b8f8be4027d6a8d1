//! A seat with its round.
ghost use Rattle.std.specs.Prelude.{◌≡◌, map};
ghost use Rattle.eco_workers.specs.Rounds.{drawn, is_dry as is_dry_seat, IsSeatOf};
ghost use Rattle.eco_stages.specs.Taking.{fresh};

use crate::round::Round;
use crate::seat::Seat;
use eco_ids::{Entity, Refusal};
use eco_stages::Draws;
use eco_tickets::Ticket;

// A seat with its round: where a worker draws.
pub(crate) struct Drawer<'a> {
    pub(crate) round: &'a Round,
    pub(crate) seat: Seat,
    ghost own: { IsSeatOf round.now seat },
}

impl Draws for Drawer<'_> {
    type Rest = (Round, Ticket);

    ghost so_far = { λ d. map fresh (drawn d.seat) };

    ghost is_dry = { λ d. is_dry_seat d.seat };

    ghost rest = { λ d. (d.round.now, d.seat.claim) };

    fn draw(&mut self) -> Result<Entity, Refusal> {
        self.round.draw(&mut self.seat)
    }
}

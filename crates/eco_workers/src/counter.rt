//! Indices in turn.
ghost use Rattle.std.specs.Prelude.{◌≡◌, ◌-◌, ◌≤◌, map, true};
ghost use Rattle.std.specs.List.{range_with_len};
ghost use Rattle.eco_stages.specs.Taking.{fresh};

use eco_ids::{Entity, Refusal};
use eco_stages::Draws;

// Where one worker alone draws: the fresh handles of the indices from a base on, in turn, to below a limit.
#[derive(Drop)]
pub(crate) struct Counter {
    pub(crate) base: u32,
    pub(crate) next: u32,
    pub(crate) limit: u32,
    // A draw was refused.
    pub(crate) dry: bool,
    ghost rises: { base ≤ next },
    ghost within: { next ≤ limit },
    ghost last: { dry ≡ true → next ≡ limit },
}

impl Draws for Counter {
    type Rest = (u32, u32);

    ghost so_far = { λ d. map fresh (range_with_len d.base (d.next - d.base)) };

    ghost is_dry = { λ d. d.dry };

    ghost rest = { λ d. (d.base, d.limit) };

    #[inline]
    fn draw(&mut self) -> Result<Entity, Refusal> {
        if self.next == self.limit {
            self.dry = true;
            return Err(Refusal::NoMoreIds);
        }
        let index = self.next;
        self.next = index + 1;
        Ok(Entity {
            index,
            generation: 0,
        })
    }
}

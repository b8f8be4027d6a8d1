//! A number for each of the indices from 0 on.
ghost use Rattle.std.specs.Prelude.{◌≡◌, ◌<◌, ◌^◌, ℕ, OnOk};
ghost use Rattle.eco_index.specs.Marks.{number_at, KeepsNumbers};

use std::alloc::{AllocError, Global};

/// A number for each index, 0 where none was written. No model: contracts read the list.
#[derive(Drop)]
pub struct Numbers {
    numbers: Vec<u32>,
}

impl Numbers {
    /// Each index has 0.
    pub fn new(alloc: Global) -> Numbers
        ensures { (n : ℕ) → number_at result n ≡ 0 }
    {
        Numbers {
            numbers: Vec::new(alloc),
        }
    }

    /// The number of the index.
    #[inline]
    pub fn get(&self, index: u32) -> u32
        ensures { result ≡ number_at self.now index }
    {
        let place = index as usize;
        if place < self.numbers.len() {
            self.numbers[place]
        } else {
            0
        }
    }

    /// The index has this number from now on, which is not 0. An `Err` comes where memory is refused, and no index that had a
    /// number is without.
    #[inline]
    pub fn set(&mut self, index: u32, number: u32) -> Result<(), AllocError>
        requires { 0 < number }
        ensures kept { KeepsNumbers self.old self.new }
        ensures ok { OnOk result (number_at self.new index ≡ number) }
    {
        let place = index as usize;
        // Entities are mostly used in the order in which they were made, so the next number mostly comes last.
        if place == self.numbers.len() {
            self.numbers.push(number)?;
            return Ok(());
        }
        if place > self.numbers.len() {
            self.numbers.resize(place + 1, 0)?;
        }
        self.numbers[place] = number;
        Ok(())
    }
}

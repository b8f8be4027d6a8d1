//! The values of one id, lent to be read row by row.

/// The values of one id, a value for each row, in the order of the rows. A value has as many fields as the id's column keeps.
#[derive(Clone, Copy)]
pub enum Values<'a> {
    One(&'a [[i64; 1]]),
    Two(&'a [[i64; 2]]),
    Three(&'a [[i64; 3]]),
    Four(&'a [[i64; 4]]),
    Five(&'a [[i64; 5]]),
    Six(&'a [[i64; 6]]),
    Seven(&'a [[i64; 7]]),
    Eight(&'a [[i64; 8]]),
}

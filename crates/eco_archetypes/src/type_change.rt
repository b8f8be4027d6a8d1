//! A change of type.
use eco_ids::TypeList;

/// A type that goes, and the type that comes in its place.
#[derive(Drop)]
pub struct TypeChange {
    pub from: TypeList,
    pub to: TypeList,
}

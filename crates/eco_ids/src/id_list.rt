//! A list of ids that loses the first of many as cheaply as the last.
ghost use Rattle.std.specs.Prelude.{◌≡◌, ◌≤◌, ◌<◌, ◌+◌, ◌-◌, ◌++◌, [], ◌∷◌, drop, insert, length, remove, IsOk, IfOk, OnOk, OnErr};
ghost use Rattle.smallvec.specs.SmallVec.{HasRoomFor};

use crate::id::Id;
use smallvec::SmallVec;
use std::alloc::{AllocError, Global};
use std::marker::Model;

/// How many ids a list has room for without memory. Each table has a list, so what is room for more is room in each of them.
pub const INLINE_IDS: usize = 3;

// Of no more ids than these, those behind one that leaves are moved, wherever it was.
const FEW_MOVED: usize = 16;

/// Ids in an order that is the caller's. An id that comes or goes moves those before it or those behind it, whichever are fewer,
/// where they are many and there is room: so the ids of an entity may go one by one from either end.
///
/// A contract sees the list of ids.
#[derive(Debug)]
pub(crate) struct IdList {
    // Some that are no more in the list, and behind them those that are.
    ids: SmallVec<Id, INLINE_IDS>,
    // How many have gone at the front.
    gone: usize,
}

// By hand, so that dropping it is one call: a derived drop is proved anew at each early return of whoever holds it.
impl Drop for IdList {
    fn drop(self) {
        let IdList { ids: _, gone: _ } = self;
    }
}

impl Model for IdList {
    ghost use Rattle.std.specs.Prelude.{◌<◌, ◌≤◌, List, drop, length};
    ghost use Rattle.smallvec.specs.SmallVec.{IsSpilled};
    ghost use Rattle.eco_ids.specs.declared.id.Id.{Id};

    ghost Value = { List Id };

    ghost view = { λ l. drop l.gone l.ids.items };

    ghost invariant = { λ l. (l.gone ≤ length l.ids.items) × (0 < l.gone → IsSpilled 3 l.ids) };
}

impl IdList {
    /// No ids.
    pub(crate) fn new(alloc: Global) -> IdList
        ensures { result ≡ [] }
    {
        IdList {
            ids: SmallVec::new(alloc),
            gone: 0,
        }
    }

    /// These ids. An `Err` comes where memory is refused, which is wanted only for more than [`INLINE_IDS`] ids.
    pub(crate) fn from_slice(alloc: Global, ids: &[Id]) -> Result<IdList, AllocError>
        ensures is { IfOk result (λ l. l ≡ ids.now) }
        ensures short { length ids.now ≤ INLINE_IDS → IsOk result }
    {
        Ok(IdList {
            ids: SmallVec::from_slice(alloc, ids)?,
            gone: 0,
        })
    }

    /// The first ids and then the others. An `Err` comes where memory is refused, which is wanted only for more than
    /// [`INLINE_IDS`] ids.
    pub(crate) fn joined(alloc: Global, first: &[Id], others: &[Id]) -> Result<IdList, AllocError>
        ensures is { IfOk result (λ l. l ≡ first.now ++ others.now) }
        ensures short { length first.now + length others.now ≤ INLINE_IDS → IsOk result }
    {
        let mut ids = SmallVec::with_capacity(alloc, first.len().saturating_add(others.len()))?;
        ids.extend_from_slice(first)?;
        ids.extend_from_slice(others)?;
        Ok(IdList { ids, gone: 0 })
    }

    /// What memory is taken from.
    pub(crate) fn alloc(&self) -> Global {
        *self.ids.allocator()
    }

    /// The ids.
    #[inline(always)]
    pub(crate) fn as_slice(&self) -> &[Id]
        ensures { result.now ≡ self.now }
    {
        let ids = self.ids.as_slice();
        // None has gone from a few.
        if self.ids.spilled() {
            &ids[self.gone..]
        } else {
            ids
        }
    }

    /// The id is the last from now on. An `Err` comes where memory is refused, and leaves the list.
    pub(crate) fn push(&mut self, id: Id) -> Result<(), AllocError>
        ensures ok { OnOk result (self.new ≡ self.old ++ id ∷ []) }
        ensures err { OnErr result (self.new ≡ self.old) }
        ensures short { length self.old < INLINE_IDS → IsOk result }
    {
        if self.gone > 0 {
            let end = self.ids.len() - self.gone;
            return self.insert_beside_gap(end, id);
        }
        // A list has room for a few ids, whatever it held before.
        let _is_long = self.ids.spilled();
        self.ids.push(id)?;
        Ok(())
    }

    /// The id stands at the place from now on, and those from there on behind it. An `Err` comes where memory is refused, and
    /// leaves the list.
    pub(crate) fn insert(&mut self, place: usize, id: Id) -> Result<(), AllocError>
        requires { place ≤ length self.old }
        ensures ok { OnOk result (self.new ≡ insert self.old place id) }
        ensures err { OnErr result (self.new ≡ self.old) }
        ensures short { length self.old < INLINE_IDS → IsOk result }
    {
        if self.gone > 0 {
            return self.insert_beside_gap(place, id);
        }
        // A list has room for a few ids, whatever it held before.
        let _is_long = self.ids.spilled();
        self.ids.insert(place, id)?;
        Ok(())
    }

    // What `insert` does where some have gone. Apart, since mostly none has.
    #[cold]
    #[inline(never)]
    fn insert_beside_gap(&mut self, place: usize, id: Id) -> Result<(), AllocError>
        requires { place ≤ length self.old }
        ensures ok { OnOk result (self.new ≡ insert self.old place id) }
        ensures err { OnErr result (self.new ≡ self.old) }
        ensures short { length self.old < INLINE_IDS → IsOk result }
    {
        let count = self.ids.len() - self.gone;
        if self.gone > 0 && place < count / 2 {
            insert_in_gap(&mut self.ids, self.gone, place, id);
            self.gone -= 1;
            return Ok(());
        }
        self.gone = win_room(&mut self.ids, self.gone);
        let at = self.ids.len() - (count - place);
        self.ids.insert(at, id)?;
        Ok(())
    }

    /// The id at the place leaves. It takes no memory.
    pub(crate) fn remove(&mut self, place: usize)
        requires { place < length self.old }
        ensures { self.new ≡ remove self.old place }
    {
        let count = self.ids.len() - self.gone;
        if count > FEW_MOVED && place < count / 2 && self.ids.spilled() {
            let ids = self.ids.as_mut_slice();
            ids.copy_within(self.gone..self.gone + place, self.gone + 1);
            self.gone += 1;
        } else {
            self.ids.remove(self.gone + place);
        }
    }
}

// The id comes before the others at a place, of which so many have gone: those that were before it move down by one.
fn insert_in_gap(ids: &mut SmallVec<Id, INLINE_IDS>, gone: usize, place: usize, id: Id)
    requires gone { 0 < gone }
    requires within { gone + place ≤ length ids.old.items }
    ensures is { drop (gone - 1) ids.new.items ≡ insert (drop gone ids.old.items) place id }
    ensures length { length ids.new.items ≡ length ids.old.items }
    ensures capacity { ids.new.capacity ≡ ids.old.capacity }
{
    let ids = ids.as_mut_slice();
    ids.copy_within(gone..gone + place, gone - 1);
    ids[gone - 1 + place] = id;
}

// Where no more fit, and no more are left than have gone, those that are left move to the front: so each is moved seldom. The
// answer is how many are gone then.
#[cold]
#[inline(never)]
fn win_room(ids: &mut SmallVec<Id, INLINE_IDS>, gone: usize) -> usize
    requires { gone ≤ length ids.old.items }
    ensures same { drop result ids.new.items ≡ drop gone ids.old.items }
    ensures within { result ≤ length ids.new.items }
    ensures fewer { result ≤ gone }
    ensures capacity { ids.new.capacity ≡ ids.old.capacity }
    ensures room { length (drop gone ids.old.items) < INLINE_IDS → HasRoomFor ids.new 1 }
{
    let capacity = ids.capacity();
    if gone == 0 {
        return 0;
    }
    let len = ids.len();
    let left = len - gone;
    if len < capacity || left > gone.max(INLINE_IDS) {
        return gone;
    }
    ids.as_mut_slice().copy_within(gone..len, 0);
    ids.truncate(left);
    0
}

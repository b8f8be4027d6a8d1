//! Who reads the shared world. An entry owns its version, so that no merge waits for it.
ghost use Rattle.std.specs.Prelude.{◌≡◌, true, IfSome};
ghost use mathlib.Core.List.{IsPrefix};
ghost use Rattle.left_right.specs.Sides.{view};
ghost use Rattle.eco_histories.specs.Marks.{mark_of_book};
ghost use Rattle.eco_shared.specs.Histories.{IsAfter};
ghost use Rattle.eco_shared.specs.Sharing.{history, shown_world, KnowsOf};

use crate::keeper::Keeper;
use crate::news::News;
use crate::rule::{Entering, TheReader};
use crate::shown::Shown;
use core::mem::replace_with;
use eco_histories::registry::Naming;
use eco_world::World;
use std::sync::Wait;

/// A reader of the shared world, for one thread. It enters whole versions, and none before a version that it has seen or was told
/// of.
pub struct Viewer<J: Naming, R: Wait + Drop> {
    pub(crate) reader: TheReader,
    /// The longest history that it has seen or was told of.
    pub(crate) news: News<J>,
    // Behind the reader, which is given up before the writer.
    pub(crate) keeper: Keeper<R>,
    ghost known: { (view reader.place).known ≡ true },
    ghost mark: { (view reader.place).mark ≡ mark_of_book news.front.seen.book },
}

// By hand, so that dropping it is one call: a derived drop is proved anew at each early return of whoever holds it.
impl<J: Naming, R: Wait + Drop> Drop for Viewer<J, R> {
    fn drop(self) {
        let Self {
            reader: _reader,
            news: _news,
            keeper: _keeper,
        } = self;
    }
}

/// An entry: one version, a whole world. It stays as it is however long it is held: a merge that finds it held for long leaves it
/// to its holder, and copies the world.
pub struct View {
    shown: Shown,
}

// By hand, as above.
impl Drop for View {
    fn drop(self) {
        let View { shown: _ } = self;
    }
}

// One entry. There is none where the merger is gone, or the version has too many owners.
fn look_once(reader: TheReader) -> (TheReader, Option<Shown>)
    requires { (view reader.place).known ≡ true }
    ensures same { view result.0.place ≡ view reader.place }
    ensures shown { IfSome result.1 (KnowsOf (view reader.place)) }
{
    match reader.enter_as::<Entering>() {
        Ok(reading) => {
            let taken = reading.get().another();
            (reading.leave(), taken.ok())
        }
        Err(reader) => (reader, None),
    }
}

impl<J: Naming, R: Wait + Drop> Viewer<J, R> {
    ghost use Rattle.eco_shared.specs.Views.{Learns, number};

    /// Enters the version that was published last. Its history begins with all that this viewer has seen or was told of.
    pub fn enter(&mut self, rt: &impl Wait) -> View
        ensures history { IsPrefix self.old.news.front.seen.log (history result.shown) }
        ensures seen { self.new.news.front.seen.log ≡ history result.shown }
        ensures world { IsAfter (view self.old.reader.place).start (history result.shown)
            (shown_world result.shown) }
        ensures same { (view self.new.reader.place ≡ view self.old.reader.place)
            × (number self.new ≡ number self.old) }
    {
        for _ in rt.forever() {
            if let Some(shown) = self.look() {
                if let Some(news) = self.news.seen(&shown.front) {
                    self.news = news;
                    return View { shown };
                }
            }
        }
        unreachable!()
    }

    /// Takes in what a merger tells, so that the next entry shows that version or a later one. Answers whether the news are of this
    /// viewer's shared world; news of another change nothing.
    pub fn learn(&mut self, news: &News<J>) -> bool
        ensures learned { Learns self.old news.now result self.new }
        ensures same { (self.new.reader ≡ self.old.reader) × (number self.new ≡ number self.old) }
    {
        let Some(known) = self.news.learned(news) else {
            return false;
        };
        self.news = known;
        true
    }

    // One entry, if it finds a version.
    fn look(&mut self) -> Option<Shown>
        ensures same { (view self.new.reader.place ≡ view self.old.reader.place)
            × (self.new.news ≡ self.old.news) }
        ensures shown { IfSome result (KnowsOf (view self.old.reader.place)) }
    {
        replace_with(&mut self.reader, (), |reader, _x| look_once(reader))
    }
}

impl View {
    /// The world that is seen.
    pub fn world(&self) -> &World
        ensures { result.now ≡ shown_world self.now.shown }
    {
        &self.shown.world
    }
}

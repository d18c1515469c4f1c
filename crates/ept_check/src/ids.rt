//! The ids of the points of the nodes so far.

ghost use Rattle.std.specs.Prelude.{◌≡◌, ◌↔◌, ◌||◌, false, IsTrue, None, OnOk};
ghost use Rattle.std.specs.BTreeMap.{get};
ghost use Rattle.ept_point.specs.declared.id.PointId.{PointId};
ghost use Rattle.ept_check.specs.Pages.{page_of, page_cmp, number_in_page};
ghost use Rattle.ept_check.specs.Walking.{has_id, is_one_id, is_of, HaveNewIds};

use crate::page::Page;
use ept_point::{Memory, Point, PointId, PointNumber};
use std::alloc::Global;
use std::collections::BTreeMap;

/// How many numbers a page has a bit for.
const NUMBERS: PointNumber = 65_536;

/// Which ids a page has: those of an origin whose numbers have this quotient by the size of a page.
#[derive(Clone, Copy, PartialEq, Eq, PartialOrd, Ord)]
pub(crate) struct PageKey {
    origin: u32,
    quotient: PointNumber,
}

/// A set of ids, in pages of bits. So it takes about a bit for each point of a folder that is whole.
#[derive(Drop)]
pub(crate) struct Ids {
    pages: BTreeMap<PageKey, Page>,
}

impl Ids {
    /// No ids. It takes no memory.
    #[tactic(auto, unfolding(crate::specs::Walking::has_id))]
    pub(crate) fn new(alloc: Global) -> Ids
        ensures { (q : PointId) → has_id result q ≡ false }
    {
        Ids {
            pages: BTreeMap::new(alloc),
        }
    }

    /// Whether it has none of the points' ids.
    pub(crate) fn has_none_of(&self, points: &[Point]) -> bool
        ensures { IsTrue result ↔ HaveNewIds self.now points.now }
    {
        for point in points {
            if self.has(point.id()) {
                return false;
            }
        }
        true
    }

    /// Adds the points' ids.
    pub(crate) fn insert_all(&mut self, alloc: Global, points: &[Point]) -> Result<(), Memory>
        ensures { OnOk result ((q : PointId) → has_id self.new q ≡ (has_id self.old q || is_of points.now q)) }
    {
        for point in points {
            self.insert(alloc, point.id())?;
        }
        Ok(())
    }

    // Whether it has an id.
    #[tactic(auto, unfolding(crate::specs::Walking::has_id))]
    fn has(&self, one: PointId) -> bool
        ensures { result ≡ has_id self.now one }
    {
        match self.pages.get(&page_of(one)) {
            Some(page) => page.contains(number_in_page(one)),
            None => false,
        }
    }

    // Adds an id.
    fn insert(&mut self, alloc: Global, one: PointId) -> Result<(), Memory>
        ensures { OnOk result ((q : PointId) → has_id self.new q ≡ (has_id self.old q || is_one_id one q)) }
    {
        match self.pages.get_mut(&page_of(one)) {
            Some(page) => {
                page.insert(number_in_page(one));
                Ok(())
            }
            None => self.begin_page(alloc, one),
        }
    }

    // Adds an id for which there is no page yet.
    fn begin_page(&mut self, alloc: Global, one: PointId) -> Result<(), Memory>
        requires { get page_cmp self.old.pages (page_of one) ≡ None }
        ensures { OnOk result ((q : PointId) → has_id self.new q ≡ (has_id self.old q || is_one_id one q)) }
    {
        let mut page = Page::new(alloc)?;
        page.insert(number_in_page(one));
        self.pages.insert(page_of(one), page)?;
        Ok(())
    }
}

// The page of an id.
fn page_of(one: PointId) -> PageKey
    ensures { result ≡ page_of one }
{
    PageKey {
        origin: one.origin,
        quotient: one.number / NUMBERS,
    }
}

// The number of an id in its page.
fn number_in_page(one: PointId) -> u16
    ensures { result ≡ number_in_page one }
{
    (one.number % NUMBERS) as u16
}

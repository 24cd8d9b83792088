//! Look-up by address.
ghost use Rattle.std.specs.Prelude.{◌≡◌, ◌≤◌};
ghost use Rattle.caches.specs.Finding.{IsFound, IsFoundAt, IsHeldIn};

use crate::address_space::AddressSpace;
use crate::entry_map::EntryMap;
use crate::tag::Entry;
use cmdcodec::Page;

impl EntryMap {
    /// Returns the entry that holds a page, at the greatest of these spans that has one. Only spans are tried that a
    /// block was ever put in with.
    pub(crate) fn find(&self, space: &AddressSpace, page: Page, spans: u64) -> Option<Entry>
        ensures found { IsFound self.now space.now page spans result }
        ensures own { IsHeldIn self.now result }
    {
        let mut left = self.spans_among(spans);
        while left > 0 {
            let span = left.ilog2() as u8;
            if let Some(entry) = self.find_at(space, page, span) {
                return Some(entry);
            }
            left -= 1 << span;
        }
        None
    }

    /// Returns the entry that holds a page in a block of this span, the space's own before the global one.
    fn find_at(&self, space: &AddressSpace, page: Page, span: u8) -> Option<Entry>
        requires { span ≤ 52 }
        ensures found { IsFoundAt self.now space.now page span result }
        ensures own { IsHeldIn self.now result }
    {
        let own = space.own_tag(page, span);
        if let Some(entry) = self.get(&own) {
            return Some(entry);
        }
        let shared = space.shared_tag(page, span)?;
        self.get(&shared)
    }
}

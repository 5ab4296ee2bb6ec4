use std::cell::Cell;

/// A number that increments `drops` when it is dropped.
pub struct Counted<'a> {
    pub value: u32,
    pub drops: &'a Cell<u32>,
}

impl Drop for Counted<'_> {
    fn drop(self) {
        let Counted { value: _, drops } = self;
        drops.set(drops.get().saturating_add(1));
    }
}

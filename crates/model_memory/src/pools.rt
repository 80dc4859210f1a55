// Boxes by their size: how many there are, and how many there were at most.
use crate::stop::Stop;
use std::alloc::Global;
use std::collections::BTreeMap;

// The boxes of one size.
#[derive(Clone, Copy, Default)]
struct Class {
    in_use: u64,
    peak: u64,
}

#[derive(Drop)]
pub struct Pools {
    // by their words
    classes: BTreeMap<u64, Class>,
    // the words of all boxes: of each size as many as there were at most; never more than the limit
    peaks: u128,
    limit: u64,
}

impl Pools {
    pub fn new(heap: Global, limit: u64) -> Self {
        Pools {
            classes: BTreeMap::new(heap),
            peaks: 0,
            limit,
        }
    }

    // The words of all boxes: of each size as many as there were at most.
    pub fn peaks(&self) -> u128 {
        self.peaks
    }

    // These words, with one box more of a size than there were at most.
    fn raised(&self, words: u64) -> Result<u128, Stop> {
        let peaks = self.peaks.saturating_add(u128::from(words));
        if peaks > u128::from(self.limit) {
            return Err(Stop::NoHeap);
        }
        Ok(peaks)
    }

    // One box more of that size.
    pub fn count_in(&mut self, words: u64) -> Result<(), Stop> {
        let class = self.classes.get(&words).copied().unwrap_or_default();
        let in_use = class.in_use.checked_add(1).ok_or(Stop::NoHeap)?;
        let peak = class.peak.max(in_use);
        // The sum is kept, not taken anew: a run makes boxes again and again, of many sizes.
        let peaks = if peak > class.peak {
            self.raised(words)?
        } else {
            self.peaks
        };
        self.classes.insert(words, Class { in_use, peak })?;
        self.peaks = peaks;
        Ok(())
    }

    // One box less of that size.
    pub fn count_out(&mut self, words: u64) {
        if let Some(class) = self.classes.get_mut(&words) {
            class.in_use = class.in_use.saturating_sub(1);
        }
    }
}

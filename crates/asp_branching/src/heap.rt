// Variables by activity.
ghost use Rattle.std.specs.Prelude.{◌≡◌, ◌<◌, IfSome};

use std::alloc::{AllocError, Global};

// How much the first conflict adds to the activity of a variable.
const FIRST_STEP: u64 = 1 << 24;
// Above this activity all activities are divided by 2 to the power of `RESCALE`.
const LIMIT: u64 = 1 << 62;

const RESCALE: u32 = 16;

// A binary heap of variables, a most active one on top. What it says of the order is a hint: no contract speaks of it, and each access
// is checked.
#[derive(Drop)]
pub struct Heap {
    // The variables in the heap: as many of these as `count` says.
    order: Vec<u64>,
    count: usize,
    // By variable: one more than its place in the heap, or 0 where it is not in the heap.
    places: Vec<usize>,
    // By variable: its activity.
    activities: Vec<u64>,
    // How much a conflict adds to the activity of a variable.
    step: u64,
}

impl Heap {
    // It knows no variable.
    pub(crate) fn new(alloc: Global) -> Self {
        Heap {
            order: Vec::new(alloc),
            count: 0,
            places: Vec::new(alloc),
            activities: Vec::new(alloc),
            step: FIRST_STEP,
        }
    }

    // Makes room for the variables below `places`, and puts the new ones in. Only memory can run out.
    pub(crate) fn reserve(&mut self, places: usize) -> Result<(), AllocError> {
        let known = self.activities.len();
        if known < places {
            self.order.resize(places, 0)?;
            self.places.resize(places, 0)?;
            self.activities.resize(places, 0)?;
            for v in known..places {
                self.push(v as u64);
            }
        }
        Ok(())
    }

    // The variable at a place of the heap.
    fn at(&self, place: usize) -> u64 {
        self.order.get(place).copied().unwrap_or(0)
    }

    // The activity of a variable.
    fn activity(&self, v: u64) -> u64 {
        self.activities.get(v as usize).copied().unwrap_or(0)
    }

    // Puts a variable at a place of the heap.
    fn put(&mut self, v: u64, place: usize)
        ensures { self.new.count ≡ self.old.count }
    {
        if place < self.order.len() && (v as usize) < self.places.len() {
            self.order[place] = v;
            self.places[v as usize] = place + 1;
        }
    }

    // Notes that a variable is not in the heap.
    fn take_out(&mut self, v: u64)
        ensures { self.new.count ≡ self.old.count }
    {
        if (v as usize) < self.places.len() {
            self.places[v as usize] = 0;
        }
    }

    // Puts a variable at this place or above it, below none that is less active.
    fn rise(&mut self, v: u64, from: usize)
        ensures { self.new.count ≡ self.old.count }
    {
        let activity = self.activity(v);
        let mut place = from;
        while place > 0 {
            let above = (place - 1) / 2;
            let other = self.at(above);
            if self.activity(other) >= activity {
                break;
            }
            self.put(other, place);
            place = above;
        }
        self.put(v, place);
    }

    // The place below this one with the more active variable.
    fn below(&self, place: usize) -> Option<usize>
        ensures { IfSome result (λ child. (place < child) × (child < self.now.count)) }
    {
        let left = place.checked_mul(2)?.checked_add(1)?;
        if left >= self.count {
            return None;
        }
        let right = left + 1;
        if right < self.count && self.activity(self.at(right)) > self.activity(self.at(left)) {
            Some(right)
        } else {
            Some(left)
        }
    }

    // Puts a variable on top or below it, above none that is more active.
    fn sink(&mut self, v: u64)
        ensures { self.new.count ≡ self.old.count }
    {
        let activity = self.activity(v);
        let mut place = 0;
        while let Some(child) = self.below(place) {
            let other = self.at(child);
            if self.activity(other) <= activity {
                break;
            }
            self.put(other, place);
            place = child;
        }
        self.put(v, place);
    }

    // Whether there is room for a variable, and it is not in the heap.
    fn is_out(&self, v: u64) -> bool {
        self.count < self.order.len() && self.places.get(v as usize).copied() == Some(0)
    }

    // Puts a variable in, unless it is there or there is no room for it.
    pub(crate) fn push(&mut self, v: u64) {
        if self.is_out(v) {
            let place = self.count;
            self.count = place.saturating_add(1);
            self.rise(v, place);
        }
    }

    // Takes a most active variable out.
    pub(crate) fn pop(&mut self) -> Option<u64>
        ensures { IfSome result (λ _. self.new.count < self.old.count) }
    {
        let last = self.count.checked_sub(1)?;
        let top = self.at(0);
        let moved = self.at(last);
        self.count = last;
        self.take_out(top);
        if last > 0 {
            self.sink(moved);
        }
        Some(top)
    }

    // Divides all activities, so that there is room for higher ones.
    fn rescale(&mut self)
        ensures { self.new.count ≡ self.old.count }
    {
        for activity in self.activities.iter_mut() {
            *activity >>= RESCALE;
        }
        self.step >>= RESCALE;
    }

    // Notes a higher activity of a variable.
    fn raise(&mut self, v: u64) -> u64 {
        let raised = self.activity(v).saturating_add(self.step);
        if (v as usize) < self.activities.len() {
            self.activities[v as usize] = raised;
        }
        raised
    }

    // A variable was met: it is more active, and rises if it is in the heap.
    pub(crate) fn bump(&mut self, v: u64) {
        if self.raise(v) > LIMIT {
            self.rescale();
        }
        let place = self.places.get(v as usize).copied().unwrap_or(0);
        if place > 0 {
            self.rise(v, place - 1);
        }
    }

    // What is added from now on counts for more.
    pub(crate) fn decay(&mut self) {
        self.step = self.step.saturating_add(self.step / 16 + 1);
    }
}

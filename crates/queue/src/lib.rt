// The queue of finished blocks: a ring of 256 places with its overflow mark.
#![tactic(auto)]

ghost use Rattle.std.specs.Prelude.{◌≡◌, ◌&&◌, true, fold};
ghost use Rattle.queue.specs.Queue.{
  empty_queue,
  with_joined,
  oldest_word,
  without_oldest_block,
  fit_place,
  fit_queue,
};

// The places of the queue.
pub const QUEUE_PLACES: u16 = 256;

// Where the queue begins, how long it is, and whether a block was lost.
#[derive(Clone, Copy)]
pub struct Ring {
    pub start: u16,
    pub count: u16,
    pub overflow: bool,
}

#[derive(Clone, Copy)]
pub struct Queue {
    pub places: [u16; 256],
    pub ring: Ring,
}

// Whether every place holds the number of a block, in use or not. A fold has no branch, so that the
// scan runs at the speed of memory; `all` stops at a place.
fn places_fit(places: &[u16; 256], blocks: u16) -> bool
    ensures { result ≡ fold (λ fit place. fit && fit_place blocks place) true places.now }
{
    places
        .iter()
        .fold(true, |fit, place| fit & (*place < blocks))
}

impl Queue {
    pub fn empty() -> Queue
        ensures { result ≡ empty_queue }
    {
        Queue {
            places: [0; 256],
            ring: Ring {
                start: 0,
                count: 0,
                overflow: false,
            },
        }
    }

    // A block joins behind the others; where the places are full it is lost and overflow set.
    pub fn join(&mut self, block: u16)
        ensures { self.new ≡ with_joined block self.old }
    {
        if self.ring.count >= QUEUE_PLACES {
            self.ring.overflow = true;
            return;
        }
        let place = (usize::from(self.ring.start) + usize::from(self.ring.count)) % 256;
        self.places[place] = block;
        self.ring.count += 1;
    }

    // The oldest block leaves: bits 9 to 0, with bit 15 set; bit 10 is the overflow mark.
    pub fn read(&mut self) -> u16
        ensures word { result ≡ oldest_word self.old }
        ensures left { self.new ≡ without_oldest_block self.old }
    {
        let mark = bits::weigh(self.ring.overflow, 1024);
        if self.ring.count == 0 {
            return mark;
        }
        let place = self.ring.start % QUEUE_PLACES;
        let block = self.places[usize::from(place)];
        self.ring.start = (place + 1) % QUEUE_PLACES;
        self.ring.count -= 1;
        32768 + block % 1024 + mark
    }

    // Whether start, count and all places are fit, on a card of so many blocks.
    pub fn is_fit(&self, blocks: u16) -> bool
        ensures { result ≡ fit_queue blocks self.now }
    {
        (self.ring.start < QUEUE_PLACES)
            & (self.ring.count <= QUEUE_PLACES)
            & places_fit(&self.places, blocks)
    }
}

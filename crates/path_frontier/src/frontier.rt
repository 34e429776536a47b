// Paths that wait to be expanded, in the slots of an area that the caller lends: a ring for breadth-first, and for depth-first the same from slot 0 on.
// Document 01, "Budget and frontier": "Breadth-first is a queue; depth-first takes the first pushed of the newest successors"; 31 of "Turned back".
ghost use Rattle.std.specs.Prelude.{◌≡◌, ◌⊎◌, ◌+◌, ◌≤◌, ◌<◌, length};
ghost use Rattle.semantics.specs.Limits.{slot_length};
ghost use Rattle.semantics.specs.Words.{zeros};
ghost use Rattle.words.specs.Slots.{IsSlot};
ghost use Rattle.path_frontier.specs.Frontier.{empty, greatest_in, taken, Framed, Front, Back, Pushes, Pops, Wider, Widens, MakesRoom};

use semantics::bounds::SLOT_WORDS;
use semantics::search::SearchOrder;
use words::slots;

// The words of a waiting slot while no item has more than fit in them: thousands may wait, and most have few edges.
pub const SHORT_SLOT: usize = 16;

// `count` slots of `length` words wait, from slot `first` on; the newest `pending` of them were pushed since the last pop. No more than `most`
// waited together before that pop: between two pops their number only grows, so that it is looked at there and a push stays short.
#[derive(Clone, Copy)]
pub struct Frontier {
    pub order: SearchOrder,
    pub length: usize,
    pub first: usize,
    pub count: usize,
    pub pending: usize,
    pub capacity: usize,
    pub most: usize,
}

// The slot that is n behind the first, going round at the end. The sum is taken only where it stays inside.
fn around(first: usize, n: usize, capacity: usize) -> usize
    requires { (first < capacity) × (n ≤ capacity) }
    ensures { (result < capacity) × ((first + n ≡ result) ⊎ (first + n ≡ result + capacity)) }
{
    let left = capacity - first;
    if n < left {
        return first + n;
    }
    n - left
}

// The words of the next longer slots in which so many have a place: twice as many as there are, or as many as a slot may have.
pub fn longer(slot: usize, words: usize) -> usize
    requires { (slot ≤ slot_length) × (words ≤ slot_length) }
    ensures { (slot ≤ result) × (words ≤ result) × (result ≤ slot_length) }
{
    if slot <= SLOT_WORDS / 2 {
        let double = slot + slot;
        if words <= double {
            return double;
        }
    }
    SLOT_WORDS
}

impl Frontier {
    // Nothing waits.
    pub fn new(order: SearchOrder, length: usize, capacity: usize) -> Frontier
        ensures { result ≡ empty order length capacity }
    {
        Frontier {
            order,
            length,
            first: 0,
            count: 0,
            pending: 0,
            capacity,
            most: 0,
        }
    }

    // One more waits, behind the others; `None` when all slots are taken.
    pub fn push(self, work: &mut [u32], words: &[u32]) -> Option<Frontier>
        requires { Framed self work.old × IsSlot self.length words.now }
        ensures { Pushes self work.old words.now result work.new }
    {
        if self.count < self.capacity {
            let at = around(self.first, self.count, self.capacity);
            slots::write_slot(work, self.length, at, words);
            return Some(Frontier {
                count: self.count + 1,
                pending: self.pending + 1,
                ..self
            });
        }
        None
    }

    // The next one is copied out and waits no more: its slot serves again. `None` when nothing waits. It is compiled into the searches, as `Search::push` is: as a call
    // it hands the frontier over in memory, and a direct search takes up to half as many instructions more.
    #[inline(always)]
    pub fn pop(self, work: &mut [u32], into: &mut [u32]) -> Option<Frontier>
        requires { Framed self work.old × IsSlot self.length into.old }
        ensures { Pops self work.old result into.new work.new }
    {
        if 0 < self.count {
            return Some(match self.order {
                SearchOrder::BreadthFirst => self.pop_front(work, into),
                SearchOrder::DepthFirst => self.pop_back(work, into),
            });
        }
        None
    }

    // How many ever waited together: more may wait now than at any pop.
    pub fn greatest(self) -> usize
        ensures { result ≡ greatest_in self }
    {
        self.most.max(self.count)
    }

    // One was taken, and slot `first` is the first now. How many waited with it is noted.
    fn taken(self, first: usize) -> Frontier
        requires { 0 < self.count }
        ensures { result ≡ taken self first }
    {
        Frontier {
            first,
            count: self.count - 1,
            pending: 0,
            most: self.greatest(),
            ..self
        }
    }

    // The first slot of the ring is taken. What is left is told before the slot is copied: the counts need not be kept over the copy.
    fn pop_front(self, work: &[u32], into: &mut [u32]) -> Frontier
        requires { Framed self work.now × IsSlot self.length into.old × (0 < self.count) × (self.order ≡ SearchOrder.BreadthFirst) }
        ensures { Front self work.now into.new result }
    {
        let next = self.taken(around(self.first, 1, self.capacity));
        slots::read_slot(work, self.length, self.first, into);
        next
    }

    // The newest stand in the order of their pushes. A stack takes the last, so they are turned round for the first of them to come first.
    fn pop_back(self, work: &mut [u32], into: &mut [u32]) -> Frontier
        requires { Framed self work.old × IsSlot self.length into.old × (0 < self.count) × (self.order ≡ SearchOrder.DepthFirst) }
        ensures { Back self work.old into.new result work.new }
    {
        let next = self.taken(self.first);
        let last = self.count - 1;
        slots::reverse_slots(work, self.length, self.count - self.pending, self.pending);
        slots::read_slot(work, self.length, last, into);
        next
    }

    // How many of the first slots are in use: all where the ring goes round its end. The sum is taken only where it stays inside.
    fn in_use(self) -> usize
        requires { self.first ≤ self.capacity }
        ensures { (result ≤ self.capacity) × ((self.first + self.count ≤ result) ⊎ (result ≡ self.capacity)) }
    {
        let left = self.capacity - self.first;
        if self.count <= left {
            return self.first + self.count;
        }
        self.capacity
    }

    // The slots get more words each, so that longer items may wait: those that wait stay, with zeros behind. The lent slot is for the move, and zero.
    // Slots that are not in use are not looked at, as a caller may lend many more than wait.
    fn widen_by(self, work: &mut [u32], words: usize, slot: &mut [u32]) -> Frontier
        requires { Framed self work.old × Wider self work.old words × (words ≤ length slot.old) × (slot.old ≡ zeros (length slot.old)) }
        ensures { Widens self work.old words result work.new }
    {
        let used = self.in_use();
        slots::widen_slots(work, self.length, words, used, &mut slot[0..words]);
        Frontier {
            length: words,
            ..self
        }
    }

    pub fn widen(self, work: &mut [u32], words: usize) -> Frontier
        requires { Framed self work.old × Wider self work.old words × (words ≤ slot_length) }
        ensures { Widens self work.old words result work.new }
    {
        let mut slot = [0u32; SLOT_WORDS];
        self.widen_by(work, words, &mut slot)
    }

    // Slots in which so many words have a place. Copies take longer then, and few items are as long as any may be: so they get more words only
    // when one is too long for them.
    #[inline(always)]
    pub fn make_room(self, work: &mut [u32], words: usize) -> Frontier
        requires { Framed self work.old × Wider self work.old slot_length × (words ≤ slot_length) }
        ensures { MakesRoom self work.old words result work.new }
    {
        if words <= self.length {
            return self;
        }
        self.widen(work, longer(self.length, words))
    }
}

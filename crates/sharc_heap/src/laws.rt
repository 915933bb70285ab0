//! Laws of what a New asks for, and of the granules that are handed out. A proof above has them where its function
//! calls this.
//!
//! Laws of shadow words. A proof above has them where its function calls this.
//!
//! Laws of counts. A proof above has them where its function calls this.

ghost use Rattle.sharc_heap.specs.{NewLaws.NewLaws, ShadowLaws.ShadowLaws, CountLaws.CountLaws};

/// What holds of every New: after the same results it asks for one turn, and turn by turn it asks for just that; the
/// heap is full exactly where the own list is empty and there is no room after the top that was seen last; the top
/// moves by one block from that value, within the arena; each step is of the top or of a word of the New's own block;
/// and both ways end. Over a legal history in which the top is only moved on, what is handed out lies apart and below
/// the top.
#[inline(always)]
pub fn new_laws()
    ensures { NewLaws }
{}

/// What holds of every shadow word: it is determined by its sets; what an Or of a thread's bits, a withdrawal and a
/// clear leave, of the thread and of all others; and when a check conflicts, and with whom.
#[inline(always)]
pub fn shadow_laws()
    ensures { ShadowLaws }
{}

/// What the steps make of a count.
#[inline(always)]
pub fn count_laws()
    ensures { CountLaws }
{}

// Which rule of the modes an event breaks.

ghost use Rattle.std.specs.Prelude.{◌≡◌, [], ◌∷◌, false};
ghost use Rattle.sharc_meaning.specs.Obeys.{is_owner};
ghost use Rattle.sharc_judge.specs.Deciding.{breaks, breaks_by, any_pair, pair_of, is_there};
ghost use Rattle.sharc_judge.specs.{declared.pair.Until.TheVariants.Return, Kept.{AreUnbroken, IsLowestAt}};
ghost use Rattle.sharc_judge.specs.{Latest.{last_begin, last_period}, Reads.{is_against, against_write, against_reads}};
ghost use Rattle.sharc_judge.specs.declared.pair.Pair.TheVariants as pair;

use crate::access::{CellAccess, access_by, locks};
use crate::keys::{cell_key, granule_key};
use crate::laws::same_laws;
use crate::pair::{Pair, Until};
use crate::past::Past;
use crate::rule::Rule;
use crate::table::{Noted, is_behind};
use crate::topics::Topic;
use sharc_tree::event::{CellAt, CellMode, Object, SourceEvent};

impl Past {
    // The last event that made or gave the object.
    fn last_begin(&self, object: Object) -> Option<Noted>
        ensures { result ≡ last_begin object self.now }
    {
        match object {
            Object::Global(_) => None,
            Object::Made(n) => self.latest(Topic::Begin(n)),
        }
    }

    // The last event that made, gave or freed the object.
    fn last_period(&self, object: Object) -> Option<Noted>
        ensures { result ≡ last_period object self.now }
    {
        match object {
            Object::Global(_) => None,
            Object::Made(n) => self.latest(Topic::Period(n)),
        }
    }

    /// Whether the object is a global, or live.
    fn is_there(&self, object: Object) -> bool
        ensures { result ≡ is_there self.now object }
    {
        match object {
            Object::Global(_) => true,
            Object::Made(_) => self.is_live(object),
        }
    }

    /// Whether the thread made the last New or Give of the object; a global is owned by thread 0.
    fn is_owner(&self, object: Object, thread: u32) -> bool
        ensures { result ≡ is_owner self.now object thread }
    {
        match object {
            Object::Global(_) => thread == 0,
            Object::Made(n) => match self.latest(Topic::Begin(n)) {
                None => false,
                Some(noted) => noted.event.thread == thread,
            },
        }
    }

    /// Whether the thread holds the mutex.
    fn is_held(&self, mutex: CellAt, thread: u32) -> bool
        ensures { result ≡ any_pair (pair_of (pair.Holds mutex thread)) self.now }
    {
        match self.latest(Topic::Hold(thread, cell_key(mutex))) {
            None => false,
            Some(noted) => locks(mutex, &noted.event),
        }
    }

    /// Whether the cell was accessed under another mode, and its object was not made, given or freed since. Since no
    /// access so far was, the last one tells.
    fn had_other_mode(&self, a: CellAccess) -> bool
        requires { AreUnbroken self.now }
        ensures { result ≡ any_pair (pair_of (pair.OtherMode a)) self.now }
    {
        same_laws();
        match self.latest(Topic::Access(cell_key(a.cell))) {
            None => false,
            Some(noted) => {
                Pair::OtherMode(a).is_met(&noted.event, &[])
                    && is_behind(noted.place, self.last_period(a.cell.object))
            }
        }
    }

    // Whether the access that was noted still counts, and must not be made beside this one.
    fn is_against(&self, noted: Noted, thread: u32, a: CellAccess) -> bool
        ensures { result ≡ is_against thread a self.now noted }
    {
        Pair::Conflicts(Until::Return, thread, a).is_met(&noted.event, &[])
            && (is_behind(noted.place, self.last_begin(a.cell.object))
                && is_behind(noted.place, self.latest(Topic::Return(noted.event.thread))))
    }

    // Whether that of the last write of its granule is.
    fn against_write(&self, thread: u32, a: CellAccess) -> bool
        ensures { result ≡ against_write thread a self.now }
    {
        match self.latest(Topic::SharedWrite(granule_key(a.cell))) {
            None => false,
            Some(noted) => self.is_against(noted, thread, a),
        }
    }

    // Whether that of a read of it since is.
    fn against_reads(&self, thread: u32, a: CellAccess) -> bool
        ensures { result ≡ against_reads thread a self.now }
    {
        for noted in self.reads(granule_key(a.cell)) {
            if self.is_against(*noted, thread, a) {
                return true;
            }
        }
        false
    }

    /// Whether an access by another thread still counts, and must not be made beside this one. Since no two so far
    /// conflict, the last write tells, and where this one is a write, the reads since.
    fn is_beside(&self, thread: u32, a: CellAccess) -> bool
        requires { AreUnbroken self.now }
        ensures { result ≡ any_pair (pair_of (pair.Conflicts Return thread a)) self.now }
    {
        same_laws();
        self.against_write(thread, a) || (a.is_write && self.against_reads(thread, a))
    }

    /// Whether the access by this thread breaks the rule.
    fn breaks(&self, rule: Rule, thread: u32, a: CellAccess) -> bool
        requires { AreUnbroken self.now }
        ensures { result ≡ breaks rule Return self.now thread a }
    {
        match rule {
            Rule::Live => !self.is_there(a.cell.object),
            Rule::OneMode => self.had_other_mode(a),
            Rule::Owner => match a.mode {
                CellMode::Private => !self.is_owner(a.cell.object, thread),
                _ => false,
            },
            Rule::NotWritten => match a.mode {
                CellMode::Readonly => a.is_write,
                _ => false,
            },
            Rule::UnderItsLock => match a.mode {
                CellMode::Locked(Some(mutex)) => !self.is_held(mutex, thread),
                _ => false,
            },
            Rule::ReadSharedOrOneThread => match a.mode {
                CellMode::Dynamic => self.is_beside(thread, a),
                _ => false,
            },
        }
    }

    /// Whether the event breaks the rule.
    fn breaks_by(&self, rule: Rule, e: &SourceEvent) -> bool
        requires { AreUnbroken self.now }
        ensures { result ≡ breaks_by rule Return self.now e.now }
    {
        match access_by(e.act) {
            None => false,
            Some(a) => self.breaks(rule, e.thread, a),
        }
    }

    /// The lowest rule that the event breaks after these events, none of which breaks a rule.
    pub fn broken_by(&self, e: &SourceEvent) -> Option<Rule>
        requires { AreUnbroken self.now }
        ensures { IsLowestAt self.now e.now result }
    {
        if self.breaks_by(Rule::Live, e) {
            Some(Rule::Live)
        } else if self.breaks_by(Rule::OneMode, e) {
            Some(Rule::OneMode)
        } else if self.breaks_by(Rule::Owner, e) {
            Some(Rule::Owner)
        } else if self.breaks_by(Rule::NotWritten, e) {
            Some(Rule::NotWritten)
        } else if self.breaks_by(Rule::UnderItsLock, e) {
            Some(Rule::UnderItsLock)
        } else if self.breaks_by(Rule::ReadSharedOrOneThread, e) {
            Some(Rule::ReadSharedOrOneThread)
        } else {
            None
        }
    }
}

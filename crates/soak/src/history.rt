// The history of a list, written from the documents alone: it is handed the items, and looks at no image and no
// answer. Whose news is newer is read from places and pasts; labels decide nothing here.
use crate::item::Follower;
use crate::sizes::{DONE, ITEMS, Refusal, STALLS, YIELD_LIMIT, index};
use std::alloc::{AllocError, Global};
use std::cmp::Ordering;

// Where a meeting stands in the history: later meetings stand higher. A place that is lacking, as that
// of the latest of a stall that was never heard, is older than any. An index, and no Box of a meeting: many pasts
// share a meeting, and of two it is the places that say which is newer. Two bytes, since each meeting keeps many;
// a list has fewer meetings than items.
pub type Place = u16;

// A label is lower than this: all below are tried.
const LABELS: u8 = 64;

// A meeting as a name says it.
#[derive(Clone, Copy, Debug, PartialEq, Eq)]
pub struct Name {
    pub first: u8,
    pub second: u8,
    pub label: u8,
}

impl Name {
    pub fn has(self, stall: u8) -> bool {
        self.first == stall || self.second == stall
    }

    // The other stall of a meeting of one.
    pub fn partner(self, stall: u8) -> u8 {
        if self.first == stall {
            self.second
        } else {
            self.first
        }
    }

    // The same two heads, in either order, and the same label.
    pub fn is_same(self, other: Name) -> bool {
        self.label == other.label && self.has(other.first) && self.has(other.second)
    }
}

// For each place whether that meeting lies in a past, in bits: a run for each meeting would scatter the memory.
#[derive(Clone, Copy, Debug, PartialEq, Eq)]
struct Past([u64; WORDS]);

const WORDS: usize = ITEMS as usize / 64 + 1;

impl Past {
    fn has(&self, place: Place) -> bool {
        match self.0.get(usize::from(place / 64)) {
            Some(word) => *word >> u32::from(place % 64) & 1 == 1,
            None => false,
        }
    }

    fn add(&mut self, place: Place) {
        if let Some(word) = self.0.get_mut(usize::from(place / 64)) {
            *word |= 1u64 << u32::from(place % 64);
        }
    }
}

#[derive(Clone, Copy, Debug, PartialEq, Eq)]
pub struct Meeting {
    pub name: Name,
    first_yield: Option<u16>,
    second_yield: Option<u16>,
    past: Past,
    // For each stall the newest meeting of it in the past.
    newest: [Option<Place>; STALLS],
}

impl Meeting {
    // The newest meeting of a stall in its past.
    pub fn newest(&self, stall: u8) -> Option<Place> {
        self.newest.get(index(stall)?).copied().flatten()
    }

    // The yield that one of its stalls had; none where it was not milked.
    pub fn yield_of(&self, stall: u8) -> Option<u16> {
        if self.name.first == stall {
            self.first_yield
        } else {
            self.second_yield
        }
    }
}

// A head: its last meeting, and its yield, none where it was not milked.
#[derive(Clone, Copy, Debug, PartialEq, Eq)]
struct Head {
    last: Option<Place>,
    current: Option<u16>,
}

#[derive(Debug, PartialEq, Eq, Drop)]
pub struct History {
    stalls: u8,
    heads: Vec<Head>,
    meetings: Vec<Meeting>,
}

impl History {
    // No meeting, and no head was milked. There is room for all meetings, so that no run is copied to a longer one.
    pub fn new(alloc: Global, stalls: u8) -> Result<History, AllocError> {
        let head = Head {
            last: None,
            current: None,
        };
        Ok(History {
            stalls,
            heads: vec![in alloc; head; usize::from(stalls)]?,
            meetings: Vec::with_capacity(alloc, usize::from(ITEMS))?,
        })
    }

    pub fn stalls(&self) -> u8 {
        self.stalls
    }

    pub fn meetings(&self) -> &[Meeting] {
        self.meetings.as_slice()
    }

    // The meeting at a place; none at none.
    pub fn meeting(&self, place: Option<Place>) -> Option<&Meeting> {
        self.meetings.get(usize::from(place?))
    }

    // The place that the next meeting gets. It fits: no list has as many meetings.
    fn next(&self) -> Place {
        Place::try_from(self.meetings.len()).unwrap_or(Place::MAX)
    }

    // The place of the newest meeting.
    pub fn newest(&self) -> Option<Place> {
        self.next().checked_sub(1)
    }

    // The place of a head's last meeting. The past of that is the head's.
    fn last(&self, head: u8) -> Option<Place> {
        self.heads.get(index(head)?)?.last
    }

    // A head's yield; none where it was not milked.
    pub fn current(&self, head: u8) -> Option<u16> {
        self.heads.get(index(head)?)?.current
    }

    // The latest of a stall for a head.
    pub fn latest(&self, head: u8, stall: u8) -> Option<Place> {
        self.meeting(self.last(head))?.newest(stall)
    }

    // The yield that a stall had at a meeting of it.
    pub fn yield_at(&self, place: Option<Place>, stall: u8) -> Option<u16> {
        self.meeting(place)?.yield_of(stall)
    }

    // Meeting a lies in the past of meeting b. None lies in no past and has none.
    pub fn is_in_past(&self, a: Option<Place>, b: Option<Place>) -> bool {
        match (a, self.meeting(b)) {
            (Some(a), Some(b)) => b.past.has(a),
            _ => false,
        }
    }

    // The meeting at a place has this name.
    pub fn is_named(&self, place: Option<Place>, name: Name) -> bool {
        self.meeting(place)
            .is_some_and(|meeting| meeting.name.is_same(name))
    }

    // One of the newest meetings in the past of a meeting has this name.
    fn is_named_in_past(&self, place: Option<Place>, name: Name) -> bool {
        self.meeting(place).is_some_and(|meeting| meeting
            .newest
            .iter()
            .any(|&k| self.is_named(k, name)))
    }

    // One of a head's latests has this name, or one of the newest meetings in the pasts of these.
    fn is_held(&self, head: u8, name: Name) -> bool {
        self.meeting(self.last(head)).is_some_and(|last| {
            last.newest.iter().any(|&k| self.is_named(k, name) || self.is_named_in_past(k, name))
        })
    }

    // The lowest label that neither head holds of a meeting between the two; 64 if all below are held, and no Option: a label is answered as a number.
    fn new_label(&self, first: u8, second: u8) -> u8 {
        (0..LABELS)
            .find(|&label| {
                let name = Name {
                    first,
                    second,
                    label,
                };
                !self.is_held(first, name) && !self.is_held(second, name)
            })
            .unwrap_or(LABELS)
    }

    // The past of a new meeting, which is itself and the pasts of both heads: a chain to it comes through an earlier
    // meeting of one of them, and from there a chain runs to that head's last.
    fn new_past(&self, name: Name) -> Past {
        let one = self.last(name.first);
        let two = self.last(name.second);
        let place = self.next();
        let mut past = Past([0; WORDS]);
        for a in 0..=place {
            if a == place || self.is_in_past(Some(a), one) || self.is_in_past(Some(a), two) {
                past.add(a);
            }
        }
        past
    }

    // The newest meeting of a stall in the past of a new one, looked for from the newest down.
    fn find_newest(&self, name: Name, past: &Past, stall: u8) -> Option<Place> {
        if name.has(stall) {
            return Some(self.next());
        }
        (0..self.next()).rev().find(|&place| {
            past.has(place)
                && self
                    .meeting(Some(place))
                    .is_some_and(|meeting| meeting.name.has(stall))
        })
    }

    // Adds a meeting at the next place.
    fn add(&mut self, name: Name) -> Result<(), AllocError> {
        let place = self.next();
        let past = self.new_past(name);
        let mut newest = [None; STALLS];
        for (stall, place) in (1..=self.stalls).zip(newest.iter_mut()) {
            *place = self.find_newest(name, &past, stall);
        }
        let first_yield = self.current(name.first);
        let second_yield = self.current(name.second);
        self.meetings.push(Meeting {
            name,
            first_yield,
            second_yield,
            past,
            newest,
        })?;
        self.set_last(name.first, place);
        self.set_last(name.second, place);
        Ok(())
    }

    fn head_mut(&mut self, head: u8) -> Option<&mut Head> {
        self.heads.get_mut(index(head)?)
    }

    fn set_last(&mut self, head: u8, place: Place) {
        if let Some(head) = self.head_mut(head) {
            head.last = Some(place);
        }
    }
}

// It answers what the calls must answer, and writes what they must write.
impl Follower for History {
    // A milking counts when its yield is at most 999.
    fn milk(&mut self, stall: u8, given: u16) -> u32 {
        if given > YIELD_LIMIT {
            return Refusal::Yield.number();
        }
        if let Some(head) = self.head_mut(stall) {
            head.current = Some(given);
        }
        DONE
    }

    // A meeting counts when its buffer has n bytes. The verdict on a stall is 1 or 2 where the first or the second
    // head's news of it is newer, else 0: bytes, as C's interface has them in the buffer, and those are compared.
    fn meet(
        &mut self,
        _alloc: Global,
        first: u8,
        second: u8,
        verdicts: &mut [u8],
    ) -> Result<u32, AllocError> {
        if verdicts.len() != usize::from(self.stalls) {
            return Ok(Refusal::Buffer.answer());
        }
        for (stall, verdict) in (1..=self.stalls).zip(verdicts.iter_mut()) {
            let one = self.latest(first, stall);
            let two = self.latest(second, stall);
            *verdict = match one.cmp(&two) {
                Ordering::Greater => 1,
                Ordering::Less => 2,
                Ordering::Equal => 0,
            };
        }
        let label = self.new_label(first, second);
        self.add(Name {
            first,
            second,
            label,
        })?;
        Ok(u32::from(label))
    }
}

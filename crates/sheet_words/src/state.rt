// What the words so far leave to be known, which words may stand next, and what is wrong with a word.
ghost use Rattle.std.specs.Prelude.{◌≡◌, cond, ◌&&◌, ◌||◌, not, true, List, [], ◌∷◌, ℕ, suc, pred, ◌*◌, ◌^◌, ◌<◌, eqb, ltb};
ghost use Rattle.basics.specs.Options.{value_or};
ghost use Rattle.definitions.specs.Domain.{is_capacity, is_demand};
ghost use Rattle.definitions.specs.Reader as Reader;
ghost use Rattle.definitions.specs.Reader.{among, onward, behind_second, may_stand, in_range, repeated, pair_falls};
ghost use Rattle.definitions.specs.Reader.{closure_differs, fault_at};
ghost use Rattle.sheet_words.specs.Held.{held_word, state_with, state_of};

use crate::Word;
use models::domain::{is_call, is_capacity, is_demand, is_leg, is_number, is_penalty, is_places};
use refuse_lists::first::first_fit;

#[derive(Clone, Copy)]
pub struct State {
    // The word before.
    pub last: Word,
    // How many words of its kind stand in a row up to here.
    pub row: usize,
    pub places: u32,
    // How many customers have yet to come.
    pub coming: u32,
}

// One less, and 0 of 0.
pub fn one_less(n: u32) -> u32
    ensures { result ≡ pred n }
{
    n.saturating_sub(1)
}

// Whether a kind is one of those named.
pub fn among1(kind: u32, a: u32) -> bool
    ensures { result ≡ among kind (a ∷ []) }
{
    kind == a
}

pub fn among2(kind: u32, a: u32, b: u32) -> bool
    ensures { result ≡ among kind (a ∷ b ∷ []) }
{
    kind == a || among1(kind, b)
}

pub fn among3(kind: u32, a: u32, b: u32, c: u32) -> bool
    ensures { result ≡ among kind (a ∷ b ∷ c ∷ []) }
{
    kind == a || among2(kind, b, c)
}

pub fn among4(kind: u32, a: u32, b: u32, c: u32, d: u32) -> bool
    ensures { result ≡ among kind (a ∷ b ∷ c ∷ d ∷ []) }
{
    kind == a || among3(kind, b, c, d)
}

// Whether the last word does not say how many stand before it.
pub fn wrong_count(w: Word, i: usize) -> bool
    ensures { result ≡ eqb w.kind 0xF && not (eqb w.value i) }
{
    w.kind == 0xF && w.value as usize != i
}

impl State {
    // No word yet: a kind that no word has.
    pub fn start() -> Self
        ensures { state_of result ≡ Reader.start }
    {
        State {
            last: Word { kind: 16, value: 0 },
            row: 0,
            places: 0,
            coming: 0,
        }
    }

    pub fn row_with(self, w: Word) -> usize
        requires { suc self.row < 2 ^ 64 }
        ensures { result ≡ (Reader.next (state_of self) (held_word w)).row }
    {
        if w.kind == self.last.kind {
            self.row + 1
        } else {
            1
        }
    }

    pub fn places_with(self, w: Word) -> u32
        ensures { result ≡ (Reader.next (state_of self) (held_word w)).places }
    {
        if w.kind == 1 { w.value } else { self.places }
    }

    pub fn coming_with(self, w: Word) -> u32
        ensures { result ≡ (Reader.next (state_of self) (held_word w)).coming }
    {
        if w.kind == 1 {
            return one_less(w.value);
        }
        if w.kind == 7 {
            return one_less(self.coming);
        }
        self.coming
    }

    // What is known behind one more word.
    pub fn next(self, w: Word) -> Self
        requires { suc self.row < 2 ^ 64 }
        ensures { (called facing : List ℕ) →
            let after = Reader.next (state_with called facing self) (held_word w) in
            state_with after.called after.facing result ≡ after }
    {
        State {
            last: w,
            row: self.row_with(w),
            places: self.places_with(w),
            coming: self.coming_with(w),
        }
    }

    // The next customer, or when all have come the distances.
    pub fn onward(self) -> u32
        ensures { result ≡ onward (state_of self) }
    {
        if self.coming == 0 { 0xC } else { 7 }
    }

    // What stands behind a 0: the fixed cost in the head, where all customers are yet to come, and else a service.
    pub fn behind_second(self) -> u32
        ensures { result ≡ behind_second (state_of self) }
    {
        let with_depot = self.coming as u64 + 1;
        if with_depot == self.places as u64 {
            3
        } else {
            8
        }
    }

    // How many distances there are.
    pub fn full(self) -> usize
        ensures { result ≡ self.places * self.places }
    {
        let places = self.places as usize;
        places * places
    }

    // What may stand behind a break number: three stand in a row.
    pub fn behind_break(self, kind: u32) -> bool
        ensures { result ≡ among kind (cond (ltb self.row 3) (6 ∷ []) (onward (state_of self) ∷ [])) }
    {
        if self.row < 3 {
            among1(kind, 6)
        } else {
            among1(kind, self.onward())
        }
    }

    // What may stand behind a distance: as many stand in a row as the table has.
    pub fn behind_distance(self, kind: u32) -> bool
        ensures { let full = self.places * self.places in
            result ≡ among kind (cond (ltb self.row full) (0xC ∷ []) (0xD ∷ 0xE ∷ 0xF ∷ [])) }
    {
        if self.row < self.full() {
            among1(kind, 0xC)
        } else {
            among3(kind, 0xD, 0xE, 0xF)
        }
    }

    // What may stand behind a time: as many as distances.
    pub fn behind_time(self, kind: u32) -> bool
        ensures { let full = self.places * self.places in
            result ≡ among kind (cond (ltb self.row full) (0xD ∷ []) (0xE ∷ 0xF ∷ [])) }
    {
        if self.row < self.full() {
            among1(kind, 0xD)
        } else {
            among2(kind, 0xE, 0xF)
        }
    }

    // Whether a word of that kind may stand next.
    pub fn may_stand(self, kind: u32) -> bool
        ensures { result ≡ among kind (may_stand (state_of self)) }
    {
        let on = self.onward();
        let second = self.behind_second();
        let last = self.last.kind;
        match last {
            16 => among1(kind, 1),
            1 => among1(kind, 2),
            2 => among2(kind, 0, 3),
            3 => among4(kind, 4, 5, 6, on),
            4 => among3(kind, 5, 6, on),
            5 => among2(kind, 6, on),
            6 => self.behind_break(kind),
            7 => among2(kind, 0, 8),
            8 => among3(kind, 9, 0xB, on),
            9 => among1(kind, 0xA),
            0xA => among2(kind, 0xB, on),
            0xB => among1(kind, on),
            0xC => self.behind_distance(kind),
            0xD => self.behind_time(kind),
            0xE => among2(kind, 0xE, 0xF),
            0 => among1(kind, second),
            _ => false,
        }
    }

    // A second capacity, or a second demand, has the range of the first.
    pub fn second_in_range(self, value: u32) -> bool
        ensures { result ≡ cond (eqb self.last.kind 2) (is_capacity value) (is_demand value) }
    {
        if self.last.kind == 2 {
            is_capacity(value)
        } else {
            is_demand(value)
        }
    }

    pub fn in_range(self, w: Word) -> bool
        ensures { result ≡ in_range (state_of self) (held_word w) }
    {
        let kind = w.kind;
        match kind {
            1 => is_places(w.value as usize),
            2 => is_capacity(w.value),
            7 => is_demand(w.value),
            0xB => is_penalty(w.value),
            0xC => is_leg(w.value),
            0xD => is_leg(w.value),
            0xE => is_call(self.places as usize, w.value as usize),
            0xF => true,
            0 => self.second_in_range(w.value),
            _ => is_number(w.value),
        }
    }

    // Whether a word of that kind is the later of a pair: a due time, or a latest time.
    pub fn ends_pair(self, kind: u32) -> bool
        ensures { result ≡ eqb kind 0xA || (eqb kind 6 && eqb self.last.kind 6 && eqb self.row 1) }
    {
        if kind == 0xA {
            return true;
        }
        if kind == 6 {
            return self.last.kind == 6 && self.row == 1;
        }
        false
    }

    // Ready above due, or earliest above latest.
    pub fn pair_falls(self, w: Word) -> bool
        ensures { result ≡ pair_falls (state_of self) (held_word w) }
    {
        self.ends_pair(w.kind) && w.value < self.last.value
    }

    // The number of what is wrong with the word of index i, and 0 where nothing is: `again` says whether it calls a
    // customer that was called before, and `differs`, of a word that may stand, whether it is a time that disagrees on
    // closure with its distance. Every test is made, whatever the others say.
    pub fn number_at(self, i: usize, w: Word, again: bool, differs: bool) -> u32
        ensures { (called facing : List ℕ) →
            let s = state_with called facing self in
            again ≡ repeated s (held_word w)
            → (among w.kind (may_stand s) ≡ true → differs ≡ closure_differs s (held_word w))
            → result ≡ value_or 0 (fault_at s i (held_word w)) }
    {
        let numbers = [11, 1, 21, 2, 22, 3];
        let fits = [
            !self.may_stand(w.kind),
            !self.in_range(w),
            again,
            self.pair_falls(w),
            differs,
            wrong_count(w, i),
        ];
        first_fit(&numbers, &fits)
    }

    // What is wrong with the word of index i, by number; none where it is sound.
    pub fn fault_at(self, i: usize, w: Word, again: bool, differs: bool) -> Option<u32>
        ensures { (called facing : List ℕ) →
            let s = state_with called facing self in
            again ≡ repeated s (held_word w)
            → (among w.kind (may_stand s) ≡ true → differs ≡ closure_differs s (held_word w))
            → result ≡ fault_at s i (held_word w) }
    {
        let number = self.number_at(i, w, again, differs);
        if number == 0 {
            return None;
        }
        Some(number)
    }
}

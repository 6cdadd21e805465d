// What the next record shows.
ghost use Rattle.std.specs.Prelude.{◌≡◌};
ghost use Rattle.test_records.specs.Seen.{is_answer, seen_of};

#[derive(Clone, Copy)]
pub enum Seen {
    // The recorded answer is the computed one.
    Alike,
    // It is another one.
    Unlike,
    // It is another one, and was to be: it is wrong on purpose.
    Noticed,
    // It is wrong on purpose, and yet it is the computed one.
    Missed,
    // There is no further record.
    End,
    // The input ends in the middle of the record.
    CutShort,
    // The question or the answer is longer than any.
    TooLong,
}

// Whether an answer was compared.
pub fn is_answer(seen: Seen) -> bool
    ensures { result ≡ is_answer seen }
{
    match seen {
        Seen::Alike => true,
        Seen::Unlike => true,
        Seen::Noticed => true,
        Seen::Missed => true,
        Seen::End => false,
        Seen::CutShort => false,
        Seen::TooLong => false,
    }
}

// What a comparison shows of an answer that is wrong on purpose, or right.
pub fn seen_of(wrong: bool, alike: bool) -> Seen
    ensures { result ≡ seen_of wrong alike }
{
    if wrong {
        return if alike { Seen::Missed } else { Seen::Noticed };
    }
    if alike { Seen::Alike } else { Seen::Unlike }
}

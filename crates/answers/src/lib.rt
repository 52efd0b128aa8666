// What the calls answer a host, why a call is refused, and with which number (document 01, "Numbered answers"). `model` has
// the same numbers, and the header for a host.
#![tactic(auto)]

ghost use Rattle.std.specs.Prelude.{◌≡◌};
ghost use Rattle.answers.specs.Answers.{number_of, refused_at, refusing, counting, refusing_rule, accepting_rule, refusing_text, written_text, refusing_name, judged_name};

// Why a call is refused, each with its number.
#[derive(Clone, Copy, Debug, PartialEq, Eq)]
pub enum Refusal {
    // "rule of length 0"
    RuleEmpty = 1,
    // "rule, a rewriter's finished text, or an imported pattern's rule text, over 1,023 bytes"
    RuleLong = 2,
    // "class unclosed, empty, with a reversed range, a bad `\` or misplaced `-`, or left with no byte"
    ClassFault = 3,
    // "gap not of the given form, a > b, or b = 0"
    GapFault = 4,
    // "`?`, `+`, `*` first, after a gap, or after another of them"
    MarkFault = 5,
    // "outside a class: bad or last `\`, or stray `]` or `}`"
    ByteFault = 6,
    // "it takes the positions past 255"
    TooManyPositions = 7,
    // "the empty string is admitted"
    AdmitsEmpty = 8,
    // "list or buffer too short"
    TooShort = 9,
    // "more than 4,294,967,295 bytes in the text, the name or the pattern, or in all the pieces"
    TooMuch = 10,
    // "impossible scan value"
    Impossible = 11,
    // "scan already finished"
    AlreadyFinished = 12,
    // "a LIKE backslash stands last or before another byte"
    LikeFault = 14,
    // "there are more than 8 codes, the sets are not 32 bytes for each code, a code is named twice, a set is empty or holds a
    // code, or a position holds codes alone"
    CodesFault = 15,
    // "a rule's first or last element is a gap with a < b"
    OuterGap = 16,
    // "an offer's feed number is above 7 or that feed already has a piece waiting"
    OfferFault = 18,
}

impl Refusal {
    // The number that a host is told.
    pub fn number(self) -> u32
        ensures { result ≡ number_of self }
    {
        self as u32
    }

    // The refusal at a place.
    pub fn at(self, place: u32) -> Refused
        ensures { result ≡ refused_at self place }
    {
        Refused {
            refusal: self,
            place,
        }
    }
}

// The error of a call: why it is refused, and where.
#[derive(Clone, Copy, Debug, PartialEq, Eq)]
pub struct Refused {
    pub refusal: Refusal,
    pub place: u32,
}

// What a call on a scan or on a whole text answers. `windows` is a search's, and 0 in any other answer.
#[repr(C)]
#[derive(Drop)]
pub struct Answer {
    pub number: u32,
    pub place: u32,
    pub count: u32,
    pub windows: u32,
}

// What preparing a rule, or an opening, answers.
#[repr(C)]
#[derive(Drop)]
pub struct Opened {
    pub number: u32,
    pub place: u32,
    pub positions: u32,
    pub shortest: u32,
}

// What a call that writes a rule's text answers.
#[repr(C)]
#[derive(Drop)]
pub struct Text {
    pub number: u32,
    pub place: u32,
    pub length: u32,
}

// What asking whether a rule covers a name answers: `covered` is 1 or 0.
#[repr(C)]
#[derive(Drop)]
pub struct Covered {
    pub number: u32,
    pub place: u32,
    pub covered: u32,
}

// What an offer answers, with the dispatcher's state: which feeds wait, and the one last served.
#[repr(C)]
#[derive(Drop)]
pub struct Offered {
    pub number: u32,
    pub place: u32,
    pub waiting: u32,
    pub last: u32,
}

// What a turn answers, with that state: `served` is 1 or, with nobody waiting, 0.
#[repr(C)]
#[derive(Drop)]
pub struct Served {
    pub served: u32,
    pub feed: u32,
    pub waiting: u32,
    pub last: u32,
}

// A part of a text, as its two places.
#[repr(C)]
#[derive(Drop)]
pub struct Span {
    pub from: usize,
    pub to: usize,
}

// "place 0 where none is given"
impl From<Refusal> for Refused {
    ghost from_gives = { λ refusal refused. refused ≡ refused_at refusal 0 };

    fn from(refusal: Refusal) -> Refused {
        refusal.at(0)
    }
}

// A refusal as each call's answer: "Every refusal has zero counts beside its number and place".
impl From<Refused> for Answer {
    ghost from_gives = { λ refused answer. answer ≡ refusing (number_of refused.refusal) refused.place };

    fn from(refused: Refused) -> Answer {
        Answer {
            number: refused.refusal.number(),
            place: refused.place,
            count: 0,
            windows: 0,
        }
    }
}

impl From<Refused> for Opened {
    ghost from_gives = { λ refused opened. opened ≡ refusing_rule (number_of refused.refusal) refused.place };

    fn from(refused: Refused) -> Opened {
        Opened {
            number: refused.refusal.number(),
            place: refused.place,
            positions: 0,
            shortest: 0,
        }
    }
}

impl From<Refused> for Text {
    ghost from_gives = { λ refused text. text ≡ refusing_text (number_of refused.refusal) refused.place };

    fn from(refused: Refused) -> Text {
        Text {
            number: refused.refusal.number(),
            place: refused.place,
            length: 0,
        }
    }
}

impl From<Refused> for Covered {
    ghost from_gives = { λ refused covered. covered ≡ refusing_name (number_of refused.refusal) refused.place };

    fn from(refused: Refused) -> Covered {
        Covered {
            number: refused.refusal.number(),
            place: refused.place,
            covered: 0,
        }
    }
}

impl Answer {
    // A finished result.
    pub fn counted(count: u32, windows: u32) -> Answer
        ensures { result ≡ counting count windows }
    {
        Answer {
            number: 0,
            place: 0,
            count,
            windows,
        }
    }
}

impl Opened {
    // A rule that is accepted.
    pub fn accepted(positions: u32, shortest: u32) -> Opened
        ensures { result ≡ accepting_rule positions shortest }
    {
        Opened {
            number: 0,
            place: 0,
            positions,
            shortest,
        }
    }
}

impl Text {
    // A text of so many bytes is written.
    pub fn written(length: u32) -> Text
        ensures { result ≡ written_text length }
    {
        Text {
            number: 0,
            place: 0,
            length,
        }
    }
}

impl Covered {
    // A name is covered, or it is not.
    pub fn judged(covers: bool) -> Covered
        ensures { result ≡ judged_name covers }
    {
        Covered {
            number: 0,
            place: 0,
            covered: u32::from(covers),
        }
    }
}

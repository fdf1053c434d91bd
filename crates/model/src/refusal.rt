// What is refused, as specs/Refusals.antt has it: in the order of document 01's table, "Numbers and places", then as document 02 adds it.
ghost use Rattle.std.specs.Prelude.{◌≡◌};
ghost use Rattle.model.specs.Answers.{number_of};

// A kind of refusal, by its number.
#[derive(Clone, Copy, PartialEq, Eq)]
pub enum Kind {
    // "1, line: word, field count or field form wrong; last line unended"
    Form = 1,

    // "2, line: FROM, input, LEN or N outside its bounds"
    Bounds = 2,

    // "3, line: node 129, or over 4,000 bits; place 0: text too long"
    Size = 3,

    // "4, line: word out of order; no `out` (last line number + 1)"
    Order = 4,

    // "5, mux's line: SEG not a segment with shadow, or an address bit beyond it; lowest such line"
    Address = 5,

    // "6, line: `hold`, `write`, `read`: not a segment, BITS not LEN long, or same word and segment again"
    Entry = 6,

    // "7, line: target is a steering segment"
    SteeringTarget = 7,

    // "8, line: fifth target"
    TargetCount = 8,

    // "9, mux's number: start not valid; first multiplexer met"
    Start = 9,

    // "10, count: planner: over 6 steering bits"
    SteeringCount = 10,

    // "11, 0: planner: no valid plan of at most 16 operations"
    NoPlan = 11,

    // "12, 11664: search space below 11,664 entries of 16 bits"
    SearchSpace = 12,

    // "13, bytes needed: buffer for plan, TMS or TDI too short"
    Buffer = 13,

    // "14, line: plan: line form wrong, or line 17; place 0: text too long"
    PlanForm = 14,

    // "15, operation: count of bits is not the path length"
    BitCount = 15,

    // "16, operation: configuration after it not valid"
    Configuration = 16,

    // "17, target: not accessed, or not holding its bits; lowest target"
    Target = 17,

    // document 02, Change 1: "18, at the line .. a RESET whose length is not LEN"
    ResetLength = 18,

    // document 02, Change 2: "19, at the first offending line, a wrong line form or an empty field, .."
    ClockLine = 19,
}

// What is refused, and its place: a line, a target or another number, as the kind says.
#[derive(Clone, Copy, PartialEq, Eq)]
pub struct Refusal {
    pub kind: Kind,
    pub place: usize,
}

impl Kind {
    // Document 01's number.
    pub fn number(self) -> usize
        ensures { result ≡ number_of self }
    {
        self as usize
    }

    // Refused at a place.
    pub fn at(self, place: usize) -> Refusal
        ensures { result ≡ record { kind = self; place = place } }
    {
        Refusal { kind: self, place }
    }
}

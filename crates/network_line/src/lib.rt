// One parsed line of a network text.
#![tactic(auto)]

pub mod node;

ghost use Rattle.std.specs.Prelude.{cond, ◌≡◌, ◌≤◌, ◌<◌, length, option_map};
ghost use Rattle.model.specs.Text.{fields, Seg, Mux, Out, Hold, Write, Read};
ghost use Rattle.model.specs.NetworkText.{field, kind, line_by};
ghost use Rattle.text.specs.Numbers.{IsDecimal};
ghost use Rattle.text.specs.Places.{FieldStarts};
ghost use Rattle.network_line.specs.Line.{FieldsPlaced, IsSegment, IsEntry, number_of, IsSmallNumber, IsPlain, IsParsed, IsParsedLine};

use text::LineWord;

// A node is a segment or a multiplexer, and each kind has its own fields. A multiplexer has the first `count` of the inputs.
#[derive(Clone, Copy)]
pub enum NodeData {
    Segment {
        from: usize,
        len: usize,
        shadow: bool,
    },
    Multiplexer {
        seg: usize,
        bit: usize,
        count: usize,
        inputs: [usize; 4],
    },
}

// What a line says: a node, the node that feeds scan-out, start bits, a write target, a read target.
#[derive(Clone, Copy)]
pub enum Entry {
    Node(NodeData),
    Out(usize),
    Hold(usize),
    Write(usize),
    Read(usize),
}

// A parsed line: what it says, and its BITS or RESET field, empty where it has none.
#[derive(Clone, Copy)]
pub struct ParsedLine<'a> {
    pub entry: Entry,
    pub bits: &'a [u8],
}

// Whether a segment has a shadow register, by its KIND: `s` or `p`.
#[tactic(auto, using(text::proofs::Words::same_by_bytes))]
fn shadow_of(f: &[u8]) -> Option<bool>
    ensures { result ≡ kind f.now }
{
    match f {
        b"s" => Some(true),
        b"p" => Some(false),
        _ => None,
    }
}

// The number of field k.
fn number(line: &[u8], starts: &[usize; 8], k: usize) -> Option<usize>
    requires { (k < 7) × (k < length (fields line.now)) × FieldStarts line.now starts.now }
    ensures { IsDecimal (field (fields line.now) k) result }
{
    text::decimal_of(text::field(line, starts, k))
}

// FROM, LEN and KIND of a `seg` line.
fn segment_of(line: &[u8], starts: &[usize; 8]) -> Option<NodeData>
    requires { (4 ≤ length (fields line.now)) × FieldStarts line.now starts.now }
    ensures { IsSegment (fields line.now) result }
{
    Some(NodeData::Segment {
        from: number(line, starts, 1)?,
        len: number(line, starts, 2)?,
        shadow: shadow_of(text::field(line, starts, 3))?,
    })
}

// `seg FROM LEN KIND [RESET]`.
fn seg_line<'a, 'b>(line: &'a [u8], starts: &'b [usize; 8], count: usize) -> Option<ParsedLine<'a>>
    requires { FieldsPlaced line.now starts.now count }
    ensures { IsParsed line.now (line_by (fields line.now) Seg) result }
{
    if count < 4 || 5 < count {
        return None;
    }
    let entry = Entry::Node(segment_of(line, starts)?);
    if count == 4 {
        return Some(plain(entry));
    }
    let bits = text::field(line, starts, 4);
    if !text::are_bits(bits, true) {
        return None;
    }
    Some(ParsedLine { entry, bits })
}

// `mux SEG BIT A B [C [D]]`.
fn mux_line(line: &[u8], starts: &[usize; 8], count: usize) -> Option<Entry>
    requires { FieldsPlaced line.now starts.now count }
    ensures { IsEntry (line_by (fields line.now) Mux) result }
{
    if count < 5 || 7 < count {
        return None;
    }
    let seg = number(line, starts, 1)?;
    let bit = number(line, starts, 2)?;
    let count = count - 3;
    let mut inputs = [0; 4];
    for k in 0..count {
        inputs[k] = number(line, starts, k + 3)?;
    }
    Some(Entry::Node(NodeData::Multiplexer {
        seg,
        bit,
        count,
        inputs,
    }))
}

// The number of `out N` or `read SEG`.
fn number_line(line: &[u8], starts: &[usize; 8], count: usize) -> Option<usize>
    requires { FieldsPlaced line.now starts.now count }
    ensures { IsSmallNumber (number_of (fields line.now)) result }
{
    if count != 2 {
        return None;
    }
    number(line, starts, 1)
}

// A parsed line without BITS and RESET.
fn plain<'a>(entry: Entry) -> ParsedLine<'a>
    ensures { IsPlain entry result }
{
    ParsedLine { entry, bits: &[] }
}

// `hold SEG BITS` where unknown bits are allowed, else `write SEG BITS`.
fn bits_line<'a, 'b>(
    line: &'a [u8],
    starts: &'b [usize; 8],
    count: usize,
    unknown: bool,
) -> Option<ParsedLine<'a>>
    requires { FieldsPlaced line.now starts.now count }
    ensures { IsParsed line.now (line_by (fields line.now) (cond unknown Hold Write)) result }
{
    if count != 3 {
        return None;
    }
    let s = number(line, starts, 1)?;
    let bits = text::field(line, starts, 2);
    if !text::are_bits(bits, unknown) {
        return None;
    }
    let entry = if unknown {
        Entry::Hold(s)
    } else {
        Entry::Write(s)
    };
    Some(ParsedLine { entry, bits })
}

// What a line says. `csu` stands in plans only.
pub fn parse<'a>(line: &'a [u8]) -> Option<ParsedLine<'a>>
    ensures { IsParsedLine line.now result }
{
    let f = text::split(line);
    match text::word_of(text::field(line, &f.starts, 0))? {
        LineWord::Seg => seg_line(line, &f.starts, f.count),
        LineWord::Mux => Some(plain(mux_line(line, &f.starts, f.count)?)),
        LineWord::Out => Some(plain(Entry::Out(number_line(line, &f.starts, f.count)?))),
        LineWord::Hold => bits_line(line, &f.starts, f.count, true),
        LineWord::Write => bits_line(line, &f.starts, f.count, false),
        LineWord::Read => Some(plain(Entry::Read(number_line(line, &f.starts, f.count)?))),
        LineWord::Csu => None,
    }
}

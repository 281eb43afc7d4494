// Places in 64 bits each: two numbers are set for each token, and not twelve.
ghost use Rattle.std.specs.Prelude.{◌≡◌};
ghost use Rattle.steps.specs.Packed.{Small, packed, packed_loc, unpacked};

use lexer::location::{LOC, Span};

// Offset, line and column are below it in any text that is read.
const UNIT: u64 = 1048576;

// A LOC, each of its places in 64 bits.
#[derive(Clone, Copy, Debug, PartialEq, Eq)]
pub struct Range {
    pub start: u64,
    pub end: u64,
}

// A place in 64 bits: its offset, its line, its column, the lowest first.
pub fn pack(span: Span) -> u64
    requires { Small span }
    ensures { result ≡ packed span }
{
    span.index as u64 + span.line as u64 * UNIT + span.column as u64 * (UNIT * UNIT)
}

// Both ends of a range.
pub fn pack_loc(loc: LOC) -> Range
    requires { Small loc.start × Small loc.end }
    ensures { result ≡ packed_loc loc }
{
    Range {
        start: pack(loc.start),
        end: pack(loc.end),
    }
}

// The offset, the line and the column of a place: any 64 bits have them.
pub fn index_of(place: u64) -> u32
    ensures { result ≡ (unpacked place).index }
{
    (place % UNIT) as u32
}

pub fn line_of(place: u64) -> u32
    ensures { result ≡ (unpacked place).line }
{
    (place / UNIT % UNIT) as u32
}

pub fn column_of(place: u64) -> u32
    ensures { result ≡ (unpacked place).column }
{
    (place / (UNIT * UNIT)) as u32
}

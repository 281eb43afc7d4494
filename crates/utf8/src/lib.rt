// UTF-8 as RFC 3629 has it: where a text stops being UTF-8.
#![tactic(auto)]

ghost use Rattle.std.specs.Prelude.{◌≡◌, cond, List, ◌∷◌, ℕ, ◌+◌, ◌<◌, ◌≤◌, length, get_or, drop, replicate, MatchOption};
ghost use Rattle.token.specs.Regex.{to};
ghost use Rattle.utf8.specs.Utf8.{tail, sequences, begins, width, ill_formed};
ghost use Rattle.utf8.specs.Passed.{IsWidth, Passed};

// How much of a text is looked at at once.
const PART: usize = 256;

// What a first byte asks of those behind it: the lowest and the highest second byte, and how many tail bytes follow that.
#[derive(Clone, Copy)]
struct Lead(u8, u8, usize);

// What a byte from 128 on asks, if it starts a sequence.
fn lead_of(first: u8) -> Option<Lead>
    requires { 128 ≤ first }
    ensures { MatchOption result ((w : List ℕ) → width sequences (first ∷ w) ≡ 0) (λ lead. (lead.2 < 3) × ((w : List ℕ) → width sequences (first ∷ w) ≡ cond (begins (to lead.0 lead.1 ∷ replicate lead.2 tail) w) (lead.2 + 2) 0)) }
{
    match first {
        0xc2..=0xdf => Some(Lead(0x80, 0xbf, 0)),
        0xe0 => Some(Lead(0xa0, 0xbf, 1)),
        0xe1..=0xec => Some(Lead(0x80, 0xbf, 1)),
        0xed => Some(Lead(0x80, 0x9f, 1)),
        0xee..=0xef => Some(Lead(0x80, 0xbf, 1)),
        0xf0 => Some(Lead(0x90, 0xbf, 2)),
        0xf1..=0xf3 => Some(Lead(0x80, 0xbf, 2)),
        0xf4 => Some(Lead(0x80, 0x8f, 2)),
        _ => None,
    }
}

// Whether a text begins with `count` tail bytes.
fn has_tails(text: &[u8], count: usize) -> bool
    ensures { result ≡ begins (replicate count tail) text.now }
{
    count <= text.len()
        && text[..count]
            .iter()
            .all(|&byte| 0x80 <= byte && byte <= 0xbf)
}

// How long the sequence at `at` is, whose first byte is from 128 on; none if it is ill-formed.
fn width_at(text: &[u8], at: usize) -> Option<usize>
    requires { (at < length text.now) × (128 ≤ get_or text.now at 0) }
    ensures { IsWidth (drop at text.now) result }
{
    let Lead(low, high, tails) = lead_of(text[at])?;
    let &second = text.get(at + 1)?;
    if second < low || high < second {
        return None;
    }
    has_tails(&text[at + 2..], tails).then_some(tails + 2)
}

// The sequences from `from` on that start before `stop`, passed: the offset behind them, or that of an ill-formed one among them.
fn pass_sequences(text: &[u8], from: usize, stop: usize) -> Result<usize, usize>
    requires { (from ≤ length text.now) × (stop ≤ length text.now) }
    ensures { Passed text.now from stop result }
{
    let mut at = from;
    // a step is a sequence, of one to four bytes
    while at < stop {
        if text[at] < 128 {
            at += 1;
        } else {
            let Some(n) = width_at(text, at) else {
                return Err(at);
            };
            at += n;
        }
    }
    Ok(at)
}

// The offset of the first ill-formed sequence. A part of the text without a byte from 128 on is passed whole.
pub fn ill_formed(text: &[u8]) -> Option<usize>
    ensures { result ≡ ill_formed text.now }
{
    let mut at: usize = 0;
    // a part ends behind its last sequence, so `chunks` would cut it
    while at < text.len() {
        let stop = at + PART.min(text.len() - at);
        if text[at..stop].is_ascii() {
            at = stop;
        } else {
            match pass_sequences(text, at, stop) {
                Ok(behind) => at = behind,
                Err(ill) => return Some(ill),
            }
        }
    }
    None
}
